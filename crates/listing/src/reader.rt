// The row reader: it holds the section's bytes and its place, and each call yields the next row of one function. `place_of` and
// `row_turn` do the work.
ghost use Rattle.std.specs.Prelude.{◌≡◌};
ghost use Rattle.listing.specs.Computed.Turns.{row_turn};
ghost use Rattle.listing.specs.Computed.Reader.{place_in, place_of};
ghost use Rattle.listing.specs.Told.{described_told};

use crate::function::{Facts, Undescribed, function_at};
use crate::rows::{RowPlace, nowhere, row_turn};
use accept::section_check::check;
use section::row::Row;

#[derive(Clone, Copy)]
pub struct RowReader<'a> {
    pub section: &'a [u8],
    pub place: RowPlace,
}

// Where the rows of a function begin, and a place with none left where there is no such function.
#[tactic(auto, unfolding(crate::specs::Computed::Reader::place_in))]
pub fn place_in(described: Result<Facts, Undescribed>) -> RowPlace
    ensures { result ≡ place_in (described_told described) }
{
    match described {
        Ok(facts) => facts.rows,
        Err(_) => nowhere(),
    }
}

// The same in an accepted section; none is left in a refused one.
#[tactic(auto, unfolding(crate::specs::Computed::Reader::place_of, crate::specs::Computed::Reader::place_by))]
pub fn place_of(section: &[u8], index: u64) -> RowPlace
    ensures { result ≡ place_of section.now index }
{
    match check(section) {
        Ok(()) => place_in(function_at(section, index)),
        Err(_) => nowhere(),
    }
}

// A reader of one function's rows, on any bytes.
pub fn reader_of(section: &[u8], index: u64) -> RowReader<'_>
    ensures { (result.section ≡ section.entry) × (result.place ≡ place_of section.now index) }
{
    RowReader {
        section,
        place: place_of(section, index),
    }
}

// The next row, or that there are no more, however often it is asked.
pub fn next_row(reader: &mut RowReader<'_>) -> Option<Row>
    ensures { (reader.new.section ≡ reader.old.section)
        × ((record { next = result; place = reader.new.place }) ≡ row_turn reader.old.section.now reader.old.place) }
{
    let turn = row_turn(reader.section, reader.place);
    reader.place = turn.place;
    turn.next
}
