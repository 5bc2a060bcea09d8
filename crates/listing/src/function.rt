// A function by its index: what its entry says, as it stands. The header's checks and one entry are all that is read.
ghost use Rattle.std.specs.Prelude.{◌≡◌};
ghost use Rattle.section.specs.Header.{layout_of};
ghost use Rattle.section.specs.Meaning.{block_of};
ghost use Rattle.accept.specs.Computed.Checks.{header_fault};
ghost use Rattle.accept.specs.Fault.{Sound};
ghost use Rattle.listing.specs.Functions.{kind_of, facts_of, described_in, described_of};
ghost use Rattle.listing.specs.Told.{described_told};
ghost use Rattle.listing.specs.Inner.Requires.{EntryThere};

use crate::rows::RowPlace;
use accept::header_check::check_header;
use accept::verdict::Rule;
use numbers::offset::Offset;
use section::entry::{Entry, does_repeat, entry_at, exact_start, type_of};
use section::header::{Layout, layout_at, order_at};

// A block is plain, or repeated by a size.
#[derive(Clone, Copy)]
pub enum Kind {
    Plain,
    Repeated(u8),
}

// What is said of a function. `rows` is where its rows begin, with their number.
#[derive(Clone, Copy)]
pub struct Facts {
    pub start: Offset,
    pub size: u32,
    pub kind: Kind,
    pub rows: RowPlace,
}

// Why nothing is said of an index: the header breaks a rule, or there is no such function.
#[derive(Clone, Copy)]
pub enum Undescribed {
    Unsound(Rule),
    Unknown,
}

#[tactic(auto, unfolding(section::specs::Meaning::block_of, crate::specs::Functions::kind_of))]
fn kind_of(entry: Entry) -> Kind
    ensures { result ≡ kind_of (block_of entry) }
{
    if does_repeat(entry.info) {
        Kind::Repeated(entry.repeat)
    } else {
        Kind::Plain
    }
}

// Function i, whose entry lies in the section.
#[tactic(auto, unfolding(section::specs::Meaning::entry_in, crate::specs::Functions::facts_of, crate::specs::Functions::rows_place))]
pub fn facts_at(section: &[u8], layout: Layout, i: u64) -> Facts
    requires { EntryThere section.now layout i }
    ensures { result ≡ facts_of section.now i }
{
    let entry = entry_at(section, order_at(section), (layout.table + 20 * i) as u32);
    Facts {
        start: exact_start(layout.relative, entry),
        size: entry.size,
        kind: kind_of(entry),
        rows: RowPlace {
            abi: layout.abi,
            code: type_of(entry.info),
            at: layout.area as usize + entry.first as usize,
            left: entry.rows as u64,
        },
    }
}

#[tactic(auto, unfolding(crate::specs::Functions::described_in))]
fn described_in(section: &[u8], layout: Layout, index: u64) -> Result<Facts, Undescribed>
    requires { (header_fault section.now ≡ Sound) × (layout ≡ layout_of section.now) }
    ensures { described_told result ≡ described_in section.now index }
{
    if index < layout.functions as u64 {
        return Ok(facts_at(section, layout, index));
    }
    Err(Undescribed::Unknown)
}

// The function with an index, on any bytes.
#[tactic(auto, using(crate::proofs::FunctionLaws::header_long), unfolding(crate::specs::Functions::described_of, crate::specs::Functions::described_by))]
pub fn function_at(section: &[u8], index: u64) -> Result<Facts, Undescribed>
    ensures { described_told result ≡ described_of section.now index }
{
    match check_header(section) {
        Ok(()) => described_in(section, layout_at(section), index),
        Err(rule) => Err(Undescribed::Unsound(rule)),
    }
}
