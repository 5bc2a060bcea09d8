// The rows of a function, one at a time: where a reader stands in them, and one turn of it.
ghost use Rattle.std.specs.Prelude.{true, ◌≡◌};
ghost use Rattle.section.specs.Row.{row_of};
ghost use Rattle.section.specs.Shape.{shape};
ghost use Rattle.section.specs.Inner.Reading.{Readable};
ghost use Rattle.listing.specs.Computed.Turns.{names_offsets, has_fixed, can_read, has_row, passed, ended, nothing_left, row_turn};

use numbers::field::width_of;
use section::row::{Row, count_of, info_at, offset_size_of, row_at, row_length};
use section::shape::{Abi, shape_of};

// Where a reader stands: how the rows are written, the place of the next one in the section, and how many are left.
#[derive(Clone, Copy)]
pub struct RowPlace {
    pub abi: Abi,
    pub code: usize,
    pub at: usize,
    pub left: u64,
}

// A turn: the row that it yields, if there is one more, and where the reader then stands.
#[derive(Clone, Copy)]
pub struct RowTurn {
    pub next: Option<Row>,
    pub place: RowPlace,
}

// Whether an info byte names a size of offsets, and at least one.
#[tactic(auto, unfolding(crate::specs::Computed::Turns::names_offsets))]
fn names_offsets(info: u8) -> bool
    ensures { result ≡ names_offsets info }
{
    offset_size_of(info) <= 2 && 1 <= count_of(info)
}

// Whether the fixed part of a row is inside, its start and its info byte. No sum passes 2^64: what is behind the place is compared.
#[tactic(auto, unfolding(crate::specs::Computed::Turns::has_fixed))]
fn has_fixed(section: &[u8], code: usize, at: usize) -> bool
    ensures { result ≡ has_fixed section.now code at }
{
    code <= 2 && at < section.len() && width_of(code) + 1 <= section.len() - at
}

// Whether a whole row stands at a place of the section.
#[tactic(auto, using(crate::proofs::TurnLaws::fixed_inside), unfolding(crate::specs::Computed::Turns::can_read))]
fn can_read(section: &[u8], code: usize, at: usize) -> bool
    ensures { result ≡ can_read section.now code at }
{
    has_fixed(section, code, at)
        && names_offsets(info_at(section, code, at))
        && row_length(section, code, at) <= section.len() - at
}

// Whether there is a row to yield.
#[tactic(auto, unfolding(crate::specs::Computed::Turns::has_row))]
fn has_row(section: &[u8], place: RowPlace) -> bool
    ensures { result ≡ has_row section.now place }
{
    1 <= place.left && can_read(section, place.code, place.at)
}

// The place past the row at a place.
#[tactic(auto, unfolding(crate::specs::Computed::Turns::passed))]
fn past_row(section: &[u8], place: RowPlace) -> RowPlace
    requires { has_row section.now place ≡ true }
    ensures { result ≡ passed section.now place }
{
    RowPlace {
        at: place.at + row_length(section, place.code, place.at),
        left: place.left - 1,
        ..place
    }
}

// The same place, with no row left.
#[tactic(auto, unfolding(crate::specs::Computed::Turns::ended))]
pub fn ended_at(place: RowPlace) -> RowPlace
    ensures { result ≡ ended place }
{
    RowPlace { left: 0, ..place }
}

// A place with no row left, of any section.
#[tactic(auto, unfolding(crate::specs::Computed::Turns::nothing_left))]
pub fn nowhere() -> RowPlace
    ensures { result ≡ nothing_left }
{
    RowPlace {
        abi: Abi::Amd64,
        code: 0,
        at: 0,
        left: 0,
    }
}

// The row at a place. The ABIs are told apart here, so that each way is compiled for its own shape.
fn decoded_at(section: &[u8], abi: Abi, code: usize, at: usize) -> Row
    requires { Readable section.now code at }
    ensures { result ≡ row_of section.now (shape abi) code at }
{
    match abi {
        Abi::Aarch64Big => row_at(section, shape_of(Abi::Aarch64Big), code, at),
        Abi::Aarch64Little => row_at(section, shape_of(Abi::Aarch64Little), code, at),
        Abi::Amd64 => row_at(section, shape_of(Abi::Amd64), code, at),
    }
}

// One turn, on any bytes and from any place.
#[tactic(auto, unfolding(crate::specs::Computed::Turns::row_turn))]
pub fn row_turn(section: &[u8], place: RowPlace) -> RowTurn
    ensures { result ≡ row_turn section.now place }
{
    if has_row(section, place) {
        return RowTurn {
            next: Some(decoded_at(section, place.abi, place.code, place.at)),
            place: past_row(section, place),
        };
    }
    RowTurn {
        next: None,
        place: ended_at(place),
    }
}
