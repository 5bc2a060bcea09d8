// Rows one at a time as the flat structs that C sees: where a reader stands, and one turn of it. Fields without meaning in a case are 0.
ghost use Rattle.std.specs.Prelude.{◌≡◌};
ghost use Rattle.section.specs.Shape.{abi_of};
ghost use Rattle.suntimpani.specs.FlatRows.{abi_number, flat_place, flat_next, flat_turn};
ghost use Rattle.suntimpani.specs.Read.{read_rows};

use crate::flat::{base_number, empty_row, flag_of, place_kind, place_offset};
use listing::rows::{RowPlace, RowTurn};
use section::row::Row;
use section::shape::Abi;

// Where a reader stands: the header's code of the ABI, the type of the rows, the place of the next one in the section, and how many are
// left.
#[repr(C)]
#[derive(Clone, Copy)]
pub struct RowsInC {
    pub abi: u64,
    pub code: u64,
    pub at: u64,
    pub left: u64,
}

// A turn: more is 1 where there is a row, which stands as in a lookup's answer. The rest is where the reader then stands.
#[repr(C)]
#[derive(Clone, Copy)]
pub struct RowInC {
    pub more: u64,
    pub start: u64,
    pub base: u64,
    pub cfa: i64,
    pub raplace: u64,
    pub ra: i64,
    pub fpplace: u64,
    pub fp: i64,
    pub signedra: u64,
    pub rest: RowsInC,
}

#[tactic(auto, unfolding(crate::specs::FlatRows::abi_number))]
fn abi_number(abi: Abi) -> u64
    ensures { result ≡ abi_number abi }
{
    match abi {
        Abi::Aarch64Big => 1,
        Abi::Aarch64Little => 2,
        Abi::Amd64 => 3,
    }
}

// Any number names an ABI, since any may be handed in: a place that was handed out has one of the three.
#[tactic(auto, unfolding(section::specs::Shape::abi_of))]
fn abi_named(number: u64) -> Abi
    ensures { result ≡ abi_of number }
{
    match number {
        1 => Abi::Aarch64Big,
        2 => Abi::Aarch64Little,
        _ => Abi::Amd64,
    }
}

#[tactic(auto, unfolding(crate::specs::FlatRows::flat_place))]
pub fn flat_place(place: RowPlace) -> RowsInC
    ensures { result ≡ flat_place place }
{
    RowsInC {
        abi: abi_number(place.abi),
        code: place.code as u64,
        at: place.at as u64,
        left: place.left,
    }
}

// The place that is handed in, whatever its numbers.
#[tactic(auto, unfolding(crate::specs::Read::read_rows))]
pub fn place_read(rows: RowsInC) -> RowPlace
    ensures { result ≡ read_rows rows }
{
    RowPlace {
        abi: abi_named(rows.abi),
        code: rows.code as usize,
        at: rows.at as usize,
        left: rows.left,
    }
}

#[tactic(auto, unfolding(crate::specs::FlatRows::flat_next))]
fn flat_next(more: u64, row: Row, place: RowPlace) -> RowInC
    ensures { result ≡ flat_next more row place }
{
    RowInC {
        more,
        start: row.start as u64,
        base: base_number(row.base),
        cfa: row.cfa.by,
        raplace: place_kind(row.ra),
        ra: place_offset(row.ra).by,
        fpplace: place_kind(row.fp),
        fp: place_offset(row.fp).by,
        signedra: flag_of(row.signed),
        rest: flat_place(place),
    }
}

#[tactic(auto, unfolding(crate::specs::FlatRows::flat_turn, crate::specs::FlatRows::flat_yield))]
pub fn flat_turn(turn: RowTurn) -> RowInC
    ensures { result ≡ flat_turn turn }
{
    match turn.next {
        Some(row) => flat_next(1, row, turn.place),
        None => flat_next(0, empty_row(), turn.place),
    }
}
