// The row of one function: the last that starts at or below the offset of a PC in it. The rows before it are passed by their
// lengths, and it alone is decoded.
ghost use Rattle.std.specs.Prelude.{◌≡◌, ℕ, ◌+◌, ◌^◌, ◌≤◌, ◌<◌, length};
ghost use Rattle.section.specs.Meaning.{listed, row_in};
ghost use Rattle.section.specs.Row.{info_of, row_place};
ghost use Rattle.section.specs.Inner.Reading.{Readable};
ghost use Rattle.accept.specs.Computed.Checks.{entry_fault};
ghost use Rattle.accept.specs.Fault.{Sound};
ghost use Rattle.lookup.specs.Computed.Rows.{last_row};
ghost use Rattle.lookup.specs.Inner.Search.{starts_by, told_by, stop_of};

use numbers::field::{Order, width_of};
use section::entry::{Entry, type_of};
use section::row::{Row, info_at, row_at, row_length, row_start_at};
use section::shape::Shape;

// The last row at or below, with its number in the function.
#[derive(Clone, Copy)]
pub struct Hit {
    pub row: Row,
    pub number: u32,
}

// How many rows, from the first on, start at or below, and where the last of them stands.
#[derive(Clone, Copy)]
pub struct Stop {
    pub rows: u32,
    pub place: usize,
}

// An info byte, and the length of every row that has it.
#[derive(Clone, Copy)]
pub struct Told {
    pub info: u8,
    pub length: usize,
}

// Whether the row at `at` starts at or below o.
#[tactic(auto, unfolding(crate::specs::Inner::Search::starts_by, section::specs::Row::row_start))]
fn starts_by(area: &[u8], order: Order, code: usize, at: usize, o: u64) -> bool
    requires { (code ≤ 2) × (at + 2 ^ code ≤ length area.now) }
    ensures { result ≡ starts_by area.now order code o at }
{
    row_start_at(area, order, code, at) <= o
}

// What an info byte that announces no offsets tells.
#[tactic(auto, unfolding(crate::specs::Inner::Search::told_by, section::specs::Row::offsets_length, section::specs::Row::count_of, section::specs::Row::offset_size_of))]
fn no_offsets(code: usize) -> Told
    requires { code ≤ 2 }
    ensures { result ≡ told_by code 0 }
{
    Told {
        info: 0,
        length: width_of(code) + 1,
    }
}

// What the info byte of the row at `at` tells. Where it is the one that is known, its length is not worked out again: the place of
// the row behind then does not wait for this row's byte, since the processor guesses that it is the same.
#[tactic(auto, unfolding(crate::specs::Inner::Search::told_by, section::specs::Row::row_length))]
fn told_at(area: &[u8], code: usize, at: usize, known: Told) -> Told
    requires { (code ≤ 2) × (at + 2 ^ code + 1 ≤ length area.now) × (known ≡ told_by code known.info) }
    ensures { result ≡ told_by code (info_of area.now code at) }
{
    let info = info_at(area, code, at);
    if info == known.info {
        return known;
    }
    Told {
        info,
        length: row_length(area, code, at),
    }
}

// Passes the rows that start at or below o. Of each its start and its info byte are read, and of the row it stops at the start.
fn pass_rows(area: &[u8], order: Order, code: usize, first: usize, count: u32, o: u64) -> Stop
    requires { ((k : ℕ) → k < count → Readable area.now code (row_place area.now code first k)) × (code ≤ 2) }
    ensures { result ≡ stop_of area.now order code first count o }
{
    let mut place = first;
    let mut at = first;
    let mut told = no_offsets(code);
    for k in 0..count {
        if !starts_by(area, order, code, at, o) {
            return Stop { rows: k, place };
        }
        told = told_at(area, code, at, told);
        place = at;
        at += told.length;
    }
    Stop { rows: count, place }
}

// The rows by their type, told apart outside the loop, so that each loop is compiled for its own width of start.
fn stop_at(area: &[u8], order: Order, code: usize, first: usize, count: u32, o: u64) -> Stop
    requires { ((k : ℕ) → k < count → Readable area.now code (row_place area.now code first k)) × (code ≤ 2) }
    ensures { result ≡ stop_of area.now order code first count o }
{
    match code {
        0 => pass_rows(area, order, 0, first, count, o),
        1 => pass_rows(area, order, 1, first, count, o),
        _ => pass_rows(area, order, 2, first, count, o),
    }
}

// The last row of an entry that starts at or below o, if one does.
pub fn scan_rows(area: &[u8], shape: Shape, entry: Entry, o: u64) -> Option<Hit>
    requires { entry_fault area.now shape entry ≡ Sound }
    ensures { result ≡ last_row o 0 (listed (row_in area.now shape entry) entry.rows 0) }
{
    let order = shape.order;
    let code = type_of(entry.info);
    let stop = stop_at(area, order, code, entry.first as usize, entry.rows, o);
    if stop.rows == 0 {
        return None;
    }
    Some(Hit {
        row: row_at(area, shape, code, stop.place),
        number: stop.rows - 1,
    })
}
