// A section as lines, in section order: each function has one, and below it each of its rows has one. Any bytes and any cursor may
// be handed in.
ghost use Rattle.std.specs.Prelude.{◌≡◌, ◌≤◌, ◌<◌, ◌^◌, length};
ghost use Rattle.listing.specs.Computed.Lines.{line_at, stopped, cursor_over, has_entry, entry_turn, function_turn, line_turn, cursor_of, cursor_at};

use crate::function::{Facts, Kind, facts_at};
use crate::rows::{RowPlace, ended_at, nowhere, row_turn};
use accept::section_check::check;
use numbers::offset::Offset;
use section::header::{Layout, layout_at};
use section::row::Row;

// A function's line.
#[derive(Clone, Copy)]
pub struct FunctionLine {
    pub index: u64,
    pub start: Offset,
    pub size: u32,
    pub kind: Kind,
}

#[derive(Clone, Copy)]
pub enum Line {
    OfFunction(FunctionLine),
    OfRow(Row),
}

// Where a listing stands: the rows that are left of the function before, then so many functions from an index on.
#[derive(Clone, Copy)]
pub struct Cursor {
    pub index: u64,
    pub left: u32,
    pub rows: RowPlace,
}

// A turn: the line that it yields, if there is one more, and where the listing then stands.
#[derive(Clone, Copy)]
pub struct LineTurn {
    pub next: Option<Line>,
    pub cursor: Cursor,
}

// So many functions from an index on, none of whose lines has been yielded.
#[tactic(auto, unfolding(crate::specs::Computed::Lines::cursor_over))]
pub fn cursor_over(index: u64, left: u32) -> Cursor
    ensures { result ≡ cursor_over index left }
{
    Cursor {
        index,
        left,
        rows: nowhere(),
    }
}

// There are no more lines, for ever.
#[tactic(auto, unfolding(crate::specs::Computed::Lines::stopped))]
fn stopped_at(cursor: Cursor) -> LineTurn
    ensures { result ≡ stopped cursor }
{
    LineTurn {
        next: None,
        cursor: Cursor {
            left: 0,
            rows: ended_at(cursor.rows),
            ..cursor
        },
    }
}

// The line of a function, and its rows before the next one.
#[tactic(auto, unfolding(crate::specs::Computed::Lines::line_at, crate::specs::Computed::Lines::function_line))]
fn line_at(cursor: Cursor, facts: Facts) -> LineTurn
    requires { (0 < cursor.left) × (cursor.index < 2 ^ 32) }
    ensures { result ≡ line_at cursor facts }
{
    LineTurn {
        next: Some(Line::OfFunction(FunctionLine {
            index: cursor.index,
            start: facts.start,
            size: facts.size,
            kind: facts.kind,
        })),
        cursor: Cursor {
            index: cursor.index + 1,
            left: cursor.left - 1,
            rows: facts.rows,
        },
    }
}

// Whether an entry with this index lies in a section of so many bytes. Its place is then below 2^32.
#[tactic(auto, unfolding(crate::specs::Computed::Lines::has_entry))]
fn has_entry(layout: Layout, length: usize, i: u64) -> bool
    ensures { result ≡ has_entry layout length i }
{
    layout.area <= length as u64 && layout.area <= 0xffff_ffff && i < layout.functions as u64
}

// The next function's line, in a section with a whole header. The header is not checked again for each line.
#[tactic(auto, using(crate::proofs::LineLaws::entry_told, crate::proofs::FunctionLaws::entry_room), unfolding(crate::specs::Computed::Lines::entry_turn))]
fn entry_turn(section: &[u8], cursor: Cursor) -> LineTurn
    requires { (28 ≤ length section.now) × (0 < cursor.left) }
    ensures { result ≡ entry_turn section.now cursor }
{
    let layout = layout_at(section);
    if has_entry(layout, section.len(), cursor.index) {
        return line_at(cursor, facts_at(section, layout, cursor.index));
    }
    stopped_at(cursor)
}

// The next function's line.
#[tactic(auto, unfolding(crate::specs::Computed::Lines::function_turn))]
fn function_turn(section: &[u8], cursor: Cursor) -> LineTurn
    ensures { result ≡ function_turn section.now cursor }
{
    if 1 <= cursor.left && 28 <= section.len() {
        return entry_turn(section, cursor);
    }
    stopped_at(cursor)
}

// The next line: a row's where the function before has one left, else the next function's.
#[tactic(auto, unfolding(crate::specs::Computed::Lines::line_turn, crate::specs::Computed::Lines::line_by))]
pub fn next_line(section: &[u8], cursor: Cursor) -> LineTurn
    ensures { result ≡ line_turn section.now cursor }
{
    let turn = row_turn(section, cursor.rows);
    match turn.next {
        Some(row) => LineTurn {
            next: Some(Line::OfRow(row)),
            cursor: Cursor {
                rows: turn.place,
                ..cursor
            },
        },
        None => function_turn(section, cursor),
    }
}

// All of an accepted section; nothing of a refused one.
#[tactic(auto, using(crate::proofs::LineLaws::accepted_long), unfolding(crate::specs::Computed::Lines::cursor_of, crate::specs::Computed::Lines::cursor_by))]
pub fn cursor_of(section: &[u8]) -> Cursor
    ensures { result ≡ cursor_of section.now }
{
    match check(section) {
        Ok(()) => cursor_over(0, layout_at(section).functions),
        Err(_) => cursor_over(0, 0),
    }
}

// One function of an accepted section; nothing of a refused one, and nothing past its last function.
#[tactic(auto, unfolding(crate::specs::Computed::Lines::cursor_at, crate::specs::Computed::Lines::cursor_by))]
pub fn cursor_at(section: &[u8], index: u64) -> Cursor
    ensures { result ≡ cursor_at section.now index }
{
    match check(section) {
        Ok(()) => cursor_over(index, 1),
        Err(_) => cursor_over(0, 0),
    }
}
