// The listing of a section: a line for each function, and below it one for each of its rows. The columns are fixed, so that a script
// can cut them.
use crate::arguments::count_given;
use crate::console::Console;
use crate::line::Line;
use crate::say::{complain, note, say};
use crate::status::{argument_count, tell_refused};
use accept::section_check::check;
use accept::verdict::Refusal;
use listing::function::Kind;
use listing::lines::{Cursor, FunctionLine, LineTurn, cursor_over, next_line};
use section::header::{Layout, layout_at};
use section::row::{Base, Place, Row};
use section::shape::Abi;
use std::rt::Env;

// The size of a repeated block, where there is one. The answer is where the line ends.
fn put_kind(line: &mut Line, kind: Kind) -> usize {
    match kind {
        Kind::Plain => 51,
        Kind::Repeated(size) => {
            line.put(53, b"block");
            line.put_number(62, size as u64);
            62
        }
    }
}

fn show_function(console: &Console, function: FunctionLine) {
    let mut line = Line::blank();
    line.put(0, b"function");
    line.put_number(15, function.index);
    line.put(17, b"start");
    line.put_start(function.start);
    line.put(36, b"size");
    line.put_number(51, function.size as u64);
    let end = put_kind(&mut line, function.kind);
    line.say(console, end);
}

// The offset of a saved register, behind its name; nothing where it is in its register. The answer is where the line ends, which it
// does at `end` before.
fn put_place(line: &mut Line, end: usize, column: u8, name: &[u8], place: Place) -> usize {
    match place {
        Place::Register => end,
        Place::AtOffset(offset) => {
            let first = column as usize;
            line.put(first, name);
            line.put_offset(first + 14, offset);
            first + 14
        }
    }
}

// RA, FP, and whether RA is signed: AMD64 has only FP here, in the columns of RA. No blanks stand at the line's end.
fn put_saved(line: &mut Line, abi: Abi, row: Row) -> usize {
    match abi {
        Abi::Amd64 => put_place(line, 37, 39, b"FP", row.fp),
        Abi::Aarch64Big | Abi::Aarch64Little => {
            let end = put_place(line, 37, 39, b"RA", row.ra);
            let end = put_place(line, end, 55, b"FP", row.fp);
            if row.signed {
                line.put(71, b"signed");
                return 77;
            }
            end
        }
    }
}

fn show_row(console: &Console, abi: Abi, row: Row) {
    let mut line = Line::blank();
    line.put(2, b"row");
    line.put_number(16, row.start as u64);
    match row.base {
        Base::Fp => line.put(18, b"FP"),
        Base::Sp => line.put(18, b"SP"),
    }
    line.put(22, b"CFA");
    line.put_offset(37, row.cfa);
    let end = put_saved(&mut line, abi, row);
    line.say(console, end);
}

fn show_line(console: &Console, abi: Abi, line: listing::lines::Line) {
    match line {
        listing::lines::Line::OfFunction(function) => show_function(console, function),
        listing::lines::Line::OfRow(row) => show_row(console, abi, row),
    }
}

#[tactic(auto, using(listing::proofs::LinesLeft::yield_line))]
fn show_lines(console: &Console, section: &[u8], abi: Abi, from: Cursor) {
    let mut cursor = from;
    while let LineTurn {
        next: Some(line),
        cursor: rest,
    } = next_line(section, cursor)
    {
        show_line(console, abi, line);
        cursor = rest;
    }
}

fn show_refusal(console: &Console, refusal: Refusal) {
    let number = refusal.rule.number();
    let index = refusal.index;
    tell_refused(console);
    say(console, format_args!("{number} {index}\n"));
    note(
        console,
        "sframe: the section is refused; 'sframe check' says why\n",
    );
}

fn complain_of_index(console: &Console, index: u64, functions: u64) {
    complain(
        console,
        format_args!("sframe: there is no function {index}: the section has {functions}\n"),
    );
}

// All of a section, or one function of it.
fn show_accepted(console: &Console, section: &[u8], layout: Layout, index: Option<u64>) {
    let abi = layout.abi;
    let functions = layout.functions;
    match index {
        None => show_lines(console, section, abi, cursor_over(0, functions)),
        Some(index) if index < functions as u64 => {
            show_lines(console, section, abi, cursor_over(index, 1))
        }
        Some(index) => complain_of_index(console, index, functions as u64),
    }
}

#[tactic(auto, using(accept::proofs::AcceptedLaws::accepted_laws))]
fn show_listing(console: &Console, section: &[u8], index: Option<u64>) {
    match check(section) {
        Err(refusal) => show_refusal(console, refusal),
        Ok(()) => show_accepted(console, section, layout_at(section), index),
    }
}

// FILE alone, or FILE and INDEX.
pub fn answer_list(rt: &impl Env, console: &Console, section: &[u8]) {
    if argument_count(rt) < 4 {
        show_listing(console, section, None);
    } else if let Some(index) = count_given(rt, console, 3, "INDEX") {
        show_listing(console, section, Some(index));
    }
}
