// Why a lookup gives its answer, as a line.
use crate::lines::Lines;
use crate::records::Record;
use accept::verdict::Refusal;
use explain::looked::explain_lookup;
use explain::why::{Covered, Coverers, FoundRow, NotFound};
use section::row::{Base, Place, Row};

// Where a row starts, if there is one.
fn show_start(lines: &mut Lines, name: &[u8], start: Option<u64>) {
    match start {
        Some(start) => lines.number(name, start),
        None => {
            lines.text(name);
            lines.text(b"none");
        }
    }
}

// The covered address nearest on one side, if there is one.
fn show_near(lines: &mut Lines, name: &[u8], near: Option<Covered>) {
    match near {
        Some(Covered { offset, function }) => {
            lines.offset(name, offset);
            lines.number(b" function ", function);
        }
        None => {
            lines.text(name);
            lines.text(b"none");
        }
    }
}

// Where a register is saved.
fn show_place(lines: &mut Lines, name: &[u8], place: Place) {
    lines.text(name);
    match place {
        Place::Register => lines.text(b"register"),
        Place::AtOffset(offset) => lines.offset(b"cfa", offset),
    }
}

// A row in numbers.
fn show_row(lines: &mut Lines, row: Row) {
    lines.number(b" start ", row.start as u64);
    match row.base {
        Base::Fp => lines.offset(b" cfa fp", row.cfa),
        Base::Sp => lines.offset(b" cfa sp", row.cfa),
    }
    show_place(lines, b" ra ", row.ra);
    show_place(lines, b" fp ", row.fp);
    lines.number(b" signed ", row.signed as u64);
}

// The row that was found, with the function and the offset that it was found by.
pub fn show_found(lines: &mut Lines, found: FoundRow) {
    lines.number(b"found function ", found.function);
    lines.number(b" offset ", found.offset);
    lines.number(b" row ", found.number);
    show_row(lines, found.row);
    show_start(lines, b" next ", found.next);
}

// How many functions cover, and the first 16 of them.
fn show_coverers(lines: &mut Lines, coverers: Coverers) {
    let count = coverers.count;
    lines.number(b"22 covering ", count);
    lines.text(b":");
    for index in coverers.indexes.iter().take(count as usize) {
        lines.number(b" ", *index);
    }
}

// 21 to 23.
pub fn show_not_found(lines: &mut Lines, why: NotFound, coverers: Coverers) {
    match why {
        NotFound::NoFunction { below, above } => {
            show_near(lines, b"21 below ", below);
            show_near(lines, b" above ", above);
        }
        NotFound::Dispute => show_coverers(lines, coverers),
        NotFound::NoRow {
            function,
            offset,
            first,
        } => {
            lines.number(b"23 function ", function);
            lines.number(b" offset ", offset);
            show_start(lines, b" first ", first);
        }
    }
}

// The rule that a section breaks, and the entry's index.
pub fn show_refusal(lines: &mut Lines, refusal: Refusal) {
    lines.number(b"refused ", refusal.rule.number());
    lines.number(b" at ", refusal.index);
}

pub fn show_lookup(lines: &mut Lines, record: Record<'_>) {
    let why = explain_lookup(record.section, record.process.section, record.registers.pc);
    lines.text(b"lookup ");
    match why {
        Err(refusal) => show_refusal(lines, refusal),
        Ok(why) => match why.looked {
            Ok(found) => show_found(lines, found),
            Err(missing) => show_not_found(lines, missing, why.coverers),
        },
    }
    lines.text(b"\n");
}
