// Why a lookup gives its answer: the answer, and below it sentences that can be checked by hand, each with its rule.
use crate::console::Console;
use crate::hints::hint_of_unlinked;
use crate::refusals::{show_refused, show_refused_in, show_unsound};
use crate::say::say;
use crate::show::show_which;
use crate::text::{Cfa, Count, Distance, Saved};
use accept::verdict::Refusal;
use explain::looked::explain_lookup;
use explain::why::{Covered, Coverers, FoundRow, NotFound};
use listing::function::{Kind, function_at};
use numbers::offset::{Shift, shift_of};
use section::row::Row;
use std::fmt;

// 1 to 15. The rule of number N is 3.N.
pub fn show_unsound_why(console: &Console, refusal: Refusal) {
    let number = refusal.rule.number();
    show_unsound(console, refusal);
    say(
        console,
        format_args!(
            "  no rule that is tried before this one is broken (SPECIFICATION 3.{number}, 3.16)\n"
        ),
    );
}

fn distance_of(address: u64, pc: u64) -> Distance {
    if pc < address {
        return Distance(Shift::Down(address - pc));
    }
    Distance(Shift::Up(pc - address))
}

// Where the PC that is looked up lies in the section; `called` is what the sentence calls it.
pub fn show_distance(console: &Console, called: &str, address: u64, pc: u64) {
    let distance = distance_of(address, pc);
    say(
        console,
        format_args!("  {called} is {distance} from the section's first byte\n"),
    );
}

// What the offset used counts from.
#[derive(Clone, Copy)]
struct Origin(Kind);

impl fmt::Display for Origin {
    fn fmt<W: fmt::Write>(&self, f: &mut fmt::Formatter<W>) -> fmt::Result {
        match self.0 {
            Kind::Plain => f.write_str("the function's start"),
            Kind::Repeated(size) => {
                write!(
                    f,
                    "the start of its block of {}",
                    Count(size as u64, "byte")
                )
            }
        }
    }
}

// The one function that covers, and the offset used in it. An explanation names no function that is not there.
fn show_function(console: &Console, section: &[u8], function: u64, offset: u64) {
    let Ok(facts) = function_at(section, function) else {
        return;
    };
    let start = Distance(shift_of(facts.start));
    let size = Count(facts.size as u64, "byte");
    let origin = Origin(facts.kind);
    say(
        console,
        format_args!(
            "  function {function} covers that, and no other does: it starts at {start} and has {size} (SPECIFICATION 4.1)\n"
        ),
    );
    say(
        console,
        format_args!("  the offset used is {offset}, from {origin} (SPECIFICATION 4.5)\n"),
    );
}

// Where the row behind the one used starts, if there is one.
#[derive(Clone, Copy)]
struct Next(Option<u64>);

impl fmt::Display for Next {
    fn fmt<W: fmt::Write>(&self, f: &mut fmt::Formatter<W>) -> fmt::Result {
        match self.0 {
            Some(start) => write!(f, "the next row starts at {start}, above it"),
            None => f.write_str("there is no next row"),
        }
    }
}

fn show_row_used(console: &Console, number: u64, start: u32, next: Next) {
    say(
        console,
        format_args!(
            "  row {number} starts at {start}, not above the offset used, and {next} (SPECIFICATION 4.7)\n"
        ),
    );
}

fn show_by_row(console: &Console, row: Row) {
    let cfa = Cfa(row);
    let ra = Saved(row.ra, "in LR");
    let fp = Saved(row.fp, "unchanged");
    let signed = if row.signed { " and signed" } else { "" };
    say(
        console,
        format_args!("  by that row, {cfa}, RA is {ra}{signed}, FP is {fp} (SPECIFICATION 2.9)\n"),
    );
}

// The sentences of a row that is found, behind its place.
pub fn show_found_why(console: &Console, section: &[u8], found: FoundRow) {
    let row = found.row;
    let next = Next(found.next);
    show_function(console, section, found.function, found.offset);
    show_row_used(console, found.number, row.start, next);
    show_by_row(console, row);
}

// The covered address nearest on one side, if there is one.
fn show_near(console: &Console, side: &str, near: Option<Covered>) {
    match near {
        Some(Covered { offset, function }) => {
            let place = Distance(shift_of(offset));
            say(
                console,
                format_args!(
                    "  the nearest address {side} that a function covers is {place}, by function {function}\n"
                ),
            );
        }
        None => {
            say(
                console,
                format_args!("  no function covers an address {side}\n"),
            );
        }
    }
}

// 21, with what is not covered, by whether an address is covered on each side. In a step PC itself may be: the PC looked up is not.
fn show_no_function(console: &Console, below: Option<Covered>, above: Option<Covered>) {
    show_near(console, "below", below);
    show_near(console, "above", above);
    let uncovered = match (below, above) {
        (Some(_), Some(_)) => "nothing between is covered, the PC looked up included",
        (None, None) => "nothing is covered",
        _ => "nothing up to it is covered, the PC looked up included",
    };
    say(
        console,
        format_args!("  {uncovered} (SPECIFICATION 4.1, 4.3)\n"),
    );
}

// The first functions that cover, separated by commas; of many, 16 are told.
fn say_coverers(console: &Console, coverers: Coverers) {
    if 16 < coverers.count {
        say(console, ", the first 16 are");
    }
    for (i, index) in coverers
        .indexes
        .iter()
        .take(coverers.count as usize)
        .enumerate()
    {
        let mark = if i == 0 { ":" } else { "," };
        say(console, format_args!("{mark} {index}"));
    }
}

// 22.
fn show_dispute_why(console: &Console, coverers: Coverers) {
    let count = coverers.count;
    say(console, format_args!("  {count} functions cover that"));
    say_coverers(console, coverers);
    say(console, " (SPECIFICATION 4.1, 4.4)\n");
}

// 23.
fn show_first(console: &Console, first: Option<u64>) {
    match first {
        Some(start) => say(
            console,
            format_args!(
                "  its first row starts at {start}, above the offset used (SPECIFICATION 4.6)\n"
            ),
        ),
        None => say(console, "  it has no rows (SPECIFICATION 4.6)\n"),
    }
}

// 21 to 23, without the sentences.
pub fn show_not_found(console: &Console, why: NotFound) {
    match why {
        NotFound::NoRow { function, .. } => show_refused_in(console, why, function),
        _ => show_refused(console, why),
    }
}

// The sentences of 21 to 23, behind the place.
pub fn show_not_found_why(console: &Console, section: &[u8], why: NotFound, coverers: Coverers) {
    match why {
        NotFound::NoFunction { below, above } => show_no_function(console, below, above),
        NotFound::Dispute => {
            show_dispute_why(console, coverers);
            hint_of_unlinked(console, section);
        }
        NotFound::NoRow {
            function,
            offset,
            first,
        } => {
            show_function(console, section, function, offset);
            show_first(console, first);
        }
    }
}

pub fn show_lookup_why(console: &Console, section: &[u8], address: u64, pc: u64) {
    let why = match explain_lookup(section, address, pc) {
        Ok(why) => why,
        Err(refusal) => return show_unsound_why(console, refusal),
    };
    match why.looked {
        Ok(found) => {
            show_which(console, found.row, found.function, found.number);
            show_distance(console, "PC", address, pc);
            show_found_why(console, section, found);
        }
        Err(missing) => {
            show_not_found(console, missing);
            show_distance(console, "PC", address, pc);
            show_not_found_why(console, section, missing, why.coverers);
        }
    }
}
