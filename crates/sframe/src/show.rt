// Verdicts and the answers of a lookup as lines of text.
use crate::console::Console;
use crate::hints::hint_of_unlinked;
use crate::refusals::{Bounded, show_dispute, show_refused, show_refused_at, show_unsound};
use crate::say::say;
use crate::text::{Cfa, Count, Saved};
use accept::section_check::check;
use accept::verdict::Refusal;
use ask::answer::{AskFound, AskRefusal};
use lookup::answer::{Answer, Found, Unfound};
use section::header::{Layout, layout_at};
use section::row::{Place, Row};
use section::shape::Abi;

fn name_of(abi: Abi) -> &'static str {
    match abi {
        Abi::Aarch64Big => "AArch64 big-endian",
        Abi::Aarch64Little => "AArch64 little-endian",
        Abi::Amd64 => "AMD64",
    }
}

fn show_accepted(console: &Console, layout: Layout) {
    let abi = name_of(layout.abi);
    let functions = Count(layout.functions as u64, "function");
    let rows = Count(layout.rows as u64, "row");
    let order = if layout.sorted {
        "sorted"
    } else {
        "not sorted"
    };
    say(
        console,
        format_args!("accepted: {abi}, {functions}, {rows}, {order}\n"),
    );
}

// Whether a section is accepted, and what it holds.
#[tactic(auto, using(accept::proofs::AcceptedLaws::accepted_laws))]
pub fn show_verdict(console: &Console, section: &[u8]) {
    match check(section) {
        Ok(()) => show_accepted(console, layout_at(section)),
        Err(refusal) => show_unsound(console, refusal),
    }
}

// Which row was found, behind its function.
fn show_row_found(console: &Console, row: Row, number: u64) {
    let start = row.start;
    say(
        console,
        format_args!(", row {number}, which starts at {start}\n"),
    );
}

pub fn show_which(console: &Console, row: Row, function: u64, number: u64) {
    say(console, format_args!("found: function {function}"));
    show_row_found(console, row, number);
}

fn show_row(console: &Console, row: Row) {
    let cfa = Cfa(row);
    let ra = Saved(row.ra, "in LR");
    let signed = if row.signed { "\nRA is signed" } else { "" };
    say(console, format_args!("{cfa}\nRA is {ra}{signed}\n"));
    say(
        console,
        format_args!("FP is {}\n", Saved(row.fp, "unchanged")),
    );
}

fn show_found(console: &Console, section: &[u8], row: Row, function: u64, number: u64) {
    let function = Bounded { section, function };
    say(console, format_args!("found: function {function}"));
    show_row_found(console, row, number);
    show_row(console, row);
}

// The PC of a refusal, as it was understood.
fn show_looked_up(console: &Console, pc: u64) {
    say(console, format_args!("looked up: {pc:016x}\n"));
}

fn show_unfound(console: &Console, section: &[u8], pc: u64, unfound: Unfound) {
    match unfound {
        Unfound::NoFunction => show_refused(console, unfound),
        Unfound::Dispute { first, second } => show_dispute(console, section, first, second),
        Unfound::NoRow { function } => show_refused_at(console, section, unfound, function),
    }
    show_looked_up(console, pc);
    if let Unfound::Dispute { .. } = unfound {
        hint_of_unlinked(console, section);
    }
}

fn show_outcome(console: &Console, section: &[u8], pc: u64, outcome: Result<Found, Unfound>) {
    match outcome {
        Ok(found) => show_found(console, section, found.row, found.function, found.number),
        Err(unfound) => show_unfound(console, section, pc, unfound),
    }
}

fn show_compared(console: &Console, compared: u64) {
    say(console, format_args!("entries compared: {compared}\n"));
}

// In a section that is refused nothing was compared.
pub fn show_answer(console: &Console, section: &[u8], pc: u64, answer: Result<Answer, Refusal>) {
    match answer {
        Ok(answer) => {
            show_outcome(console, section, pc, answer.outcome);
            show_compared(console, answer.compared);
        }
        Err(refusal) => {
            show_unsound(console, refusal);
            show_compared(console, 0);
        }
    }
}

// A refusal by the header, where nothing was compared, or by what was landed on.
fn show_ask_refusal(console: &Console, section: &[u8], pc: u64, refusal: AskRefusal) {
    match refusal {
        AskRefusal::Unsound(_) | AskRefusal::Unsorted => {
            show_refused(console, refusal);
            show_compared(console, 0);
        }
        AskRefusal::NoFunction { compared } => {
            show_refused(console, refusal);
            show_looked_up(console, pc);
            show_compared(console, compared);
        }
        AskRefusal::NoRow { function, compared } | AskRefusal::Damaged { function, compared } => {
            show_refused_at(console, section, refusal, function);
            show_looked_up(console, pc);
            show_compared(console, compared);
        }
    }
}

// The answer of an asked address.
pub fn show_asked(
    console: &Console,
    section: &[u8],
    pc: u64,
    answer: Result<AskFound, AskRefusal>,
) {
    match answer {
        Ok(found) => {
            show_found(console, section, found.row, found.function, found.number);
            show_compared(console, found.compared);
        }
        Err(refusal) => show_ask_refusal(console, section, pc, refusal),
    }
}
