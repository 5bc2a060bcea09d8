// Verdicts and answers as lines of text.
use crate::shown::{Broken, Shown};
use accept::verdict::Refusal;
use ask::answer::{AskFound, AskRefusal};
use lookup::answer::{Answer, Found, Unfound};
use section::row::Row;
use std::io;
use std::io::Write;

pub fn show_verdict(out: &mut impl Write, verdict: Result<(), Refusal>) -> io::Result<()> {
    match verdict {
        Ok(()) => writeln!(out, " accepted"),
        Err(refusal) => writeln!(out, " refused {}", Broken(refusal)),
    }
}

fn show_found(out: &mut impl Write, row: Row, function: u64, number: u64) -> io::Result<()> {
    write!(
        out,
        " found function {function} row {number} {}",
        Shown(row)
    )
}

// 21 to 23.
fn show_unfound(out: &mut impl Write, unfound: Unfound) -> io::Result<()> {
    match unfound {
        Unfound::NoFunction => write!(out, " refused 21"),
        Unfound::Dispute { first, second } => write!(out, " refused 22 at {first} and {second}"),
        Unfound::NoRow { function } => write!(out, " refused 23 at {function}"),
    }
}

fn show_outcome(out: &mut impl Write, outcome: Result<Found, Unfound>) -> io::Result<()> {
    match outcome {
        Ok(found) => show_found(out, found.row, found.function, found.number),
        Err(unfound) => show_unfound(out, unfound),
    }
}

// Nothing is compared in a section that is refused.
pub fn show_answer(out: &mut impl Write, answer: Result<Answer, Refusal>) -> io::Result<()> {
    let compared = match answer {
        Ok(answer) => {
            show_outcome(out, answer.outcome)?;
            answer.compared
        }
        Err(refusal) => {
            write!(out, " refused {}", Broken(refusal))?;
            0
        }
    };
    writeln!(out, " compared {compared}")
}

// How many entries were compared before a refusal.
fn show_ask_refusal(out: &mut impl Write, refusal: AskRefusal) -> io::Result<u64> {
    match refusal {
        AskRefusal::Unsound(rule) => {
            write!(out, " refused {}", rule.number())?;
            Ok(0)
        }
        AskRefusal::Unsorted => {
            write!(out, " refused 45")?;
            Ok(0)
        }
        AskRefusal::NoFunction { compared } => {
            show_unfound(out, Unfound::NoFunction)?;
            Ok(compared)
        }
        AskRefusal::NoRow { function, compared } => {
            show_unfound(out, Unfound::NoRow { function })?;
            Ok(compared)
        }
        AskRefusal::Damaged { function, compared } => {
            write!(out, " refused 44 at {function}")?;
            Ok(compared)
        }
    }
}

// The answer to a question that was asked as one address of a section that is not checked whole.
pub fn show_asked(out: &mut impl Write, answer: Result<AskFound, AskRefusal>) -> io::Result<()> {
    let compared = match answer {
        Ok(found) => {
            show_found(out, found.row, found.function, found.number)?;
            found.compared
        }
        Err(refusal) => show_ask_refusal(out, refusal)?,
    };
    writeln!(out, " compared {compared}")
}

pub fn show_question(out: &mut impl Write, address: u64, pc: u64) -> io::Result<()> {
    write!(out, "  {address:016x} {pc:016x}")
}
