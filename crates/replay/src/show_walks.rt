// Steps and traces as lines of text.
use crate::shown::{Broken, Words};
use crate::walks::Walk;
use caller::registers::{Registers, StepCause, StepRefusal};
use std::io::Write;
use std::{fmt, io};
use trace::answer::{Ending, TraceRefusal, Traced};

// Why there is no caller, by its number.
#[derive(Clone, Copy)]
struct Caused(StepCause);

impl fmt::Display for Caused {
    fn fmt<W: fmt::Write>(&self, f: &mut fmt::Formatter<W>) -> fmt::Result {
        match self.0 {
            StepCause::Unsound(refusal) => write!(f, "{}", Broken(refusal)),
            cause => write!(f, "{}", cause.number()),
        }
    }
}

// Why a trace ended, or there is none, by its number.
#[derive(Clone, Copy)]
struct Ended(Result<Traced, TraceRefusal>);

impl fmt::Display for Ended {
    fn fmt<W: fmt::Write>(&self, f: &mut fmt::Formatter<W>) -> fmt::Result {
        match self.0 {
            Ok(traced) => match traced.ending {
                Ending::Outermost => f.write_str("30"),
                Ending::Full => f.write_str("31"),
                Ending::Refused(cause) => write!(f, "{}", cause.number()),
            },
            Err(TraceRefusal::Shut(fault)) => write!(f, "{}", fault.number()),
            Err(TraceRefusal::Unsound(refusal)) => write!(f, "{}", Broken(refusal)),
        }
    }
}

// What is lent and asked. The mask is told where there is one.
pub fn show_walk(out: &mut impl Write, walk: Walk<'_>) -> io::Result<()> {
    let registers = Words(walk.registers);
    let section = walk.process.section;
    let stack = walk.process.stack;
    write!(
        out,
        "  from {registers} section {section:016x} stack {stack:016x}"
    )?;
    if walk.process.mask != 0 {
        write!(out, " mask {:016x}", walk.process.mask)?;
    }
    let bytes = walk.stack.len();
    let limit = walk.limit;
    let words = walk.words;
    writeln!(out, " bytes {bytes} limit {limit} words {words}")
}

pub fn show_step(out: &mut impl Write, step: Result<Registers, StepRefusal>) -> io::Result<()> {
    match step {
        Ok(caller) => writeln!(out, "    caller {}", Words(caller)),
        Err(refusal) => {
            let cause = Caused(refusal.cause);
            let old = Words(refusal.old);
            writeln!(out, "    refused {cause} {old}")
        }
    }
}

// A trace, how many words behind its frames hold what they held, and the frames, three words in a line.
pub fn show_traced(
    out: &mut impl Write,
    traced: Result<Traced, TraceRefusal>,
    frames: u64,
    kept: usize,
    words: &[u64],
) -> io::Result<()> {
    let ending = Ended(traced);
    writeln!(out, "    trace {frames} frames ending {ending} kept {kept}")?;
    let (lines, _) = words.as_chunks::<3>();
    for line in lines {
        let [cfa, ra, fp] = *line;
        writeln!(out, "      {cfa:016x} {ra:016x} {fp:016x}")?;
    }
    Ok(())
}
