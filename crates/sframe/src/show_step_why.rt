// Why a step gives its answer: the answer, and below it sentences that can be checked by hand, each with its rule.
use crate::console::Console;
use crate::refusals::show_refused;
use crate::say::say;
use crate::show_walks::show_caller;
use crate::show_why::{
    show_distance, show_found_why, show_not_found, show_not_found_why, show_unsound_why,
};
use crate::text::{Count, Moved, Named};
use caller::place::Needed;
use caller::registers::{FrameCause, Process, Registers, StepCause};
use explain::stepped::explain_step;
use explain::sums::{Sum, sum_of};
use explain::why::{RowReason, StepReason};
use numbers::offset::Offset;
use section::row::{Place, Row};
use std::fmt;

// 41. The end of the window is above 2^64, which is no u64: what is told is by how much.
fn show_window_why(console: &Console, stack: u64, length: u64) {
    let excess = length.saturating_sub(u64::MAX - stack).saturating_sub(1);
    show_refused(console, StepCause::Window);
    say(
        console,
        format_args!(
            "  the window's address is {stack:016x} and its length {length}: their sum is {excess} above 2^64 (SPECIFICATION 5.3)\n"
        ),
    );
}

// 21 of PC 0 without the mark.
fn show_nothing_asked(console: &Console) {
    show_refused(console, FrameCause::NoFunction);
    say(
        console,
        "  nothing is looked up, since PC is 0 and there is no first-frame mark (SPECIFICATION 5.13)\n",
    );
}

// The PC looked up, by the mark, and where it lies.
fn show_looked_up(console: &Console, address: u64, first: u64, pc: u64) {
    let which = if first == 0 {
        "PC - 1, since there is no first-frame mark"
    } else {
        "PC itself, by the first-frame mark"
    };
    say(
        console,
        format_args!("  PC looked up: {pc:016x}, which is {which} (SPECIFICATION 5.13)\n"),
    );
    show_distance(console, "the PC looked up", address, pc);
}

// An exact sum: an address, or by how much it is none.
#[derive(Clone, Copy)]
struct Summed(Sum);

impl fmt::Display for Summed {
    fn fmt<W: fmt::Write>(&self, f: &mut fmt::Formatter<W>) -> fmt::Result {
        match self.0 {
            Sum::At(address) => write!(f, "{address:016x}"),
            Sum::Below(by) => write!(f, "{by} below 0"),
            Sum::Above(by) => write!(f, "{by} above 2^64 - 1"),
        }
    }
}

// 25. CFA counts from the row's base, which holds this value.
fn show_cfa_outside(console: &Console, row: Row, value: u64, offset: Offset) {
    let base = Named(row.base);
    let sum = Summed(sum_of(value, offset));
    let offset = Moved(offset);
    say(
        console,
        format_args!(
            "  {base} is {value:016x} and the offset is{offset}: their sum is {sum} (SPECIFICATION 5.6)\n"
        ),
    );
}

// 26. Where the two are equal there is no mark; below, the mark does not count, and is told as it is.
fn show_cfa_low(console: &Console, callersp: u64, sp: u64, first: u64) {
    say(
        console,
        format_args!("  the caller's SP would be {callersp:016x}, "),
    );
    if callersp < sp {
        say(
            console,
            format_args!("below SP, which is {sp:016x}; the first-frame mark is {first:016x}"),
        );
    } else {
        say(console, "which SP is, and there is no first-frame mark");
    }
    say(console, " (SPECIFICATION 5.7)\n");
}

// Where the window ends: 2^64 is no word.
#[derive(Clone, Copy)]
struct End {
    stack: u64,
    length: u64,
}

impl fmt::Display for End {
    fn fmt<W: fmt::Write>(&self, f: &mut fmt::Formatter<W>) -> fmt::Result {
        match self.stack.checked_add(self.length) {
            Some(end) => write!(f, "{end:016x}"),
            None => f.write_str("2^64"),
        }
    }
}

fn show_window(console: &Console, stack: u64, length: u64) {
    let end = End { stack, length };
    let bytes = Count(length, "byte");
    say(
        console,
        format_args!(
            "  the stack window begins at {stack:016x} and has {bytes}, so that it ends at {end} (SPECIFICATION 5.10)\n"
        ),
    );
}

fn name_of(word: Needed) -> &'static str {
    match word {
        Needed::Ra => "RA",
        Needed::Fp => "FP",
    }
}

// 28: where the word would be.
fn show_needed(console: &Console, word: Needed, cfa: u64, offset: Offset) {
    let name = name_of(word);
    let sum = Summed(sum_of(cfa, offset));
    let offset = Moved(offset);
    say(
        console,
        format_args!(
            "  the word of {name} is at CFA{offset}: CFA is {cfa:016x}, and the sum {sum} (SPECIFICATION 5.10)\n"
        ),
    );
}

// Where a value came from: a word of the stack, or its register.
#[derive(Clone, Copy)]
struct Source {
    place: Place,
    cfa: u64,
    register: &'static str,
}

impl fmt::Display for Source {
    fn fmt<W: fmt::Write>(&self, f: &mut fmt::Formatter<W>) -> fmt::Result {
        match self.place {
            Place::Register => f.write_str(self.register),
            Place::AtOffset(offset) => {
                write!(f, "the word at {}", Summed(sum_of(self.cfa, offset)))
            }
        }
    }
}

// CFA, RA, and the bits that are cleared from it where the row is signed; then FP.
fn show_caller_why(console: &Console, row: Row, mask: u64, caller: Registers, cfa: u64, ra: u64) {
    let Registers { pc, fp, .. } = caller;
    let register = "LR";
    let ra_from = Source {
        place: row.ra,
        cfa,
        register,
    };
    let register = "unchanged";
    let fp_from = Source {
        place: row.fp,
        cfa,
        register,
    };
    say(
        console,
        format_args!("  CFA is {cfa:016x} (SPECIFICATION 5.6)\n"),
    );
    say(
        console,
        format_args!("  RA is {ra_from}: {ra:016x} (SPECIFICATION 5.8)\n"),
    );
    if row.signed {
        say(
            console,
            format_args!(
                "  the bits of the mask {mask:016x} are cleared from it: {pc:016x} (SPECIFICATION 5.14)\n"
            ),
        );
    }
    say(
        console,
        format_args!("  FP is {fp_from}: {fp:016x} (SPECIFICATION 5.9)\n"),
    );
}

// What a row comes to, without the sentences.
fn show_reason(console: &Console, reason: RowReason) {
    match reason {
        RowReason::Caller { caller, .. } => show_caller(console, caller),
        RowReason::Signed { .. } => show_refused(console, FrameCause::Signed),
        RowReason::CfaOutside { .. } => show_refused(console, FrameCause::CfaOutside),
        RowReason::CfaLow { .. } => show_refused(console, FrameCause::CfaLow),
        RowReason::RaLost { .. } => show_refused(console, FrameCause::RaLost),
        RowReason::WordOutside { .. } => show_refused(console, FrameCause::WordOutside),
    }
}

// The sentences of what a row comes to, behind those of the row.
fn show_reason_why(console: &Console, row: Row, mask: u64, reason: RowReason) {
    match reason {
        RowReason::Caller { caller, cfa, ra } => show_caller_why(
            console, row, mask, caller, cfa, ra,
        ),
        RowReason::Signed { .. } => say(
            console,
            "  the row is signed and the mask is 0 (SPECIFICATION 5.5)\n",
        ),
        RowReason::CfaOutside { base, offset } => show_cfa_outside(console, row, base, offset),
        RowReason::CfaLow {
            callersp,
            sp,
            first,
        } => show_cfa_low(console, callersp, sp, first),
        RowReason::RaLost { .. } => say(
            console,
            "  the row leaves RA in LR, and there is no first-frame mark (SPECIFICATION 5.8)\n",
        ),
        RowReason::WordOutside {
            word,
            cfa,
            offset,
            stack,
            length,
        } => {
            show_needed(console, word, cfa, offset);
            show_window(console, stack, length);
        }
    }
}

pub fn show_step_why(
    console: &Console,
    section: &[u8],
    stack: &[u8],
    process: Process,
    registers: Registers,
) {
    let why = explain_step(section, stack, process, registers);
    let coverers = why.coverers;
    let address = process.section;
    let first = registers.first;
    match why.reason {
        StepReason::Window { stack, length } => show_window_why(console, stack, length),
        StepReason::Unsound(refusal) => show_unsound_why(console, refusal),
        StepReason::NothingAsked => show_nothing_asked(console),
        StepReason::NotFound { pc, why } => {
            show_not_found(console, why);
            show_looked_up(console, address, first, pc);
            show_not_found_why(console, section, why, coverers);
        }
        StepReason::FromRow { found, reason, pc } => {
            show_reason(console, reason);
            show_looked_up(console, address, first, pc);
            show_found_why(console, section, found);
            show_reason_why(console, found.row, process.mask, reason);
        }
    }
}
