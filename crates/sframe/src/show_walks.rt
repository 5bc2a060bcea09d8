// Callers and traces as lines of text.
use crate::console::Console;
use crate::hints::hint_of_unlinked;
use crate::refusals::{show_ended, show_refused, show_unsound};
use crate::say::say;
use crate::status::tell_refused;
use caller::registers::{FrameCause, Registers, StepCause, StepRefusal, asked_of};
use trace::answer::{Ending, TraceRefusal, Traced};
use trace::walk::in_force;

pub fn show_caller(console: &Console, caller: Registers) {
    let Registers { pc, sp, fp, lr, .. } = caller;
    say(
        console,
        format_args!("caller:\nPC  {pc:016x}\nSP  {sp:016x}\nFP  {fp:016x}\nLR  {lr:016x}\n"),
    );
}

// With 21, 22 and 23 the PC that a step from these registers looked up: without the mark it stands nowhere else.
fn show_looked_up(console: &Console, registers: Registers) {
    match asked_of(registers) {
        Some(pc) => say(console, format_args!("looked up: {pc:016x}\n")),
        None => say(
            console,
            "looked up: nothing, since PC is 0 without the first-frame mark\n",
        ),
    }
}

// What stands below a refused step, by the registers that it starts from. 22 may be of a section that is not linked.
fn show_cause(console: &Console, section: &[u8], registers: Registers, cause: FrameCause) {
    match cause {
        FrameCause::NoFunction | FrameCause::NoRow => show_looked_up(console, registers),
        FrameCause::Dispute => {
            show_looked_up(console, registers);
            hint_of_unlinked(console, section);
        }
        _ => {}
    }
}

pub fn show_step(console: &Console, section: &[u8], step: Result<Registers, StepRefusal>) {
    match step {
        Ok(caller) => show_caller(console, caller),
        Err(StepRefusal { old, cause }) => match cause {
            StepCause::Unsound(refusal) => show_unsound(console, refusal),
            StepCause::Window => show_refused(console, cause),
            StepCause::Frame(cause) => {
                show_refused(console, cause);
                show_cause(console, section, old, cause);
            }
        },
    }
}

// The words of frames, three in a line, behind the PC of each: that of the crash, and then the RA of the frame before.
fn show_table(console: &Console, crash: u64, words: &[u64]) {
    let mut pc = crash;
    say(
        console,
        "frame  PC                CFA               RA                FP\n",
    );
    let (frames, _) = words.as_chunks::<3>();
    for (n, frame) in frames.iter().enumerate() {
        let [cfa, ra, fp] = *frame;
        say(
            console,
            format_args!("{n:>5}  {pc:016x}  {cfa:016x}  {ra:016x}  {fp:016x}\n"),
        );
        pc = ra;
    }
}

// The registers that the next step behind these frames starts from, as far as they tell what it looks up: those of the crash, with
// the mark; or the last frame's RA, without it.
fn next_from(crash: Registers, words: &[u64]) -> Registers {
    match words {
        [.., ra, _] => Registers {
            pc: *ra,
            first: 0,
            ..crash
        },
        _ => Registers { first: 1, ..crash },
    }
}

// Where the walk stood when it met its ending: a PC that is no frame's any more.
fn show_met(console: &Console, section: &[u8], next: Registers, cause: FrameCause) {
    say(console, format_args!("at PC: {:016x}\n", next.pc));
    show_cause(console, section, next, cause);
}

// A trace by where it began, its answer and the words of its frames. One without a frame gives nothing of what was asked for.
pub fn show_trace(
    console: &Console,
    section: &[u8],
    crash: Registers,
    traced: Traced,
    words: &[u64],
) {
    let Traced { ending, frames } = traced;
    if 0 < frames {
        show_table(console, crash.pc, words);
    }
    say(console, format_args!("frames: {frames}\n"));
    show_ended(console, ending);
    if let Ending::Refused(cause) = ending {
        show_met(console, section, next_from(crash, words), cause);
    }
    if frames == 0 {
        tell_refused(console);
    }
}

// Why there is no trace.
pub fn show_untraced(console: &Console, refusal: TraceRefusal) {
    match refusal {
        TraceRefusal::Shut(fault) => show_refused(console, fault),
        TraceRefusal::Unsound(refusal) => show_unsound(console, refusal),
    }
}

// The limit in force, where another number was given for it; and one that was refused, as it was understood.
pub fn show_limit(console: &Console, limit: u64) {
    if limit == 0 {
        say(
            console,
            format_args!("limit in force: {}\n", in_force(limit)),
        );
    }
    if 256 < limit {
        say(console, format_args!("limit given: {limit}\n"));
    }
}
