// One caller, why it is that, and a whole trace: the arguments that all take, the file of the stack window, and the calls.
use crate::arguments::{Opened, count_given, is_input, number_given, read_given, try_given};
use crate::console::Console;
use crate::rooms::{Long, Room, largest_within};
use crate::say::complain;
use crate::show_step_why::show_step_why;
use crate::show_walks::{show_limit, show_step, show_trace, show_untraced};
use crate::status::argument_count;
use caller::registers::{Process, Registers};
use std::rt::{Env, Files};
use trace::walk::trace;

// Three words for each of 256 frames.
const WORDS: usize = 768;

// What is sought: one caller, why it is that, or a whole trace.
#[derive(Clone, Copy)]
pub enum Sought {
    Caller,
    Why,
    Trace,
}

// What is sought, and in which section.
#[derive(Clone, Copy)]
struct Walk<'a> {
    sought: Sought,
    section: &'a [u8],
    address: u64,
}

// Where a walk starts: the process without a mask, and the registers without a mark. Arguments 5 to 9.
fn start_given(rt: &impl Env, console: &Console, address: u64) -> Option<(Process, Registers)> {
    let process = Process {
        section: address,
        stack: number_given(rt, console, 5, "STACK_ADDRESS")?,
        mask: 0,
    };
    let registers = Registers {
        pc: number_given(rt, console, 6, "PC")?,
        sp: number_given(rt, console, 7, "SP")?,
        fp: number_given(rt, console, 8, "FP")?,
        lr: number_given(rt, console, 9, "LR")?,
        first: 0,
    };
    Some((process, registers))
}

// MASK, or 0 where it is left out.
fn mask_given(rt: &impl Env, console: &Console) -> Option<u64> {
    if argument_count(rt) < 12 {
        return Some(0);
    }
    number_given(rt, console, 11, "MASK")
}

fn trace_from(
    console: &Console,
    section: &[u8],
    stack: &[u8],
    process: Process,
    registers: Registers,
    limit: u64,
) {
    let mut buffer = [0u64; WORDS];
    match trace(section, stack, process, registers, limit, &mut buffer) {
        Ok(traced) => {
            let written = (traced.frames as usize).saturating_mul(3).min(WORDS);
            show_trace(console, section, registers, traced, &buffer[..written]);
        }
        Err(refusal) => show_untraced(console, refusal),
    }
    show_limit(console, limit);
}

// The answer, unless what is wrong with an argument was told.
fn answer_from(rt: &impl Env, console: &Console, walk: Walk<'_>, stack: &[u8]) -> Option<()> {
    let section = walk.section;
    let (mut process, mut registers) = start_given(rt, console, walk.address)?;
    match walk.sought {
        Sought::Trace => {
            let limit = count_given(rt, console, 10, "LIMIT")?;
            process.mask = mask_given(rt, console)?;
            trace_from(console, section, stack, process, registers, limit);
        }
        Sought::Caller => {
            registers.first = number_given(rt, console, 10, "FIRST")?;
            process.mask = mask_given(rt, console)?;
            show_step(console, section, registers.step(section, stack, process));
        }
        Sought::Why => {
            registers.first = number_given(rt, console, 10, "FIRST")?;
            process.mask = mask_given(rt, console)?;
            show_step_why(console, section, stack, process, registers);
        }
    }
    Some(())
}

fn walk_in<R: Env + Files + Input>(
    rt: &R,
    console: &Console,
    opened: &mut Opened<R::File>,
    walk: Walk<'_>,
    room: &mut [u8],
) -> Result<(), Long> {
    let size = room.len();
    let Some(stack) = read_given(rt, console, 4, opened, room) else {
        return Ok(());
    };
    if stack.len() == size {
        return Err(Long);
    }
    let _ = answer_from(rt, console, walk, stack);
    Ok(())
}

fn is_one_input(rt: &impl Env, console: &Console) -> bool {
    let is_one = !is_input(rt, 2) || !is_input(rt, 4);
    if !is_one {
        complain(
            console,
            "sframe: FILE and STACK cannot both be standard input\n",
        );
    }
    is_one
}

// In a room up to this one.
fn walk_opened<R: Env + Files + Input>(rt: &R, console: &Console, walk: Walk<'_>, largest: Room) {
    let attempt = |opened: &mut Opened<R::File>, room: &mut [u8]| walk_in(
        rt, console, opened, walk, room,
    );
    try_given(rt, console, 4, "sframe: STACK", largest, &attempt);
}

// With so much of the stack left for the room of the window; the smallest room was left free for it.
pub fn answer_walk<R: Env + Files + Input>(
    rt: &R,
    console: &Console,
    sought: Sought,
    section: &[u8],
    left: u64,
) {
    let Some(address) = number_given(rt, console, 3, "ADDRESS") else {
        return;
    };
    if is_one_input(rt, console) {
        let walk = Walk {
            sought,
            section,
            address,
        };
        let largest = largest_within(left).unwrap_or(Room::Smallest);
        walk_opened(rt, console, walk, largest);
    }
}
