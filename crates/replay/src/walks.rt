// The walks of a case: from each one caller, and one trace.
//
// A walk is eleven words of 8 bytes, little-endian (section address, stack address, mask, PC, SP, FP, LR, the mark, the limit, the number
// of words in the lent buffer, the stack's length), and the stack's bytes.
use crate::show_walks::{show_step, show_traced, show_walk};
use caller::registers::{Process, Registers};
use std::io;
use std::io::Write;
use stored::{start_in, word_in};
use trace::walk::trace;

// As many words as a walk's buffer may have.
const WORDS: usize = 1_000;

// What is lent and asked.
#[derive(Clone, Copy)]
pub struct Walk<'a> {
    pub process: Process,
    pub registers: Registers,
    pub limit: u64,
    pub words: u64,
    pub stack: &'a [u8],
}

fn walk_in<'a>(head: &[u8; 88], stack: &'a [u8]) -> Walk<'a> {
    let (process, registers) = start_in(head);
    Walk {
        process,
        registers,
        limit: word_in(head, 8),
        words: word_in(head, 9),
        stack,
    }
}

// What word k of the buffer holds before a trace: other than its neighbours, so that one that is written can be told from one that is
// kept.
fn before(k: usize) -> u64 {
    0xa5a5_a5a5_a5a5_0000 + k as u64 % 65536
}

// A trace into all words of a buffer.
fn make_trace(
    out: &mut impl Write,
    section: &[u8],
    walk: Walk<'_>,
    buffer: &mut [u64],
) -> io::Result<()> {
    for (k, word) in buffer.iter_mut().enumerate() {
        *word = before(k);
    }
    let Walk {
        process,
        registers,
        limit,
        stack,
        ..
    } = walk;
    let traced = trace(section, stack, process, registers, limit, buffer);
    let frames = traced.map_or(0, |traced| traced.frames);
    let written = (frames as usize).saturating_mul(3).min(buffer.len());
    let kept = buffer
        .iter()
        .enumerate()
        .skip(written)
        .filter(|(k, word)| **word == before(*k))
        .count();
    show_traced(out, traced, frames, kept, &buffer[..written])
}

fn make_walk(out: &mut impl Write, section: &[u8], walk: Walk<'_>) -> io::Result<()> {
    show_walk(out, walk)?;
    show_step(out, walk.registers.step(section, walk.stack, walk.process))?;
    let mut room = [0u64; WORDS];
    match room.get_mut(..walk.words as usize) {
        Some(buffer) => make_trace(out, section, walk, buffer),
        None => Ok(()),
    }
}

pub fn make_walks(out: &mut impl Write, section: &[u8], walks: &[u8]) -> io::Result<()> {
    let mut rest = walks;
    while let Some((head, behind)) = rest.split_first_chunk::<88>() {
        let Some((stack, behind)) = behind.split_at_checked(word_in(head, 10) as usize) else {
            return writeln!(out, "the last walk is cut");
        };
        make_walk(out, section, walk_in(head, stack))?;
        rest = behind;
    }
    Ok(())
}
