// The walk: from the registers handed in, with the mark set, to the caller, and from each caller to its own.
ghost use Rattle.std.specs.Prelude.{◌≡◌, ◌*◌, ◌≤◌, length};
ghost use Rattle.lookup.specs.Inner.Requires.{AcceptedOf};
ghost use Rattle.trace.specs.Inner.Writing.{next_from};
ghost use Rattle.trace.specs.Frames.{in_force, with_mark, traced_as};
ghost use Rattle.trace.specs.Told.{door_told, traced_told, trace_told};
ghost use Rattle.trace.specs.Computed.Trace.{door_fault, checked_walk, traced, trace_of};

use crate::answer::{DoorFault, Ending, TraceRefusal, Traced, frame_of, write_frame};
use accept::section_check::check;
use caller::registers::{Process, Registers};
use numbers::address::window_fits;
use section::header::{Layout, layout_at};

// The limit that 0 stands for.
const USUAL: u64 = 128;
// The highest limit.
const MOST: u64 = 256;

// How many frames a trace may have, for a limit that it does not refuse.
#[tactic(auto, unfolding(crate::specs::Frames::in_force))]
pub fn in_force(limit: u64) -> u64
    ensures { result ≡ in_force limit }
{
    if limit == 0 { USUAL } else { limit }
}

#[tactic(auto, unfolding(crate::specs::Frames::with_mark))]
fn with_mark(registers: Registers) -> Registers
    ensures { result ≡ with_mark registers }
{
    Registers {
        first: 1,
        ..registers
    }
}

// A caller as it is, since it has no mark and LR as it was. Neither is copied from it: together with FP or with each other they would
// wait for the step's own stores (docs/BENCHMARKS.md).
#[tactic(auto, unfolding(crate::specs::Inner::Writing::next_from))]
fn next_from(caller: Registers, last: Registers) -> Registers
    ensures { result ≡ next_from caller last }
{
    Registers {
        pc: caller.pc,
        sp: caller.sp,
        fp: caller.fp,
        lr: last.lr,
        first: 0,
    }
}

// 41, 42, 43: what is tried before anything else.
#[tactic(auto, using(crate::proofs::DoorLaws::in_force_small), unfolding(crate::specs::Computed::Trace::door_fault, crate::specs::Computed::Trace::door_tests, accept::specs::Computed::Checks::first_bad))]
fn door_fault(stack: &[u8], process: Process, limit: u64, words: u64) -> Result<(), DoorFault>
    ensures { door_told result ≡ door_fault stack.now process limit words }
{
    if !window_fits(stack, process.stack) {
        return Err(DoorFault::Window);
    }
    if MOST < limit {
        return Err(DoorFault::Limit);
    }
    let frames = in_force(limit);
    if words < 3 * frames {
        return Err(DoorFault::Words);
    }
    Ok(())
}

// The walk on a section that was checked, and as many frames as the limit allows.
#[tactic(auto, using(crate::proofs::GoingLaws::going_begins, crate::proofs::GoingLaws::going_fits))]
fn walk(
    section: &[u8],
    layout: Layout,
    stack: &[u8],
    process: Process,
    registers: Registers,
    limit: u64,
    buffer: &mut [u64],
) -> Traced
    requires { AcceptedOf section.now layout × (limit ≤ 256) × (3 * limit ≤ length buffer.old) }
    ensures { traced_as (traced_told result) buffer.new ≡ traced (checked_walk section.now stack.now process limit registers) buffer.old }
{
    let mut current = registers;
    for frames in 0..limit {
        match current.step_checked(section, layout, stack, process) {
            Err(refusal) => {
                return Traced {
                    ending: Ending::Refused(refusal.cause),
                    frames,
                };
            }
            Ok(caller) => {
                write_frame(buffer, 3 * frames as usize, frame_of(caller));
                if caller.pc == 0 {
                    return Traced {
                        ending: Ending::Outermost,
                        frames: frames + 1,
                    };
                }
                current = next_from(caller, current);
            }
        }
    }
    Traced {
        ending: Ending::Full,
        frames: limit,
    }
}

// The trace on any bytes, stack, registers, limit and buffer.
#[tactic(auto, using(accept::proofs::AcceptedLaws::accepted_laws, crate::proofs::DoorLaws::in_force_small, crate::proofs::DoorLaws::door_allows, crate::proofs::DoorLaws::refused_at_door, crate::proofs::DoorLaws::refused_by_section, crate::proofs::DoorLaws::walked))]
pub fn trace(
    section: &[u8],
    stack: &[u8],
    process: Process,
    registers: Registers,
    limit: u64,
    buffer: &mut [u64],
) -> Result<Traced, TraceRefusal>
    ensures { traced_as (trace_told result) buffer.new ≡ trace_of section.now stack.now process registers limit buffer.old }
{
    if let Err(fault) = door_fault(stack, process, limit, buffer.len() as u64) {
        return Err(TraceRefusal::Shut(fault));
    }
    if let Err(refusal) = check(section) {
        return Err(TraceRefusal::Unsound(refusal));
    }
    Ok(walk(
        section,
        layout_at(section),
        stack,
        process,
        with_mark(registers),
        in_force(limit),
        buffer,
    ))
}
