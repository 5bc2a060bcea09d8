// Steps and traces as the flat structs that C sees. Fields without meaning in a case are 0.
ghost use Rattle.std.specs.Prelude.{◌≡◌};
ghost use Rattle.caller.specs.Told.{step_told};
ghost use Rattle.trace.specs.Numbers.{ending_number};
ghost use Rattle.trace.specs.Told.{ending_told, trace_told};
ghost use Rattle.suntimpani.specs.Flat.{flat_step, flat_traced};

use caller::registers::{Registers, StepRefusal};
use trace::answer::{Ending, TraceRefusal, Traced};

// What a step answers: number 0 is the caller's registers, else the old ones, the number and, for 1 to 15, the entry's index.
#[repr(C)]
#[derive(Clone, Copy)]
pub struct StepInC {
    pub registers: Registers,
    pub number: u64,
    pub index: u64,
}

// What a trace answers: how many frames were written, the ending's number and, for 1 to 15, the entry's index.
#[repr(C)]
#[derive(Clone, Copy)]
pub struct TracedInC {
    pub frames: u64,
    pub ending: u64,
    pub index: u64,
}

#[tactic(auto, unfolding(crate::specs::Flat::flat_step, caller::specs::Numbers::step_number, caller::specs::Numbers::step_indexes, caller::specs::Numbers::step_registers))]
pub fn flat_step(step: Result<Registers, StepRefusal>) -> StepInC
    ensures { result ≡ flat_step (step_told step) }
{
    match step {
        Ok(caller) => StepInC {
            registers: caller,
            number: 0,
            index: 0,
        },
        Err(refusal) => StepInC {
            registers: refusal.old,
            number: refusal.cause.number(),
            index: refusal.cause.index(),
        },
    }
}

#[tactic(auto, unfolding(trace::specs::Numbers::ending_number, trace::specs::Numbers::number_of_trace_cause))]
fn ending_number(ending: Ending) -> u64
    ensures { result ≡ ending_number (ending_told ending) }
{
    match ending {
        Ending::Outermost => 30,
        Ending::Full => 31,
        Ending::Refused(cause) => cause.number(),
    }
}

#[tactic(auto, unfolding(crate::specs::Flat::flat_traced, trace::specs::Numbers::ending_number, trace::specs::Numbers::ending_indexes))]
pub fn flat_traced(traced: Result<Traced, TraceRefusal>) -> TracedInC
    ensures { result ≡ flat_traced (trace_told traced) }
{
    match traced {
        Ok(traced) => TracedInC {
            frames: traced.frames,
            ending: ending_number(traced.ending),
            index: 0,
        },
        Err(TraceRefusal::Shut(fault)) => TracedInC {
            frames: 0,
            ending: fault.number(),
            index: 0,
        },
        Err(TraceRefusal::Unsound(refusal)) => TracedInC {
            frames: 0,
            ending: refusal.rule.number(),
            index: refusal.index,
        },
    }
}
