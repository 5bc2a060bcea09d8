// The C surface, a static library: each function is the one of the crate `suntimpani` with its name, and states the same.
#![tactic(auto)]

ghost use Rattle.std.specs.Prelude.{◌≡◌};
ghost use Rattle.accept.specs.Computed.Checks.{verdict};
ghost use Rattle.listing.specs.Functions.{described_of};
ghost use Rattle.listing.specs.Computed.Reader.{place_in};
ghost use Rattle.listing.specs.Computed.Turns.{row_turn};
ghost use Rattle.lookup.specs.Computed.Answers.{lookup_of};
ghost use Rattle.ask.specs.Computed.Ask.{ask_of};
ghost use Rattle.caller.specs.Computed.Caller.{step_in};
ghost use Rattle.trace.specs.Computed.Trace.{trace_of};
ghost use Rattle.suntimpani.specs.Asked.{flat_asked};
ghost use Rattle.suntimpani.specs.Flat.{flat_verdict, flat_function, flat_answer, flat_step, handed_as, flat_trace};
ghost use Rattle.suntimpani.specs.FlatRows.{flat_place, flat_turn};
ghost use Rattle.suntimpani.specs.Read.{read_rows};

use caller::registers::{Process, Registers};
use suntimpani::flat::{AnswerInC, VerdictInC};
use suntimpani::functions::FunctionInC;
use suntimpani::rows::{RowInC, RowsInC};
use suntimpani::walks::{StepInC, TracedInC};

#[unsafe(no_mangle)]
pub extern "C" fn suntimpani_check(section: &[u8]) -> VerdictInC
    ensures { result ≡ flat_verdict (verdict section.now) }
{
    suntimpani::suntimpani_check(section)
}

#[unsafe(no_mangle)]
pub extern "C" fn suntimpani_function_at(section: &[u8], index: u64) -> FunctionInC
    ensures { result ≡ flat_function (described_of section.now index) }
{
    suntimpani::suntimpani_function_at(section, index)
}

#[unsafe(no_mangle)]
pub extern "C" fn suntimpani_rows_of(section: &[u8], index: u64) -> RowsInC
    ensures { result ≡ flat_place (place_in (described_of section.now index)) }
{
    suntimpani::suntimpani_rows_of(section, index)
}

#[unsafe(no_mangle)]
pub extern "C" fn suntimpani_next_row(section: &[u8], rows: RowsInC) -> RowInC
    ensures { result ≡ flat_turn (row_turn section.now (read_rows rows)) }
{
    suntimpani::suntimpani_next_row(section, rows)
}

#[unsafe(no_mangle)]
pub extern "C" fn suntimpani_lookup(section: &[u8], address: u64, pc: u64) -> AnswerInC
    ensures { result ≡ flat_answer (lookup_of section.now address pc) }
{
    suntimpani::suntimpani_lookup(section, address, pc)
}

#[unsafe(no_mangle)]
pub extern "C" fn suntimpani_ask(section: &[u8], address: u64, pc: u64) -> AnswerInC
    ensures { result ≡ flat_asked (ask_of section.now address pc) }
{
    suntimpani::suntimpani_ask(section, address, pc)
}

#[unsafe(no_mangle)]
pub extern "C" fn suntimpani_caller(
    section: &[u8],
    stack: &[u8],
    process: Process,
    registers: Registers,
) -> StepInC
    ensures { result ≡ flat_step (step_in section.now stack.now process registers) }
{
    suntimpani::suntimpani_caller(section, stack, process, registers)
}

#[unsafe(no_mangle)]
pub extern "C" fn suntimpani_trace(
    section: &[u8],
    stack: &[u8],
    process: Process,
    registers: Registers,
    limit: u64,
    buffer: &mut [u64],
) -> TracedInC
    ensures { handed_as result buffer.new ≡ flat_trace (trace_of section.now stack.now process registers limit buffer.old) }
{
    suntimpani::suntimpani_trace(section, stack, process, registers, limit, buffer)
}
