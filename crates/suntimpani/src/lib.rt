// The answers of the eight calls as C has them: flat structs by value, nothing allocated, nothing kept. The crate `suntimpani_c` exports
// these functions.
#![tactic(auto)]

pub mod asks;
pub mod flat;
pub mod functions;
pub mod rows;
pub mod walks;

ghost use Rattle.std.specs.Prelude.{◌≡◌};
ghost use Rattle.accept.specs.Computed.Checks.{verdict};
ghost use Rattle.listing.specs.Functions.{described_of};
ghost use Rattle.listing.specs.Computed.Reader.{place_in};
ghost use Rattle.listing.specs.Computed.Turns.{row_turn};
ghost use Rattle.lookup.specs.Computed.Answers.{lookup_of};
ghost use Rattle.ask.specs.Computed.Ask.{ask_of};
ghost use Rattle.caller.specs.Computed.Caller.{step_in};
ghost use Rattle.trace.specs.Computed.Trace.{trace_of};
ghost use Rattle.suntimpani.specs.Asked.{flat_asked};
ghost use Rattle.suntimpani.specs.Flat.{flat_verdict, flat_function, flat_answer, flat_step, handed_as, flat_trace};
ghost use Rattle.suntimpani.specs.FlatRows.{flat_place, flat_turn};
ghost use Rattle.suntimpani.specs.Read.{read_rows};

use crate::asks::flat_asked;
use crate::flat::{AnswerInC, VerdictInC, flat_answer, flat_verdict};
use crate::functions::{FunctionInC, flat_function};
use crate::rows::{RowInC, RowsInC, flat_place, flat_turn, place_read};
use crate::walks::{StepInC, TracedInC, flat_step, flat_traced};
use accept::section_check::check;
use ask::land::ask;
use caller::registers::{Process, Registers};
use listing::function::function_at;
use listing::reader::place_in;
use listing::rows::row_turn;
use lookup::look::lookup;
use trace::walk::trace;

pub fn suntimpani_check(section: &[u8]) -> VerdictInC
    ensures { result ≡ flat_verdict (verdict section.now) }
{
    flat_verdict(check(section))
}

pub fn suntimpani_function_at(section: &[u8], index: u64) -> FunctionInC
    ensures { result ≡ flat_function (described_of section.now index) }
{
    flat_function(function_at(section, index))
}

pub fn suntimpani_rows_of(section: &[u8], index: u64) -> RowsInC
    ensures { result ≡ flat_place (place_in (described_of section.now index)) }
{
    flat_place(place_in(function_at(section, index)))
}

pub fn suntimpani_next_row(section: &[u8], rows: RowsInC) -> RowInC
    ensures { result ≡ flat_turn (row_turn section.now (read_rows rows)) }
{
    flat_turn(row_turn(section, place_read(rows)))
}

pub fn suntimpani_lookup(section: &[u8], address: u64, pc: u64) -> AnswerInC
    ensures { result ≡ flat_answer (lookup_of section.now address pc) }
{
    flat_answer(lookup(section, address, pc))
}

pub fn suntimpani_ask(section: &[u8], address: u64, pc: u64) -> AnswerInC
    ensures { result ≡ flat_asked (ask_of section.now address pc) }
{
    flat_asked(ask(section, address, pc))
}

pub fn suntimpani_caller(
    section: &[u8],
    stack: &[u8],
    process: Process,
    registers: Registers,
) -> StepInC
    ensures { result ≡ flat_step (step_in section.now stack.now process registers) }
{
    flat_step(registers.step(section, stack, process))
}

#[tactic(auto, unfolding(trace::specs::Frames::traced_as, crate::specs::Flat::flat_trace))]
pub fn suntimpani_trace(
    section: &[u8],
    stack: &[u8],
    process: Process,
    registers: Registers,
    limit: u64,
    buffer: &mut [u64],
) -> TracedInC
    ensures { handed_as result buffer.new ≡ flat_trace (trace_of section.now stack.now process registers limit buffer.old) }
{
    flat_traced(trace(section, stack, process, registers, limit, buffer))
}
