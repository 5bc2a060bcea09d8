// Why a step gives its answer: the row that it uses and the numbers that its rules compare, in the order of the step.
ghost use Rattle.std.specs.Prelude.{◌≡◌};
ghost use Rattle.caller.specs.Frame.{asked_of};
ghost use Rattle.lookup.specs.Inner.Requires.{AcceptedOf};
ghost use Rattle.explain.specs.Computed.Step.{fetched_at, fetched_of, outside_why, caller_why, with_ra, from_words, from_high, from_cfa_why, from_row_why, by_looked, unlooked_why, asked_why, step_why};
ghost use Rattle.explain.specs.Told.{step_reason_told, step_why_told};

use crate::coverers::no_coverers;
use crate::looked::explain_look;
use crate::why::{LookedWhy, RowReason, StepReason, StepWhy};
use accept::section_check::check;
use caller::place::{Needed, is_lost, spot_of, value_at};
use caller::registers::{Process, Registers, asked_of, base_value, caller_sp, cfa_of, is_low};
use caller::signature::{clear, is_maskless, mask_of};
use numbers::address::window_fits;
use numbers::offset::Offset;
use section::header::{Layout, layout_at};
use section::row::{Place, Row};
use section::shape::{Shape, shape_of};

// What stands at a saved place; of a word that is not wholly inside the window, the offset that leads to it.
#[tactic(auto, unfolding(crate::specs::Computed::Step::fetched_at))]
fn fetched_at(offset: Offset, word: Option<u64>) -> Result<u64, Offset>
    ensures { result ≡ fetched_at offset word }
{
    match word {
        Some(value) => Ok(value),
        None => Err(offset),
    }
}

// What a step begins with, a row apart.
#[derive(Clone, Copy)]
struct Frame<'a> {
    shape: Shape,
    stack: &'a [u8],
    process: Process,
    registers: Registers,
}

impl Frame<'_> {
    #[tactic(auto, unfolding(crate::specs::Computed::Step::fetched_of))]
    fn fetch(self, cfa: u64, register: u64, place: Place) -> Result<u64, Offset>
        ensures { result ≡ fetched_of self.entry.stack.now self.entry.process.stack self.entry.shape.order cfa register place }
    {
        let spot = spot_of(cfa, place);
        match place {
            Place::Register => Ok(register),
            Place::AtOffset(offset) => fetched_at(
                offset,
                value_at(
                    self.stack,
                    self.process.stack,
                    self.shape.order,
                    register,
                    spot,
                ),
            ),
        }
    }

    // 28, of one word.
    #[tactic(auto, unfolding(crate::specs::Computed::Step::outside_why))]
    fn outside(self, word: Needed, cfa: u64, offset: Offset) -> RowReason
        ensures { result ≡ outside_why word cfa offset self.entry.stack.now self.entry.process.stack }
    {
        RowReason::WordOutside {
            word,
            cfa,
            offset,
            stack: self.process.stack,
            length: self.stack.len() as u64,
        }
    }

    // The caller, by RA as it was read and FP.
    #[tactic(auto, unfolding(crate::specs::Computed::Step::caller_why))]
    fn caller(self, mask: u64, cfa: u64, ra: u64, fp: u64) -> RowReason
        ensures { result ≡ caller_why self.entry.registers mask cfa ra fp }
    {
        RowReason::Caller {
            caller: Registers {
                pc: clear(mask, ra),
                sp: caller_sp(cfa),
                fp,
                lr: self.registers.lr,
                first: 0,
            },
            cfa,
            ra,
        }
    }

    // 28 of FP's word, or the caller.
    #[tactic(auto, unfolding(crate::specs::Computed::Step::with_ra))]
    fn with_ra(self, mask: u64, cfa: u64, ra: u64, fp: Result<u64, Offset>) -> RowReason
        ensures { result ≡ with_ra self.entry.registers self.entry.stack.now self.entry.process.stack mask cfa ra fp }
    {
        match fp {
            Err(offset) => self.outside(Needed::Fp, cfa, offset),
            Ok(value) => self.caller(mask, cfa, ra, value),
        }
    }

    // RA's word is tried before FP's.
    #[tactic(auto, unfolding(crate::specs::Computed::Step::from_words))]
    fn from_words(
        self,
        mask: u64,
        cfa: u64,
        ra: Result<u64, Offset>,
        fp: Result<u64, Offset>,
    ) -> RowReason
        ensures { result ≡ from_words self.entry.registers self.entry.stack.now self.entry.process.stack mask cfa ra fp }
    {
        match ra {
            Err(offset) => self.outside(Needed::Ra, cfa, offset),
            Ok(value) => self.with_ra(mask, cfa, value, fp),
        }
    }

    // 27, then the words.
    #[tactic(auto, unfolding(crate::specs::Computed::Step::from_high))]
    fn from_high(self, row: Row, cfa: u64) -> RowReason
        ensures { result ≡ from_high self.entry.shape self.entry.stack.now self.entry.process self.entry.registers row cfa }
    {
        if is_lost(self.registers, spot_of(cfa, row.ra)) {
            return RowReason::RaLost {
                first: self.registers.first,
            };
        }
        let ra = self.fetch(cfa, self.registers.lr, row.ra);
        let fp = self.fetch(cfa, self.registers.fp, row.fp);
        self.from_words(mask_of(self.shape, row, self.process), cfa, ra, fp)
    }

    // 26, then what follows.
    #[tactic(auto, unfolding(crate::specs::Computed::Step::from_cfa_why))]
    fn from_cfa(self, row: Row, cfa: u64) -> RowReason
        ensures { result ≡ from_cfa_why self.entry.shape self.entry.stack.now self.entry.process self.entry.registers row cfa }
    {
        let sp = caller_sp(cfa);
        if is_low(self.registers, sp) {
            return RowReason::CfaLow {
                callersp: sp,
                sp: self.registers.sp,
                first: self.registers.first,
            };
        }
        self.from_high(row, cfa)
    }

    // The step from what was looked up at a PC.
    #[tactic(auto, unfolding(crate::specs::Computed::Step::by_looked, crate::specs::Computed::Step::by_reason))]
    fn by_looked(self, pc: u64, why: LookedWhy) -> StepWhy
        ensures { step_why_told result ≡ by_looked self.entry.shape self.entry.stack.now self.entry.process self.entry.registers pc why }
    {
        let coverers = why.coverers;
        match why.looked {
            Err(missing) => StepWhy {
                reason: StepReason::NotFound { pc, why: missing },
                coverers,
            },
            Ok(found) => StepWhy {
                reason: StepReason::FromRow {
                    found,
                    reason: explain_row(
                        self.shape,
                        self.stack,
                        self.process,
                        self.registers,
                        found.row,
                    ),
                    pc,
                },
                coverers,
            },
        }
    }
}

// What a row comes to, with no section at hand: 24, 25 and what follows.
#[tactic(auto, unfolding(crate::specs::Computed::Step::from_row_why, crate::specs::Computed::Step::by_address))]
pub fn explain_row(
    shape: Shape,
    stack: &[u8],
    process: Process,
    registers: Registers,
    row: Row,
) -> RowReason
    ensures { result ≡ from_row_why shape stack.now process registers row }
{
    if is_maskless(shape, row, process) {
        return RowReason::Signed {
            signed: row.signed,
            mask: process.mask,
        };
    }
    let base = row.base;
    let offset = row.cfa;
    match cfa_of(registers, row) {
        None => RowReason::CfaOutside {
            base: base_value(registers, base),
            offset,
        },
        Some(cfa) => {
            let frame = Frame {
                shape,
                stack,
                process,
                registers,
            };
            frame.from_cfa(row, cfa)
        }
    }
}

// Without a lookup, nobody stands beside.
#[tactic(auto, unfolding(crate::specs::Computed::Step::unlooked_why))]
fn unlooked(reason: StepReason) -> StepWhy
    ensures { step_why_told result ≡ unlooked_why (step_reason_told reason) }
{
    StepWhy {
        reason,
        coverers: no_coverers(),
    }
}

// On a section that was checked before.
#[tactic(auto, unfolding(crate::specs::Computed::Step::asked_why, section::specs::Meaning::shape_of))]
fn explain_checked(
    section: &[u8],
    layout: Layout,
    stack: &[u8],
    process: Process,
    registers: Registers,
) -> StepWhy
    requires { AcceptedOf section.now layout }
    ensures { step_why_told result ≡ asked_why section.now stack.now process registers (asked_of registers) }
{
    let Some(pc) = asked_of(registers) else {
        return unlooked(StepReason::NothingAsked);
    };
    let why = explain_look(section, layout, process.section, pc);
    let frame = Frame {
        shape: shape_of(layout.abi),
        stack,
        process,
        registers,
    };
    frame.by_looked(pc, why)
}

// On any bytes, stack and registers: 41 and 1 to 15 first.
#[tactic(auto, using(accept::proofs::AcceptedLaws::accepted_laws), unfolding(crate::specs::Computed::Step::checked_why, crate::specs::Computed::Step::step_why))]
pub fn explain_step(section: &[u8], stack: &[u8], process: Process, registers: Registers) -> StepWhy
    ensures { step_why_told result ≡ step_why section.now stack.now process registers }
{
    if !window_fits(stack, process.stack) {
        return unlooked(StepReason::Window {
            stack: process.stack,
            length: stack.len() as u64,
        });
    }
    match check(section) {
        Err(refusal) => unlooked(StepReason::Unsound(refusal)),
        Ok(()) => explain_checked(section, layout_at(section), stack, process, registers),
    }
}
