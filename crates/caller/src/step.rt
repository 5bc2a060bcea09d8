// One step, from a frame to its caller: in the order of the specification, the first rule that is broken refuses and hands the old
// registers back.
ghost use Rattle.std.specs.Prelude.{◌≡◌};
ghost use Rattle.section.specs.Meaning.{shape_of};
ghost use Rattle.lookup.specs.Finding.{finding_of};
ghost use Rattle.lookup.specs.Computed.Answers.{look_in};
ghost use Rattle.lookup.specs.Inner.Requires.{AcceptedOf};
ghost use Rattle.lookup.specs.Told.{outcome_told};
ghost use Rattle.caller.specs.Computed.Caller.{with_values, from_spots, from_cfa, from_row, from_finding, step_of, step_in};
ghost use Rattle.caller.specs.Step.{Refused};
ghost use Rattle.caller.specs.Told.{frame_number, frame_told, step_told};

use crate::place::{Needed, Spot, Values, is_lost, spot_of, values_at};
use crate::registers::{
    FrameCause, FrameRefusal, Process, Registers, StepCause, StepRefusal, asked_of, caller_sp,
    cfa_of, is_low,
};
use crate::signature::{clear, is_maskless, mask_of};
use accept::section_check::check;
use lookup::answer::{Found, Unfound};
use lookup::look::look;
use numbers::address::window_fits;
use section::header::{Layout, layout_at};
use section::row::Row;
use section::shape::{Shape, shape_of};

// What a step is lent beside its registers and its row.
#[derive(Clone, Copy)]
struct Lent<'a> {
    shape: Shape,
    stack: &'a [u8],
    process: Process,
}

impl Registers {
    // No caller, and the old registers.
    fn refuse(self, cause: FrameCause) -> Result<Registers, FrameRefusal>
        ensures { frame_told result ≡ Refused self (frame_number cause) }
    {
        Err(FrameRefusal { old: self, cause })
    }

    // 28, or the caller: its PC is RA without the bits of the mask, wherever RA came from.
    #[tactic(auto, unfolding(crate::specs::Computed::Caller::with_values))]
    fn with_values(
        self,
        mask: u64,
        cfa: u64,
        values: Result<Values, Needed>,
    ) -> Result<Registers, FrameRefusal>
        ensures { frame_told result ≡ with_values self mask cfa values }
    {
        match values {
            Err(_) => self.refuse(FrameCause::WordOutside),
            Ok(values) => Ok(Registers {
                pc: clear(mask, values.ra),
                sp: caller_sp(cfa),
                fp: values.fp,
                lr: self.lr,
                first: 0,
            }),
        }
    }

    // 27, then the words.
    #[tactic(auto, unfolding(crate::specs::Computed::Caller::from_spots, crate::specs::Computed::Caller::unless_lost))]
    fn from_spots(
        self,
        lent: Lent<'_>,
        mask: u64,
        cfa: u64,
        ra: Spot,
        fp: Spot,
    ) -> Result<Registers, FrameRefusal>
        ensures { frame_told result ≡ from_spots lent.entry.shape lent.entry.stack.now lent.entry.process self mask cfa ra fp }
    {
        if is_lost(self, ra) {
            self.refuse(FrameCause::RaLost)
        } else {
            self.with_values(
                mask,
                cfa,
                values_at(
                    lent.stack,
                    lent.process.stack,
                    lent.shape.order,
                    self,
                    ra,
                    fp,
                ),
            )
        }
    }

    // 26, then the places of RA and FP.
    #[tactic(auto, unfolding(crate::specs::Computed::Caller::from_cfa, crate::specs::Computed::Caller::unless_low))]
    fn from_cfa(self, lent: Lent<'_>, row: Row, cfa: u64) -> Result<Registers, FrameRefusal>
        ensures { frame_told result ≡ from_cfa lent.entry.shape lent.entry.stack.now lent.entry.process self row cfa }
    {
        if is_low(self, caller_sp(cfa)) {
            self.refuse(FrameCause::CfaLow)
        } else {
            self.from_spots(
                lent,
                mask_of(lent.shape, row, lent.process),
                cfa,
                spot_of(cfa, row.ra),
                spot_of(cfa, row.fp),
            )
        }
    }

    // The step that a row defines, with no section at hand: 24, 25 and what follows.
    #[tactic(auto, unfolding(crate::specs::Computed::Caller::from_row, crate::specs::Computed::Caller::unless_maskless, crate::specs::Computed::Caller::with_cfa))]
    pub fn from_row(
        self,
        shape: Shape,
        stack: &[u8],
        process: Process,
        row: Row,
    ) -> Result<Registers, FrameRefusal>
        ensures { frame_told result ≡ from_row shape stack.now process self row }
    {
        if is_maskless(shape, row, process) {
            return self.refuse(FrameCause::Signed);
        }
        match cfa_of(self, row) {
            None => self.refuse(FrameCause::CfaOutside),
            Some(cfa) => {
                let lent = Lent {
                    shape,
                    stack,
                    process,
                };
                self.from_cfa(lent, row, cfa)
            }
        }
    }

    // The step from what a lookup found.
    #[tactic(auto, unfolding(lookup::specs::Finding::finding_of, lookup::specs::Numbers::number_of_unfound, crate::specs::Computed::Caller::from_finding, crate::specs::Computed::Caller::with_finding))]
    fn from_outcome(
        self,
        shape: Shape,
        stack: &[u8],
        process: Process,
        outcome: Result<Found, Unfound>,
    ) -> Result<Registers, FrameRefusal>
        ensures { frame_told result ≡ from_finding shape stack.now process self (finding_of (outcome_told outcome)) }
    {
        match outcome {
            Ok(found) => self.from_row(shape, stack, process, found.row),
            Err(Unfound::NoFunction) => self.refuse(FrameCause::NoFunction),
            Err(Unfound::Dispute { .. }) => self.refuse(FrameCause::Dispute),
            Err(Unfound::NoRow { .. }) => self.refuse(FrameCause::NoRow),
        }
    }

    // The step on a section that was checked before: one check serves a whole trace.
    #[tactic(auto, using(crate::proofs::LookedUpLaws::nowhere_step))]
    pub fn step_checked(
        self,
        section: &[u8],
        layout: Layout,
        stack: &[u8],
        process: Process,
    ) -> Result<Registers, FrameRefusal>
        requires { AcceptedOf section.now layout }
        ensures { frame_told result ≡ step_of (shape_of section.now) (look_in section.now process.section) stack.now process self }
    {
        let Some(pc) = asked_of(self) else {
            return self.refuse(FrameCause::NoFunction);
        };
        let answer = look(section, layout, process.section, pc);
        self.from_outcome(shape_of(layout.abi), stack, process, answer.outcome)
    }

    // The step on any bytes, stack and registers: 41 and 1 to 15 first.
    #[tactic(auto, using(accept::proofs::AcceptedLaws::accepted_laws), unfolding(crate::specs::Computed::Caller::if_fits, crate::specs::Computed::Caller::step_after, crate::specs::Computed::Caller::step_in))]
    pub fn step(
        self,
        section: &[u8],
        stack: &[u8],
        process: Process,
    ) -> Result<Registers, StepRefusal>
        ensures { step_told result ≡ step_in section.now stack.now process self }
    {
        if !window_fits(stack, process.stack) {
            return Err(StepRefusal {
                old: self,
                cause: StepCause::Window,
            });
        }
        if let Err(refusal) = check(section) {
            return Err(StepRefusal {
                old: self,
                cause: StepCause::Unsound(refusal),
            });
        }
        match self.step_checked(section, layout_at(section), stack, process) {
            Ok(caller) => Ok(caller),
            Err(refusal) => Err(StepRefusal {
                old: refusal.old,
                cause: StepCause::Frame(refusal.cause),
            }),
        }
    }
}
