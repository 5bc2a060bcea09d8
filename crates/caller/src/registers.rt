// The registers that a step begins with and hands back, and what is read off them.
ghost use Rattle.std.specs.Prelude.{◌≡◌};
ghost use Rattle.numbers.specs.Computed.Address.{in_memory};
ghost use Rattle.caller.specs.Frame.{just_before, asked_of, base_value, cfa_of, caller_sp, cfa_of_sp};
ghost use Rattle.caller.specs.Computed.Caller.{is_low};
ghost use Rattle.caller.specs.Told.{frame_number, cause_number, cause_index};

use accept::verdict::Refusal;
use numbers::address::address_of;
use section::row::{Base, Row};

// Five numbers, all of them any value. The first-frame mark is set where `first` is not 0.
#[repr(C)]
#[derive(Clone, Copy)]
pub struct Registers {
    pub pc: u64,
    pub sp: u64,
    pub fp: u64,
    pub lr: u64,
    pub first: u64,
}

// What is known of the crashed process beside its registers: where its section and the stack window lie, and which bits of a signed
// return address are the signature, 0 where that is not known.
#[repr(C)]
#[derive(Clone, Copy)]
pub struct Process {
    pub section: u64,
    pub stack: u64,
    pub mask: u64,
}

// Why a frame has no caller.
#[derive(Clone, Copy)]
pub enum FrameCause {
    // 21: no function covers the PC, or there is none to look up.
    NoFunction,
    // 22: two or more functions cover it.
    Dispute,
    // 23: the one function that covers it has no row there.
    NoRow,
    // 24: RA is signed, and no mask says by which bits.
    Signed,
    // 25: CFA is no address.
    CfaOutside,
    // 26: the stack would not shrink.
    CfaLow,
    // 27: RA would be in LR, which is trusted in the first frame alone.
    RaLost,
    // 28: a word that is needed is not wholly inside the stack window.
    WordOutside,
}

// A refusal hands the old registers back. They stand first, so that they are not moved about.
#[derive(Clone, Copy)]
pub struct FrameRefusal {
    pub old: Registers,
    pub cause: FrameCause,
}

// Why a step on any bytes is refused.
#[derive(Clone, Copy)]
pub enum StepCause {
    // 41: the stack window ends past the last address.
    Window,
    // 1 to 15: the section breaks a rule.
    Unsound(Refusal),
    // 21 to 28.
    Frame(FrameCause),
}

#[derive(Clone, Copy)]
pub struct StepRefusal {
    pub old: Registers,
    pub cause: StepCause,
}

impl FrameCause {
    pub fn number(self) -> u64
        ensures { result ≡ frame_number self }
    {
        match self {
            FrameCause::NoFunction => 21,
            FrameCause::Dispute => 22,
            FrameCause::NoRow => 23,
            FrameCause::Signed => 24,
            FrameCause::CfaOutside => 25,
            FrameCause::CfaLow => 26,
            FrameCause::RaLost => 27,
            FrameCause::WordOutside => 28,
        }
    }
}

impl StepCause {
    pub fn number(self) -> u64
        ensures { result ≡ cause_number self }
    {
        match self {
            StepCause::Window => 41,
            StepCause::Unsound(refusal) => refusal.rule.number(),
            StepCause::Frame(cause) => cause.number(),
        }
    }

    // The entry's index for 1 to 15, else 0.
    pub fn index(self) -> u64
        ensures { result ≡ cause_index self }
    {
        match self {
            StepCause::Window => 0,
            StepCause::Unsound(refusal) => refusal.index,
            StepCause::Frame(_) => 0,
        }
    }
}

// One before a PC. A return address stands behind its call, and behind the function where the call is the function's last instruction;
// one before it is inside both. Before 0 there is nothing.
#[tactic(auto, using(crate::proofs::RegisterLaws::none_before, crate::proofs::RegisterLaws::one_before))]
fn just_before(pc: u64) -> Option<u64>
    ensures { result ≡ just_before pc }
{
    if pc == 0 { None } else { Some(pc - 1) }
}

// The PC that is looked up, if there is one. The crashed function's own PC is at an instruction, every other PC is a return address: the
// mark tells them apart.
#[tactic(auto, using(crate::proofs::RegisterLaws::asked_unmarked, crate::proofs::RegisterLaws::asked_marked))]
pub fn asked_of(registers: Registers) -> Option<u64>
    ensures { result ≡ asked_of registers }
{
    let before = just_before(registers.pc);
    if registers.first == 0 {
        before
    } else {
        Some(registers.pc)
    }
}

#[tactic(auto, unfolding(crate::specs::Frame::base_value))]
pub fn base_value(registers: Registers, base: Base) -> u64
    ensures { result ≡ base_value registers base }
{
    match base {
        Base::Fp => registers.fp,
        Base::Sp => registers.sp,
    }
}

// CFA, where that is an address at all.
#[tactic(auto, using(crate::proofs::RegisterLaws::cfa_is))]
pub fn cfa_of(registers: Registers, row: Row) -> Option<u64>
    ensures { result ≡ in_memory (cfa_of registers row) }
{
    address_of(base_value(registers, row.base), row.cfa)
}

// The caller's SP, by CFA.
#[tactic(auto, unfolding(crate::specs::Frame::caller_sp))]
pub fn caller_sp(cfa: u64) -> u64
    ensures { result ≡ caller_sp cfa }
{
    cfa
}

// The CFA of the frame whose caller has this SP.
#[tactic(auto, unfolding(crate::specs::Frame::cfa_of_sp))]
pub fn cfa_of_sp(sp: u64) -> u64
    ensures { result ≡ cfa_of_sp sp }
{
    sp
}

// Whether the stack would not shrink: the caller's SP is below SP, or equal to it without the mark.
#[tactic(auto, using(crate::proofs::RegisterLaws::low_unmarked, crate::proofs::RegisterLaws::low_marked))]
pub fn is_low(registers: Registers, sp: u64) -> bool
    ensures { result ≡ is_low registers sp }
{
    if registers.first == 0 {
        sp <= registers.sp
    } else {
        sp < registers.sp
    }
}
