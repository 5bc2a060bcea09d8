// What a trace answers, and the frames that it writes.
ghost use Rattle.std.specs.Prelude.{◌≡◌, ◌+◌, ◌≤◌, length};
ghost use Rattle.trace.specs.Inner.Writing.{put};
ghost use Rattle.trace.specs.Frames.{frame_of, words_of};
ghost use Rattle.trace.specs.Told.{door_number};

use accept::verdict::Refusal;
use caller::registers::{FrameCause, Registers, cfa_of_sp};

// One frame: the three words that are written of it.
#[derive(Clone, Copy)]
pub struct Frame {
    pub cfa: u64,
    pub ra: u64,
    pub fp: u64,
}

// Why a walk ended.
#[derive(Clone, Copy)]
pub enum Ending {
    // 30: the last frame's RA is 0.
    Outermost,
    // 31: the limit is full.
    Full,
    // 21 to 28: the next step is refused.
    Refused(FrameCause),
}

// The ending, and how many frames were written.
#[derive(Clone, Copy)]
pub struct Traced {
    pub ending: Ending,
    pub frames: u64,
}

// What is tried before anything else.
#[derive(Clone, Copy)]
pub enum DoorFault {
    // 41: the stack window ends past the last address.
    Window,
    // 42: the limit is above the highest.
    Limit,
    // 43: the buffer has too few words for the limit.
    Words,
}

// Why there is no walk: nothing is written.
#[derive(Clone, Copy)]
pub enum TraceRefusal {
    // 41 to 43.
    Shut(DoorFault),
    // 1 to 15: the section breaks a rule.
    Unsound(Refusal),
}

impl DoorFault {
    pub fn number(self) -> u64
        ensures { result ≡ door_number self }
    {
        match self {
            DoorFault::Window => 41,
            DoorFault::Limit => 42,
            DoorFault::Words => 43,
        }
    }
}

// The frame of a step that yields these registers.
#[tactic(auto, unfolding(crate::specs::Frames::frame_of))]
pub fn frame_of(caller: Registers) -> Frame
    ensures { result ≡ frame_of caller }
{
    Frame {
        cfa: cfa_of_sp(caller.sp),
        ra: caller.pc,
        fp: caller.fp,
    }
}

// Writes the words of a frame from a place on.
#[tactic(auto, using(crate::proofs::BufferLaws::three_sets))]
pub fn write_frame(buffer: &mut [u64], at: usize, frame: Frame)
    requires { at + 3 ≤ length buffer.old }
    ensures { buffer.new ≡ put buffer.old at (words_of frame) }
{
    buffer[at] = frame.cfa;
    buffer[at + 1] = frame.ra;
    buffer[at + 2] = frame.fp;
}
