// The exact sum of a base and an offset, told where it is no address.
ghost use Rattle.std.specs.Prelude.{◌≡◌};
ghost use Rattle.explain.specs.Computed.Sum.{sum_up, sum_down, sum_of};

use numbers::offset::{Offset, Shift, shift_of};

// An address, or by how much the sum is below 0 or above 2^64 - 1.
#[derive(Clone, Copy)]
pub enum Sum {
    At(u64),
    Below(u64),
    Above(u64),
}

#[tactic(auto, unfolding(crate::specs::Computed::Sum::sum_up))]
fn raised_by(base: u64, by: u64) -> Sum
    ensures { result ≡ sum_up base by }
{
    let room = u64::MAX - base;
    if by <= room {
        Sum::At(base + by)
    } else {
        Sum::Above(by - room)
    }
}

#[tactic(auto, unfolding(crate::specs::Computed::Sum::sum_down))]
fn lowered_by(base: u64, by: u64) -> Sum
    ensures { result ≡ sum_down base by }
{
    if by <= base {
        Sum::At(base - by)
    } else {
        Sum::Below(by - base)
    }
}

// Never wrapped.
#[tactic(auto, unfolding(crate::specs::Computed::Sum::sum_of, crate::specs::Computed::Sum::sum_by))]
pub fn sum_of(base: u64, offset: Offset) -> Sum
    ensures { result ≡ sum_of base offset.by }
{
    match shift_of(offset) {
        Shift::Up(by) => raised_by(base, by),
        Shift::Down(by) => lowered_by(base, by),
    }
}
