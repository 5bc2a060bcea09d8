// Exact addresses: a base plus a signed offset, and words of 8 bytes of a window that lies at an address.
ghost use Rattle.std.specs.Prelude.{◌≡◌};
ghost use Rattle.numbers.specs.Computed.Address.{address_of, window_fits, word_of};

use crate::field::{Order, u64_at};
use crate::offset::{Offset, Shift, shift_of};

// A base plus an offset, where that is an address at all.
#[tactic(auto, using(crate::proofs::AddressLaws::up_at, crate::proofs::AddressLaws::up_outside, crate::proofs::AddressLaws::down_at))]
pub fn address_of(base: u64, offset: Offset) -> Option<u64>
    ensures { result ≡ address_of base offset.by }
{
    match shift_of(offset) {
        Shift::Up(k) => {
            if k <= u64::MAX - base {
                Some(base + k)
            } else {
                None
            }
        }
        Shift::Down(k) => { if k <= base { Some(base - k) } else { None } }
    }
}

// Whether a window that lies at an address ends within memory.
#[tactic(auto, unfolding(crate::specs::Computed::Address::window_fits))]
pub fn window_fits(window: &[u8], lies: u64) -> bool
    ensures { result ≡ window_fits window.now lies }
{
    let length = window.len() as u64;
    // One byte less on both sides, since 2^64 is no u64.
    length == 0 || length - 1 <= u64::MAX - lies
}

// The word at an address, where it is wholly inside the window.
#[tactic(auto, unfolding(crate::specs::Computed::Address::wholly, crate::specs::Computed::Address::word_of))]
pub fn word_at(window: &[u8], lies: u64, at: u64, order: Order) -> Option<u64>
    ensures { result ≡ word_of window.now lies at order }
{
    let length = window.len() as u64;
    if at < lies || length < 8 {
        return None;
    }
    let place = at - lies;
    if length - 8 < place {
        None
    } else {
        Some(u64_at(window, place as usize, order))
    }
}
