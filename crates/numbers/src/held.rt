// Starts of functions and the distance they are compared with, each held 2^32 above its exact value, so that it is never
// below 0 and every comparison is of plain u64.
ghost use Rattle.std.specs.Prelude.{◌≡◌, ◌<◌, ◌^◌};
ghost use Rattle.numbers.specs.Inner.Held.{rank, raised, near, Held};
ghost use Rattle.numbers.specs.Start.{start_at, distance};

use crate::offset::Offset;

// How far above its value a start is held: 2^32.
pub const LIFT: u64 = 0x1_0000_0000;
// Above every start and every end, as they are held: 2^34.
pub const FAR: u64 = 0x4_0000_0000;
// The least field of 4 bytes that stands for a negative number: 2^31.
const NEGATIVE: u64 = 0x8000_0000;

// How far a field is above the least one, -2^31: the remainder changes its sign bit.
#[tactic(auto, unfolding(crate::specs::Inner::Held::rank))]
pub fn rank_of(field: u32) -> u64
    ensures value { result ≡ rank field }
    ensures range { result < 2 ^ 32 }
{
    (field as u64 + NEGATIVE) % LIFT
}

// A start from its field and what it counts from: the field's own position under flag 0x4, else 0.
#[tactic(auto, using(crate::proofs::HeldLaws::held_rank))]
pub fn held_start(field: u32, position: u32) -> u64
    ensures value { result ≡ raised (start_at field position) }
    ensures range { Held (start_at field position) result }
{
    rank_of(field) + NEGATIVE + position as u64
}

// The same start as it is, an offset from the section's first byte.
pub fn start_at(field: u32, position: u32) -> Offset
    ensures { result.by ≡ start_at field position }
{
    Offset {
        by: held_start(field, position) as i64 - LIFT as i64,
    }
}

// PC minus section address, exact and never wrapped; beyond every start and end it is kept at 0 or at 2^34.
#[tactic(auto, using(crate::proofs::HeldLaws::near_by))]
pub fn near_of(address: u64, pc: u64) -> u64
    ensures { result ≡ near (distance address pc) }
{
    if address <= pc {
        let up = pc - address;
        if FAR - LIFT <= up { FAR } else { up + LIFT }
    } else {
        let down = address - pc;
        if LIFT <= down { 0 } else { LIFT - down }
    }
}
