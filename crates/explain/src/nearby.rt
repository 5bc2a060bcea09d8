// The covered addresses nearest to a PC that no function covers. A function is compared by how it is held, so that each side is one
// search for the largest key: below, where a function ends; above, how far its start is from what is above every start.
ghost use Rattle.std.specs.Prelude.{◌≡◌, ◌*◌, ◌^◌, ◌≤◌, ◌<◌, ℤ, pos, ◌-ℤ◌};
ghost use Rattle.numbers.specs.Start.{distance};
ghost use Rattle.numbers.specs.Inner.Held.{Near};
ghost use Rattle.section.specs.Meaning.{entry_in, function_start};
ghost use Rattle.lookup.specs.Inner.Requires.{HeaderOf};
ghost use Rattle.explain.specs.Computed.Nearest.{tried, nearest_in};
ghost use Rattle.explain.specs.Inner.Keys.{side_key, key_by, better, held_of, nearest_of};

use crate::why::Covered;
use lookup::table::{Table, entry_in};
use numbers::held::{FAR, LIFT, near_of};
use numbers::offset::Offset;
use section::entry::start_of;
use section::header::{Layout, order_at};

// The two sides of a PC.
#[derive(Clone, Copy)]
pub enum Side {
    Below,
    Above,
}

// The largest key so far, and the lowest function that has it. Key 0 is none.
#[derive(Clone, Copy)]
pub struct Best {
    pub key: u64,
    pub function: u64,
}

// The key of a function that is not empty: 0 where it does not lie on that side.
#[tactic(auto, unfolding(crate::specs::Inner::Keys::side_key))]
fn side_key(side: Side, start: u64, size: u32, d: u64) -> u64
    requires { start ≤ 3 * 2 ^ 32 }
    ensures { result ≡ side_key side start size d }
{
    match side {
        Side::Below => {
            let end = start + size as u64;
            if end <= d { end } else { 0 }
        }
        Side::Above => { if d < start { FAR - start } else { 0 } }
    }
}

// An empty function covers nothing, and is never the nearest.
#[tactic(auto, unfolding(crate::specs::Inner::Keys::key_by))]
fn key_of(side: Side, start: u64, size: u32, d: u64) -> u64
    requires { start ≤ 3 * 2 ^ 32 }
    ensures { result ≡ key_by side start size d }
{
    if size == 0 {
        return 0;
    }
    side_key(side, start, size, d)
}

// The key of function i.
#[tactic(auto, using(crate::proofs::KeyLaws::key_small, crate::proofs::KeyLaws::key_tried))]
fn key_at(table: Table<'_>, side: Side, i: u64, d: u64) -> u64
    requires { i < table.layout.functions }
    ensures i_value { (z : ℤ) (best : Best) → Near z d → best.key ≤ 2 ^ 34 → nearest_of side (better best result i) ≡ tried side z (function_start table.entry.section.now i) (entry_in table.entry.section.now i).size i (nearest_of side best) }
    ensures range { d ≤ 2 ^ 34 → result ≤ 2 ^ 34 }
{
    let entry = entry_in(table.section, table.layout, table.order, i);
    key_of(side, start_of(table.layout.relative, entry), entry.size, d)
}

// A function with the same key comes too late: the lowest index stands.
#[tactic(auto, unfolding(crate::specs::Inner::Keys::better))]
fn better_of(best: Best, key: u64, i: u64) -> Best
    ensures { result ≡ better best key i }
{
    if best.key < key {
        return Best { key, function: i };
    }
    best
}

// The largest key of all functions.
#[tactic(auto, using(crate::proofs::EachLaws::each_ends), unfolding(crate::specs::Computed::Nearest::nearest_in, crate::specs::Inner::Keys::nearest_of))]
fn best_in(table: Table<'_>, side: Side, d: u64) -> Best
    requires { d ≤ 2 ^ 34 }
    ensures result_value { (z : ℤ) → Near z d → nearest_of side result ≡ nearest_in table.entry.section.now side z }
    ensures range { result.key ≤ 2 ^ 34 }
{
    let mut best = Best {
        key: 0,
        function: 0,
    };
    for i in 0..table.layout.functions as u64 {
        best = better_of(best, key_at(table, side, i, d), i);
    }
    best
}

// The address that a key stands for, as it is held: below, the last that the function covers; above, the first.
#[tactic(auto, unfolding(crate::specs::Inner::Keys::held_of))]
fn held_of(side: Side, key: u64) -> u64
    requires { (0 < key) × (key ≤ 2 ^ 34) }
    ensures value { result ≡ held_of side key }
    ensures range { result ≤ 2 ^ 34 }
{
    match side {
        Side::Below => key - 1,
        Side::Above => FAR - key,
    }
}

// An address as an offset from the section's first byte, from how it is held.
fn lowered(held: u64) -> Offset
    requires { held ≤ 2 ^ 34 }
    ensures { result.by ≡ pos held -ℤ pos (2 ^ 32) }
{
    Offset {
        by: held as i64 - LIFT as i64,
    }
}

#[tactic(auto, unfolding(crate::specs::Inner::Keys::nearest_of))]
fn nearest_of(side: Side, best: Best) -> Option<Covered>
    requires { best.key ≤ 2 ^ 34 }
    ensures { result ≡ nearest_of side best }
{
    if best.key == 0 {
        return None;
    }
    Some(Covered {
        offset: lowered(held_of(side, best.key)),
        function: best.function,
    })
}

// The covered address nearest to a PC on one side, where no function covers the PC itself.
#[tactic(auto, using(lookup::proofs::TableLaws::header_obeys, crate::proofs::KeyLaws::near_small))]
pub fn nearest_at(
    section: &[u8],
    layout: Layout,
    side: Side,
    address: u64,
    pc: u64,
) -> Option<Covered>
    requires { HeaderOf section.now layout }
    ensures { result ≡ nearest_in section.now side (distance address pc) }
{
    let table = Table {
        section,
        layout,
        order: order_at(section),
    };
    let best = best_in(table, side, near_of(address, pc));
    nearest_of(side, best)
}
