// A function entry: its fields as they stand, with its own place, and its effective start.
ghost use Rattle.std.specs.Prelude.{◌≡◌, ◌+◌, ◌≤◌, length};
ghost use Rattle.numbers.specs.Inner.Held.{raised, Held};
ghost use Rattle.section.specs.Entry.{entry_of, type_of, repeats, position_at, start_of};

use crate::header::bit_of;
use numbers::field::{Order, u8_at, u32_at};
use numbers::held::{held_start, start_at};
use numbers::offset::Offset;

#[derive(Clone, Copy)]
pub struct Entry {
    pub place: u32,
    pub start: u32,
    pub size: u32,
    pub first: u32,
    pub rows: u32,
    pub info: u8,
    pub repeat: u8,
}

// The entry that stands at a place of the section. It is compiled into its callers: each keeps the fields it needs, and in registers.
#[inline(always)]
#[tactic(auto, unfolding(crate::specs::Entry::entry_of))]
pub fn entry_at(section: &[u8], order: Order, place: u32) -> Entry
    requires { place + 20 ≤ length section.now }
    ensures { result ≡ entry_of section.now order place }
{
    let at = place as usize;
    Entry {
        place,
        start: u32_at(section, at, order),
        size: u32_at(section, at + 4, order),
        first: u32_at(section, at + 8, order),
        rows: u32_at(section, at + 12, order),
        info: u8_at(section, at + 16),
        repeat: u8_at(section, at + 17),
    }
}

// The row type of an entry's info byte.
#[tactic(auto, unfolding(crate::specs::Entry::type_of))]
pub fn type_of(info: u8) -> usize
    ensures { result ≡ type_of info }
{
    (info % 16) as usize
}

// Whether an entry's info byte says that its block repeats.
#[tactic(auto, unfolding(crate::specs::Entry::repeats))]
pub fn does_repeat(info: u8) -> bool
    ensures { result ≡ repeats info }
{
    bit_of(4, info)
}

// What the start field at a place counts from: that place under flag 0x4, else the section.
#[tactic(auto, unfolding(crate::specs::Entry::position_at))]
pub fn position_at(relative: bool, place: u32) -> u32
    ensures { result ≡ position_at relative place }
{
    if relative { place } else { 0 }
}

// The effective start, held 2^32 above its value.
#[tactic(auto, unfolding(crate::specs::Entry::start_of))]
pub fn start_of(relative: bool, entry: Entry) -> u64
    ensures value { result ≡ raised (start_of relative entry) }
    ensures range { Held (start_of relative entry) result }
{
    held_start(entry.start, position_at(relative, entry.place))
}

// The effective start as it is.
#[tactic(auto, unfolding(crate::specs::Entry::start_of))]
pub fn exact_start(relative: bool, entry: Entry) -> Offset
    ensures { result.by ≡ start_of relative entry }
{
    start_at(entry.start, position_at(relative, entry.place))
}
