// The header: its single bytes, its numbers of four bytes, and what everything after check 8 needs of both.
ghost use Rattle.std.specs.Prelude.{◌≡◌, ◌+◌, ◌≤◌, ◌<◌, length};
ghost use Rattle.numbers.specs.Field.{byte_of};
ghost use Rattle.numbers.specs.Signed.{offset_of};
ghost use Rattle.section.specs.Header.{bit_of, magic_in, order_of, marks_of, sizes_of, layout_of};

use crate::shape::{Abi, abi_of};
use numbers::field::{Order, u8_at, u16_at, u32_at};
use numbers::offset::{Offset, offset_of};

// Bytes 2 to 7. The ABI is the code as it stands.
#[derive(Clone, Copy)]
pub struct Marks {
    pub version: u8,
    pub flags: u8,
    pub abi: u8,
    pub fp: Offset,
    pub ra: Offset,
    pub auxiliary: u8,
}

// Bytes 8 to 27.
#[derive(Clone, Copy)]
pub struct Sizes {
    pub functions: u32,
    pub rows: u32,
    pub bytes: u32,
    pub tableoffset: u32,
    pub areaoffset: u32,
}

// What is needed once the header is sound: `table` and `area` are places in the section.
#[derive(Clone, Copy)]
pub struct Layout {
    pub abi: Abi,
    pub functions: u32,
    pub rows: u32,
    pub sorted: bool,
    pub relative: bool,
    pub table: u64,
    pub area: u64,
}

// Bit k of a byte.
#[tactic(auto, unfolding(crate::specs::Header::bit_of))]
pub fn bit_of(k: u32, byte: u8) -> bool
    requires { k < 8 }
    ensures { result ≡ bit_of k byte }
{
    (byte >> k) % 2 == 1
}

// Whether the first two bytes make the magic in this order.
#[tactic(auto, unfolding(crate::specs::Header::magic_in))]
pub fn magic_in(section: &[u8], order: Order) -> bool
    requires { 28 ≤ length section.now }
    ensures { result ≡ magic_in section.now order }
{
    u16_at(section, 0, order) == 0xdee2
}

#[tactic(auto, unfolding(crate::specs::Header::order_of))]
pub fn order_at(section: &[u8]) -> Order
    requires { 28 ≤ length section.now }
    ensures { result ≡ order_of section.now }
{
    if magic_in(section, Order::Little) {
        Order::Little
    } else {
        Order::Big
    }
}

// A signed number of one byte.
fn fixed_at(section: &[u8], at: usize) -> Offset
    requires { at + 1 ≤ length section.now }
    ensures { result ≡ offset_of 1 (byte_of section.now at) }
{
    offset_of(u8_at(section, at) as u32, 0)
}

#[tactic(auto, unfolding(crate::specs::Header::marks_of))]
pub fn marks_at(section: &[u8]) -> Marks
    requires { 28 ≤ length section.now }
    ensures { result ≡ marks_of section.now }
{
    Marks {
        version: u8_at(section, 2),
        flags: u8_at(section, 3),
        abi: u8_at(section, 4),
        fp: fixed_at(section, 5),
        ra: fixed_at(section, 6),
        auxiliary: u8_at(section, 7),
    }
}

#[tactic(auto, unfolding(crate::specs::Header::sizes_of))]
#[inline(always)]
pub fn sizes_at(section: &[u8], order: Order) -> Sizes
    requires { 28 ≤ length section.now }
    ensures { result ≡ sizes_of section.now order }
{
    Sizes {
        functions: u32_at(section, 8, order),
        rows: u32_at(section, 12, order),
        bytes: u32_at(section, 16, order),
        tableoffset: u32_at(section, 20, order),
        areaoffset: u32_at(section, 24, order),
    }
}

#[tactic(auto, unfolding(crate::specs::Header::layout_from, crate::specs::Header::layout_of))]
pub fn layout_at(section: &[u8]) -> Layout
    requires { 28 ≤ length section.now }
    ensures { result ≡ layout_of section.now }
{
    let marks = marks_at(section);
    let sizes = sizes_at(section, order_at(section));
    let table = 28 + marks.auxiliary as u64;
    Layout {
        abi: abi_of(marks.abi),
        functions: sizes.functions,
        rows: sizes.rows,
        sorted: bit_of(0, marks.flags),
        relative: bit_of(2, marks.flags),
        table,
        area: table + 20 * sizes.functions as u64,
    }
}
