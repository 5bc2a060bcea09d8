// A row of a function: its length, and the row as a value, with the place of RA and of FP each one of two kinds.
ghost use Rattle.std.specs.Prelude.{◌&&◌, ◌≡◌, ◌+◌, ◌*◌, ◌^◌, ◌≤◌, ◌<◌, length};
ghost use Rattle.numbers.specs.Field.{field_of};
ghost use Rattle.section.specs.Row.{info_of, base_of, count_of, offset_size_of, signed_bit, offsets_length, row_length, offset_in, place_in, ra_in, row_of};
ghost use Rattle.section.specs.Inner.Reading.{Readable, Announced};

use crate::header::bit_of;
use crate::shape::Shape;
use numbers::field::{Order, field_at, u8_at, width_of};
use numbers::offset::{Offset, offset_at};

// What CFA counts from.
#[derive(Clone, Copy)]
pub enum Base {
    Fp,
    Sp,
}

// Where a register was saved: in the register itself, or at an offset from CFA.
#[derive(Clone, Copy)]
pub enum Place {
    Register,
    AtOffset(Offset),
}

#[derive(Clone, Copy)]
pub struct Row {
    pub start: u32,
    pub base: Base,
    pub cfa: Offset,
    pub ra: Place,
    pub fp: Place,
    pub signed: bool,
}

// The start of the row at `at`. Of the row nothing else is read.
pub fn row_start_at(area: &[u8], order: Order, code: usize, at: usize) -> u64
    requires { (code ≤ 2) × (at + 2 ^ code ≤ length area.now) }
    ensures { result ≡ field_of area.now at (2 ^ code) order }
{
    field_at(area, at, code, order) as u64
}

// The info byte of the row at `at`.
#[tactic(auto, unfolding(crate::specs::Row::info_of))]
pub fn info_at(area: &[u8], code: usize, at: usize) -> u8
    requires { (code ≤ 2) × (at + 2 ^ code + 1 ≤ length area.now) }
    ensures { result ≡ info_of area.now code at }
{
    u8_at(area, at + width_of(code))
}

// The parts of an info byte.
#[tactic(auto, unfolding(crate::specs::Row::base_of))]
fn base_of(info: u8) -> Base
    ensures { result ≡ base_of info }
{
    if bit_of(0, info) { Base::Sp } else { Base::Fp }
}

#[tactic(auto, unfolding(crate::specs::Row::count_of))]
pub fn count_of(info: u8) -> u8
    ensures { result ≡ count_of info }
{
    info / 2 % 16
}

#[tactic(auto, unfolding(crate::specs::Row::offset_size_of))]
pub fn offset_size_of(info: u8) -> u8
    ensures { result ≡ offset_size_of info }
{
    info / 32 % 4
}

// Whether the return address is signed, where the ABI knows such a thing.
#[tactic(auto, unfolding(crate::specs::Row::signed_bit))]
fn is_signed(signs: bool, info: u8) -> bool
    ensures { result ≡ signs && signed_bit info }
{
    signs && bit_of(7, info)
}

// How many bytes the offsets have that an info byte announces: at most 15 of 8 bytes, if any info byte is taken.
#[tactic(auto, using(crate::proofs::OffsetLaws::offsets_below, crate::proofs::OffsetLaws::size_below), unfolding(crate::specs::Row::offsets_length))]
fn offsets_length(info: u8) -> usize
    ensures value { result ≡ offsets_length info }
    ensures range { result ≤ 120 }
{
    count_of(info) as usize * width_of(offset_size_of(info) as usize)
}

// How many bytes the row at `at` has.
#[tactic(auto, unfolding(crate::specs::Row::row_length))]
pub fn row_length(area: &[u8], code: usize, at: usize) -> usize
    requires { (code ≤ 2) × (at + 2 ^ code + 1 ≤ length area.now) }
    ensures { result ≡ row_length area.now code at }
{
    width_of(code) + 1 + offsets_length(info_at(area, code, at))
}

// Offset k, counted from 0, of those that begin at `from`.
#[tactic(auto, unfolding(crate::specs::Row::offset_in))]
fn offset_in(area: &[u8], order: Order, size: usize, from: usize, k: usize) -> Offset
    requires { (size ≤ 2) × (from + k * 2 ^ size + 2 ^ size ≤ length area.now) }
    ensures { result ≡ offset_in area.now order size from k }
{
    offset_at(area, from + k * width_of(size), size, order)
}

// The place that offset k names, where the row has so many.
#[tactic(auto, using(crate::proofs::OffsetLaws::offset_within_lem), unfolding(crate::specs::Row::place_in))]
fn place_in(area: &[u8], order: Order, info: u8, from: usize, k: u8) -> Place
    requires { Announced area.now info from }
    ensures { result ≡ place_in area.now order info from k }
{
    if k < count_of(info) {
        Place::AtOffset(offset_in(area, order, offset_size_of(info) as usize, from, k as usize))
    } else {
        Place::Register
    }
}

#[tactic(auto, unfolding(crate::specs::Row::ra_in))]
fn ra_in(area: &[u8], shape: Shape, info: u8, from: usize) -> Place
    requires { Announced area.now info from }
    ensures { result ≡ ra_in area.now shape info from }
{
    if shape.usesfixed {
        Place::AtOffset(shape.fixedra)
    } else {
        place_in(area, shape.order, info, from, 1)
    }
}

// The row at `at`.
#[tactic(auto, using(crate::proofs::OffsetLaws::offsets_of), unfolding(crate::specs::Row::row_of, crate::specs::Row::row_start))]
pub fn row_at(area: &[u8], shape: Shape, code: usize, at: usize) -> Row
    requires { Readable area.now code at }
    ensures { result ≡ row_of area.now shape code at }
{
    let order = shape.order;
    let info = info_at(area, code, at);
    let from = at + width_of(code) + 1;
    Row {
        start: field_at(area, at, code, order),
        base: base_of(info),
        cfa: offset_in(area, order, offset_size_of(info) as usize, from, 0),
        ra: ra_in(area, shape, info, from),
        fp: place_in(area, order, info, from, shape.fpindex),
        signed: is_signed(shape.signs, info),
    }
}
