// Signed offsets: decoded in one place, passed whole, and unpacked in one place into unsigned numbers.
ghost use Rattle.std.specs.Prelude.{◌≡◌, ◌+◌, ◌≤◌, ◌^◌, length};
ghost use Rattle.numbers.specs.Field.{field_of};
ghost use Rattle.numbers.specs.Signed.{offset_of};
ghost use Rattle.numbers.specs.Inner.Shift.{shift_of};

use crate::field::{Order, field_at};

#[derive(Clone, Copy)]
pub struct Offset {
    pub by: i64,
}

#[derive(Clone, Copy)]
pub enum Shift {
    Up(u64),
    Down(u64),
}

// 256 to the width that a code names.
fn full_of(code: usize) -> u64
    requires { code ≤ 2 }
    ensures { result ≡ 256 ^ (2 ^ code) }
{
    match code {
        0 => 0x100,
        1 => 0x1_0000,
        _ => 0x1_0000_0000,
    }
}

// The signed number that an unsigned one of 1, 2 or 4 bytes stands for.
pub fn offset_of(number: u32, code: usize) -> Offset
    requires { code ≤ 2 }
    ensures { result ≡ offset_of (2 ^ code) number }
{
    let full = full_of(code);
    let n = number as u64;
    if n < full / 2 {
        Offset { by: n as i64 }
    } else {
        Offset {
            by: n as i64 - full as i64,
        }
    }
}

// The signed number of 1, 2 or 4 bytes at `at`, by the code of its width. The code is told apart once, so that each way is compiled
// for its own width.
pub fn offset_at(bytes: &[u8], at: usize, code: usize, order: Order) -> Offset
    requires { (code ≤ 2) × (at + 2 ^ code ≤ length bytes.now) }
    ensures { result ≡ offset_of (2 ^ code) (field_of bytes.now at (2 ^ code) order) }
{
    match code {
        0 => offset_of(field_at(bytes, at, 0, order), 0),
        1 => offset_of(field_at(bytes, at, 1, order), 1),
        _ => offset_of(field_at(bytes, at, 2, order), 2),
    }
}

// The one place where an offset becomes an unsigned number.
pub fn shift_of(offset: Offset) -> Shift
    ensures { result ≡ shift_of offset.by }
{
    let by = offset.by;
    if by < 0 {
        Shift::Down((-1 - by) as u64 + 1)
    } else {
        Shift::Up(by as u64)
    }
}
