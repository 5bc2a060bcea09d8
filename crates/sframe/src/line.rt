// A line of a listing as it is put together: text and numbers at fixed columns of a room of blanks, so that it is written at once. With
// `Display` and widths a listing of an AArch64 section took 2.2 times as long, and most of that in the widths.
ghost use Rattle.std.specs.Prelude.{◌≤◌};

use crate::console::Console;
use crate::say::say_bytes;
use numbers::offset::{Offset, Shift, shift_of};

// As long as the longest line, with its end.
const WIDTH: usize = 80;

#[derive(Clone, Copy)]
pub struct Line {
    room: [u8; WIDTH],
}

impl Line {
    pub fn blank() -> Line {
        Line {
            room: [b' '; WIDTH],
        }
    }

    // Text from a column on, as far as there is room.
    pub fn put(&mut self, column: usize, text: &[u8]) {
        for (i, byte) in text.iter().enumerate() {
            if WIDTH <= i {
                return;
            }
            if WIDTH - i <= column {
                return;
            }
            self.room[column + i] = *byte;
        }
    }

    // One digit, just before a column.
    fn put_digit(&mut self, end: usize, digit: u8) {
        if end < 1 || WIDTH < end {
            return;
        }
        if digit < 10 {
            self.room[end - 1] = 48 + digit;
        } else if digit < 16 {
            self.room[end - 1] = 87 + digit;
        }
    }

    // A decimal number that ends before a column. The answer is the column of its first digit.
    pub fn put_number(&mut self, end: usize, number: u64) -> usize
        ensures { result ≤ end }
    {
        let mut rest = number;
        for k in 0..end {
            self.put_digit(end - k, (rest % 10) as u8);
            rest /= 10;
            if rest == 0 {
                return end - k - 1;
            }
        }
        0
    }

    // The last 8 hexadecimal digits of a number, before a column.
    fn put_hex(&mut self, end: usize, number: u64) {
        let mut rest = number;
        for k in 0..end.min(8) {
            self.put_digit(end - k, (rest % 16) as u8);
            rest /= 16;
        }
    }

    // A sign just before a column.
    fn put_sign(&mut self, end: usize, sign: &[u8]) {
        if 1 <= end {
            self.put(end - 1, sign);
        }
    }

    // An offset with its sign, decimal, that ends before a column.
    pub fn put_offset(&mut self, end: usize, offset: Offset) {
        match shift_of(offset) {
            Shift::Up(by) => {
                let first = self.put_number(end, by);
                self.put_sign(first, b"+");
            }
            Shift::Down(by) => {
                let first = self.put_number(end, by);
                self.put_sign(first, b"-");
            }
        }
    }

    // A start, at its own columns: its sign, 0x, and 8 hexadecimal digits.
    pub fn put_start(&mut self, start: Offset) {
        self.put(24, b"0x");
        match shift_of(start) {
            Shift::Up(by) => {
                self.put(23, b"+");
                self.put_hex(34, by);
            }
            Shift::Down(by) => {
                self.put(23, b"-");
                self.put_hex(34, by);
            }
        }
    }

    // Writes the line up to an end, in one piece.
    pub fn say(&mut self, console: &Console, end: usize) {
        if end < WIDTH {
            self.room[end] = b'\n';
            say_bytes(console, &self.room[..end + 1]);
        }
    }
}
