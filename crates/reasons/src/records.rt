// The stored records, which stand in the file one after the other.
//
// A record is ten words of 8 bytes, little-endian (the section's length, the stack's length, the section's address, the stack's address,
// the mask, PC, SP, FP, LR, the mark), the section's bytes, and the stack's.
ghost use Rattle.std.specs.Prelude.{◌≤◌, length, IfSome};
ghost use Rattle.std.specs.Iterator.{at_most};

use caller::registers::{Process, Registers};
use stored::{start_in, word_in};

#[derive(Clone, Copy)]
pub struct Record<'a> {
    pub process: Process,
    pub registers: Registers,
    pub section: &'a [u8],
    pub stack: &'a [u8],
}

// The records in turn. The last one is none where it is cut.
#[derive(Drop)]
pub struct Records<'a>(pub &'a [u8]);

impl<'a> Iterator for Records<'a> {
    type Item = Option<Record<'a>>;

    ghost remaining = { λ s. at_most (length s.0.now) };

    fn next(&mut self) -> Option<Option<Record<'a>>> {
        let (head, behind) = self.0.split_first_chunk::<80>()?;
        let (record, rest) = record_behind(head, behind).unzip();
        self.0 = rest.unwrap_or(&[]);
        Some(record)
    }
}

// The record that a head begins, and what stands behind the record.
fn record_behind<'a>(head: &[u8; 80], behind: &'a [u8]) -> Option<(Record<'a>, &'a [u8])>
    ensures { IfSome result (λ found. length found.1.now ≤ length behind.now) }
{
    let (section, behind) = behind.split_at_checked(word_in(head, 0) as usize)?;
    let (stack, behind) = behind.split_at_checked(word_in(head, 1) as usize)?;
    let (process, registers) = start_in(&head[16..]);
    let record = Record {
        process,
        registers,
        section,
        stack,
    };
    Some((record, behind))
}
