// What the stored cases of `replay` and `reasons` have in common: the words that they say where to begin by.
#![tactic(auto)]

ghost use Rattle.std.specs.Prelude.{◌≡◌, ◌+◌, ◌*◌, ◌≤◌, length};
ghost use Rattle.numbers.specs.Field.{field_of};
ghost use Rattle.numbers.specs.declared.field.Order.TheVariants.{Little};

use caller::registers::{Process, Registers};
use numbers::field::{Order, u64_at};

// Word k of bytes: 8 of them, little-endian.
pub fn word_in(bytes: &[u8], k: usize) -> u64
    requires { 8 * k + 8 ≤ length bytes.now }
    ensures { result ≡ field_of bytes.now (8 * k) 8 Little }
{
    u64_at(bytes, 8 * k, Order::Little)
}

// What eight words say: the section's address, the stack's address and the mask, then PC, SP, FP, LR and the mark.
pub fn start_in(bytes: &[u8]) -> (Process, Registers)
    requires { 64 ≤ length bytes.now }
    ensures section { result.0.section ≡ field_of bytes.now 0 8 Little }
    ensures stack { result.0.stack ≡ field_of bytes.now 8 8 Little }
    ensures mask { result.0.mask ≡ field_of bytes.now 16 8 Little }
    ensures pc { result.1.pc ≡ field_of bytes.now 24 8 Little }
    ensures sp { result.1.sp ≡ field_of bytes.now 32 8 Little }
    ensures fp { result.1.fp ≡ field_of bytes.now 40 8 Little }
    ensures lr { result.1.lr ≡ field_of bytes.now 48 8 Little }
    ensures first { result.1.first ≡ field_of bytes.now 56 8 Little }
{
    let process = Process {
        section: word_in(bytes, 0),
        stack: word_in(bytes, 1),
        mask: word_in(bytes, 2),
    };
    let registers = Registers {
        pc: word_in(bytes, 3),
        sp: word_in(bytes, 4),
        fp: word_in(bytes, 5),
        lr: word_in(bytes, 6),
        first: word_in(bytes, 7),
    };
    (process, registers)
}
