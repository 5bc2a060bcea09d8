// Rows, registers and broken rules as the lines of what this program is expected to say show them.
use accept::verdict::Refusal;
use caller::registers::Registers;
use section::row::{Base, Place, Row};
use std::fmt;

// The rule that a section breaks, and the entry's index.
#[derive(Clone, Copy)]
pub struct Broken(pub Refusal);

impl fmt::Display for Broken {
    fn fmt<W: fmt::Write>(&self, f: &mut fmt::Formatter<W>) -> fmt::Result {
        let number = self.0.rule.number();
        let index = self.0.index;
        write!(f, "{number} at {index}")
    }
}

// Registers, in 16 hexadecimal digits each.
#[derive(Clone, Copy)]
pub struct Words(pub Registers);

impl fmt::Display for Words {
    fn fmt<W: fmt::Write>(&self, f: &mut fmt::Formatter<W>) -> fmt::Result {
        let Registers {
            pc,
            sp,
            fp,
            lr,
            first,
        } = self.0;
        write!(f, "{pc:016x} {sp:016x} {fp:016x} {lr:016x} {first:016x}")
    }
}

// Where a register is saved. An offset has its sign, and 0 is +0.
#[derive(Clone, Copy)]
struct Saved(Place);

impl fmt::Display for Saved {
    fn fmt<W: fmt::Write>(&self, f: &mut fmt::Formatter<W>) -> fmt::Result {
        match self.0 {
            Place::Register => f.write_str("register"),
            Place::AtOffset(offset) => write!(f, "cfa{:+}", offset.by),
        }
    }
}

// A row in numbers.
#[derive(Clone, Copy)]
pub struct Shown(pub Row);

impl fmt::Display for Shown {
    fn fmt<W: fmt::Write>(&self, f: &mut fmt::Formatter<W>) -> fmt::Result {
        let row = self.0;
        let start = row.start;
        let base = match row.base {
            Base::Fp => "fp",
            Base::Sp => "sp",
        };
        let cfa = row.cfa.by;
        let ra = Saved(row.ra);
        let fp = Saved(row.fp);
        let signed = row.signed as u8;
        write!(
            f,
            "start {start} cfa {base}{cfa:+} ra {ra} fp {fp} signed {signed}"
        )
    }
}
