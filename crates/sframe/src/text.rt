// Values as text.
use numbers::offset::{Offset, Shift, shift_of};
use section::row::{Base, Place, Row};
use std::fmt;

// So many of a thing, whose name takes an s where there is not one of them.
#[derive(Clone, Copy)]
pub struct Count(pub u64, pub &'static str);

impl fmt::Display for Count {
    fn fmt<W: fmt::Write>(&self, f: &mut fmt::Formatter<W>) -> fmt::Result {
        let Count(n, thing) = *self;
        let ending = if n == 1 { "" } else { "s" };
        write!(f, "{n} {thing}{ending}")
    }
}

// How far it is and in which direction, in hexadecimal, and 0 as +0x0.
#[derive(Clone, Copy)]
pub struct Distance(pub Shift);

impl fmt::Display for Distance {
    fn fmt<W: fmt::Write>(&self, f: &mut fmt::Formatter<W>) -> fmt::Result {
        match self.0 {
            Shift::Up(by) => write!(f, "+0x{by:x}"),
            Shift::Down(by) => write!(f, "-0x{by:x}"),
        }
    }
}

// An offset behind what it counts from, with its sign, and 0 as + 0.
#[derive(Clone, Copy)]
pub struct Moved(pub Offset);

impl fmt::Display for Moved {
    fn fmt<W: fmt::Write>(&self, f: &mut fmt::Formatter<W>) -> fmt::Result {
        match shift_of(self.0) {
            Shift::Up(by) => write!(f, " + {by}"),
            Shift::Down(by) => write!(f, " - {by}"),
        }
    }
}

// A base register.
#[derive(Clone, Copy)]
pub struct Named(pub Base);

impl fmt::Display for Named {
    fn fmt<W: fmt::Write>(&self, f: &mut fmt::Formatter<W>) -> fmt::Result {
        match self.0 {
            Base::Fp => f.write_str("FP"),
            Base::Sp => f.write_str("SP"),
        }
    }
}

// What CFA is by a row.
#[derive(Clone, Copy)]
pub struct Cfa(pub Row);

impl fmt::Display for Cfa {
    fn fmt<W: fmt::Write>(&self, f: &mut fmt::Formatter<W>) -> fmt::Result {
        let base = Named(self.0.base);
        let offset = Moved(self.0.cfa);
        write!(f, "CFA is {base}{offset}")
    }
}

// Where a register was saved; the text says where it is if it was not.
#[derive(Clone, Copy)]
pub struct Saved(pub Place, pub &'static str);

impl fmt::Display for Saved {
    fn fmt<W: fmt::Write>(&self, f: &mut fmt::Formatter<W>) -> fmt::Result {
        let Saved(place, unsaved) = *self;
        match place {
            Place::Register => f.write_str(unsaved),
            Place::AtOffset(offset) => write!(f, "at CFA{}", Moved(offset)),
        }
    }
}
