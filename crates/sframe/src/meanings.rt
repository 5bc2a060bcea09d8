// The numbers by which a refusal or an ending is told, and what each means. The library numbers its rules, causes and faults; every
// other number stands here alone.
use accept::verdict::Rule;
use ask::answer::AskRefusal;
use caller::registers::{FrameCause, StepCause};
use explain::why::NotFound;
use lookup::answer::Unfound;
use std::fmt;
use trace::answer::{DoorFault, Ending};

#[derive(Clone, Copy)]
pub struct Meant {
    number: u64,
    meaning: &'static str,
}

impl fmt::Display for Meant {
    fn fmt<W: fmt::Write>(&self, f: &mut fmt::Formatter<W>) -> fmt::Result {
        let Meant { number, meaning } = *self;
        write!(f, "{number}, {meaning}")
    }
}

impl From<Rule> for Meant {
    fn from(rule: Rule) -> Meant {
        let meaning = match rule {
            Rule::Short => "fewer than 28 bytes",
            Rule::Long => "more than 16,777,216 bytes",
            Rule::Magic => "the magic is neither byte order's",
            Rule::Version => "the version is not 2",
            Rule::Flags => "a flag outside 0x07 is set",
            Rule::Abi => "the ABI is not 1, 2 or 3, or disagrees with the byte order",
            Rule::Fixed => "the fixed FP and RA offsets are not those of the ABI",
            Rule::Sizes => "the function table, the row area and the length do not fit together",
            Rule::EntryInfo => "an entry's info has bit 6 or 7 set, or a row type above 2",
            Rule::RepeatSize => "an entry has repeated blocks of size 0",
            Rule::RowsInside => "the rows of an entry lie outside the row bytes",
            Rule::RowInfo => "a row's info has offset size 3, or a count that is not allowed",
            Rule::RowsRising => "a row start is not above the one before it",
            Rule::Sorted =>
                "the sorted flag is set, and a start is below the end of the entry before it",
            Rule::RowSum => "the row counts of all entries do not add up to the header's",
        };
        Meant {
            number: rule.number(),
            meaning,
        }
    }
}

impl From<FrameCause> for Meant {
    fn from(cause: FrameCause) -> Meant {
        let meaning = match cause {
            FrameCause::NoFunction => "no function covers the PC",
            FrameCause::Dispute => "two or more functions cover the PC",
            FrameCause::NoRow => "no row of the function starts at or below the PC",
            FrameCause::Signed => "the return address is signed, and no mask says by which bits",
            FrameCause::CfaOutside => "CFA is outside 0 to 2^64 - 1",
            FrameCause::CfaLow => "CFA is below SP, or equal to it without the first-frame mark",
            FrameCause::RaLost => "RA has no place: only the first frame has it in LR",
            FrameCause::WordOutside => "a needed word is not wholly inside the stack window",
        };
        Meant {
            number: cause.number(),
            meaning,
        }
    }
}

impl From<StepCause> for Meant {
    fn from(cause: StepCause) -> Meant {
        match cause {
            StepCause::Window => Meant {
                number: cause.number(),
                meaning: "the stack window ends above 2^64",
            },
            StepCause::Unsound(refusal) => Meant::from(refusal.rule),
            StepCause::Frame(cause) => Meant::from(cause),
        }
    }
}

// What a lookup is refused with, a step is too.
impl From<Unfound> for Meant {
    fn from(unfound: Unfound) -> Meant {
        match unfound {
            Unfound::NoFunction => Meant::from(FrameCause::NoFunction),
            Unfound::Dispute { .. } => Meant::from(FrameCause::Dispute),
            Unfound::NoRow { .. } => Meant::from(FrameCause::NoRow),
        }
    }
}

impl From<NotFound> for Meant {
    fn from(why: NotFound) -> Meant {
        match why {
            NotFound::NoFunction { .. } => Meant::from(FrameCause::NoFunction),
            NotFound::Dispute => Meant::from(FrameCause::Dispute),
            NotFound::NoRow { .. } => Meant::from(FrameCause::NoRow),
        }
    }
}

// With 21 nothing is said of the functions that were not landed on.
impl From<AskRefusal> for Meant {
    fn from(refusal: AskRefusal) -> Meant {
        match refusal {
            AskRefusal::Unsound(rule) => Meant::from(rule),
            AskRefusal::NoFunction { .. } => Meant {
                number: FrameCause::NoFunction.number(),
                meaning: "no function that covers the PC was landed on",
            },
            AskRefusal::NoRow { .. } => Meant::from(FrameCause::NoRow),
            AskRefusal::Damaged { .. } => Meant {
                number: 44,
                meaning: "the function landed on covers the PC and breaks one of the rules 9 to 13",
            },
            AskRefusal::Unsorted => Meant {
                number: 45,
                meaning: "the sorted flag is not set, and only a sorted section can be asked",
            },
        }
    }
}

impl From<DoorFault> for Meant {
    fn from(fault: DoorFault) -> Meant {
        let meaning = match fault {
            DoorFault::Window => return Meant::from(StepCause::Window),
            DoorFault::Limit => "the limit is above 256",
            DoorFault::Words => "the buffer has fewer than 3 words for each frame of the limit",
        };
        Meant {
            number: fault.number(),
            meaning,
        }
    }
}

impl From<Ending> for Meant {
    fn from(ending: Ending) -> Meant {
        match ending {
            Ending::Outermost => Meant {
                number: 30,
                meaning: "RA is 0: the outermost frame",
            },
            Ending::Full => Meant {
                number: 31,
                meaning: "the limit is full",
            },
            Ending::Refused(cause) => Meant::from(cause),
        }
    }
}
