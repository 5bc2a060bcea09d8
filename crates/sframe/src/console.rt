// The two outputs, whether standard output was given up, and what the run comes to as far as it went.
use std::cell::Cell;
use std::rt::{Stderr, Stdout};

// What a run comes to, by what the command `sframe` ends with. The highest counts.
#[derive(Clone, Copy, PartialEq, Eq, PartialOrd, Ord)]
pub enum Status {
    Given,
    Refused,
    Wrong,
}

#[derive(Drop)]
pub struct Console {
    pub out: Stdout,
    pub err: Stderr,
    given_up: Cell<bool>,
    status: Cell<Status>,
}

impl Console {
    pub fn new(out: Stdout, err: Stderr) -> Console {
        Console {
            out,
            err,
            given_up: Cell::new(false),
            status: Cell::new(Status::Given),
        }
    }

    // Whether standard output was given up, behind a write that failed.
    pub fn is_given_up(&self) -> bool {
        self.given_up.get()
    }

    pub fn give_up(&self) {
        self.given_up.set(true);
    }

    pub fn status(&self) -> Status {
        self.status.get()
    }

    // The run comes to this, unless it came to a higher one before.
    pub fn raise(&self, status: Status) {
        self.status.set(self.status.get().max(status));
    }
}
