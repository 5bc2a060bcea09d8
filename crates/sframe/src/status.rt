// What a run comes to, for the command `sframe`, which starts this program: it listens on a descriptor of its own, and says so by a
// last argument. At its end the run says a 1 there where something is refused, a 2 where something is wrong, and behind it a 0: the
// highest digit counts.
ghost use Rattle.std.specs.Prelude.{◌≤◌, length};

use crate::console::{Console, Status};
use std::env::FillError;
use std::fs::OpenOptions;
use std::io::Write;
use std::rt::{Env, Files};

// The descriptor, which the last argument names.
const STATUS_FILE: &str = "/dev/fd/9";

// The most bytes of an argument that are looked at.
pub const ARGUMENT: usize = 4096;

// Argument i, put into a room: nothing where it is missing, or longer than the room.
pub fn argument<'a>(rt: &impl Env, i: usize, room: &'a mut [u8]) -> &'a [u8]
    ensures { length result.now ≤ length room.old }
{
    match rt.arg(i, room) {
        Ok(n) => &room[..n],
        Err(_) => &[],
    }
}

// How many arguments there are, with the program's name.
fn all_arguments(rt: &impl Env) -> usize {
    let mut first = [0u8; 1];
    for i in 0..usize::MAX {
        if let Err(FillError::NotPresent) = rt.arg(i, &mut first) {
            return i;
        }
    }
    usize::MAX
}

fn is_heard(rt: &impl Env) -> bool {
    let count = all_arguments(rt);
    let mut last = [0u8; ARGUMENT];
    1 < count && argument(rt, count - 1, &mut last) == b"status-on-9".as_slice()
}

// Where nobody listens to what is written, there is nowhere to say so.
fn tell(rt: &(impl Env + Files), digit: &[u8]) {
    if is_heard(rt)
        && let Ok(mut file) = OpenOptions::new().append(true).open(rt, STATUS_FILE)
    {
        let _ = file.write_all(digit);
    }
}

// The run came to its end.
pub fn tell_end(rt: &(impl Env + Files), console: &Console) {
    match console.status() {
        Status::Given => {}
        Status::Refused => tell(rt, b"1"),
        Status::Wrong => tell(rt, b"2"),
    }
    tell(rt, b"0");
}

// What was asked for is refused.
pub fn tell_refused(console: &Console) {
    console.raise(Status::Refused);
}

// The command line is wrong, or a file cannot be read, or the answer cannot be written.
pub fn tell_wrong(console: &Console) {
    console.raise(Status::Wrong);
}

// How many arguments a person gave, with the program's name.
pub fn argument_count(rt: &impl Env) -> usize {
    all_arguments(rt).saturating_sub(is_heard(rt) as usize)
}
