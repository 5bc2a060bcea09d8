// Text and numbers on standard output, and on standard error what is wrong with a command line, or may help.
use crate::console::Console;
use crate::status::tell_wrong;
use std::io::{Print, Write};
use std::os::fd::AsFd;
use std::{fmt, io, str};

// The system's number for a descriptor that is closed, or not open for what is asked of it.
const BAD_DESCRIPTOR: i32 = 9;

// Whether standard output is open, which it is not behind a write that failed. One that is open can be had a second time.
pub fn is_output_open(console: &Console) -> bool {
    if console.is_given_up() {
        return false;
    }
    match console.out.as_fd().try_clone_to_owned() {
        Ok(_second) => true,
        Err(error) => !is_bad_descriptor(&error),
    }
}

fn is_bad_descriptor(error: &io::Error) -> bool {
    error.raw_os_error() == Some(BAD_DESCRIPTOR)
}

// One that is open, but not for writing. Where it is closed, that was told before.
fn close_unwritable(console: &Console) {
    if is_output_open(console) {
        note(console, "sframe: standard output is not open for writing\n");
        console.give_up();
        tell_wrong(console);
    }
}

// A write that failed is told once: standard output is given up with it, so that nothing stands behind a gap, and nothing more is
// written.
fn keep(console: &Console, written: io::Result<()>) {
    let Err(error) = written else {
        return;
    };
    if is_bad_descriptor(&error) {
        close_unwritable(console);
        return;
    }
    console.give_up();
    complain_of_error(console, "sframe: standard output", error);
}

pub fn say<T: fmt::Display + Drop>(console: &Console, text: T) {
    if !console.is_given_up() {
        keep(console, console.out.print(text));
    }
}

// Bytes that were put together before.
pub fn say_bytes(console: &Console, bytes: &[u8]) {
    if !console.is_given_up() {
        keep(console, console.out.write_all(bytes));
    }
}

// A part of a message on standard error. Where that cannot be written, there is nowhere to say so.
pub fn note<T: fmt::Display + Drop>(console: &Console, text: T) {
    let _ = console.err.print(text);
}

// The last part of a message about what is wrong, or all of it.
pub fn complain<T: fmt::Display + Drop>(console: &Console, text: T) {
    note(console, text);
    tell_wrong(console);
}

// The bytes that an error says of itself, at most.
const MESSAGE: usize = 256;

// An error as the system words it, without the number that std puts behind that.
#[derive(Drop)]
struct Worded(io::Error);

impl fmt::Display for Worded {
    fn fmt<W: fmt::Write>(&self, f: &mut fmt::Formatter<W>) -> fmt::Result {
        let mut room = [0u8; MESSAGE];
        let mut rest: &mut [u8] = &mut room;
        let error = &self.0;
        let _ = write!(rest, "{error}");
        let end = MESSAGE.saturating_sub(rest.len());
        let said = room.get(..end).unwrap_or(&[]);
        let said = str::from_utf8(said).unwrap_or("");
        let message = said
            .split_once(" (os error ")
            .map_or(said, |(front, _)| front);
        f.write_str(message)
    }
}

// What failed, as the caller names it, and what the system says of the error.
pub fn complain_of_error<T: fmt::Display + Drop>(console: &Console, what: T, error: io::Error) {
    let worded = Worded(error);
    complain(console, format_args!("{what}: {worded}\n"));
}

// An argument as it was given. A byte that a terminal might obey is written as its number.
#[derive(Clone, Copy)]
pub struct Given<'a>(pub &'a [u8]);

impl fmt::Display for Given<'_> {
    fn fmt<W: fmt::Write>(&self, f: &mut fmt::Formatter<W>) -> fmt::Result {
        for byte in self.0 {
            match *byte {
                b'\\' => f.write_str("\\\\")?,
                b' '..=b'~' => f.write_char(*byte as char)?,
                _ => write!(f, "\\x{byte:02x}")?,
            }
        }
        Ok(())
    }
}
