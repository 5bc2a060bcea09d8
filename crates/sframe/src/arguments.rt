// What the arguments give: numbers, and files that are read. What is wrong with one is said on standard error.
ghost use Rattle.std.specs.Prelude.{◌≤◌, length, IfSome};

use crate::console::Console;
use crate::rooms::{LARGEST, Long, Room, in_rooms, read_into};
use crate::say::{Given, complain, complain_of_error, note};
use crate::status::{ARGUMENT, argument};
use digits::{parse, parse_decimal};
use std::env::FillError;
use std::io::{Read, Seek};
use std::rt::{Env, Files};
use std::{fs, io, str};

// The system's numbers for what is wrong with a name.
const TOO_LONG: i32 = 36;

const NOT_GIVEN: i32 = 22;

const NO_TEXT: i32 = 84;

// What is read from: standard input, or a file that has a name.
#[derive(Drop)]
enum Source<F> {
    Input,
    Named(F),
}

// A file that was opened: one that can be read only once is a pipe, or standard input, whatever that is.
#[derive(Drop)]
pub struct Opened<F> {
    source: Source<F>,
    pub once: bool,
}

// How a number is written: an address, or what is as wide as one, in hexadecimal, and a count in decimal.
#[derive(Clone, Copy)]
enum Written {
    Hexadecimal,
    Decimal,
}

impl Written {
    fn number_in(self, text: &[u8]) -> Option<u64> {
        match self {
            Written::Hexadecimal => parse(text),
            Written::Decimal => parse_decimal(text),
        }
    }

    fn form(self) -> &'static str {
        match self {
            Written::Hexadecimal => "a hexadecimal number of 1 to 16 digits",
            Written::Decimal => "a decimal number of 1 to 19 digits",
        }
    }
}

fn complain_of_number(console: &Console, name: &str, written: Written, text: &[u8]) {
    let form = written.form();
    let given = Given(text);
    complain(
        console,
        format_args!("sframe: {name} is not {form}, leading zeros aside: '{given}'\n"),
    );
}

// The number that argument i gives, unless what is wrong with it was told. `name` is what `sframe help` calls it.
fn given_at(
    rt: &impl Env,
    console: &Console,
    i: usize,
    name: &str,
    written: Written,
) -> Option<u64> {
    let mut room = [0u8; ARGUMENT];
    let (text, number) = match rt.arg(i, &mut room) {
        Ok(n) => (&room[..n], written.number_in(&room[..n])),
        Err(_) => (&room[..], None),
    };
    if number.is_none() {
        complain_of_number(console, name, written, text);
    }
    number
}

// An address, or what is as wide as one: hexadecimal.
pub fn number_given(rt: &impl Env, console: &Console, i: usize, name: &str) -> Option<u64> {
    given_at(rt, console, i, name, Written::Hexadecimal)
}

// How many, or which one: decimal.
pub fn count_given(rt: &impl Env, console: &Console, i: usize, name: &str) -> Option<u64> {
    given_at(rt, console, i, name, Written::Decimal)
}

// Whether argument i is this text.
pub fn is_argument(rt: &impl Env, i: usize, text: &[u8]) -> bool {
    let mut room = [0u8; ARGUMENT];
    argument(rt, i, &mut room) == text
}

// Whether argument i stands for standard input.
pub fn is_input(rt: &impl Env, i: usize) -> bool {
    is_argument(rt, i, b"-")
}

// Argument i as a part of a message.
pub fn note_given(rt: &impl Env, console: &Console, i: usize) {
    let mut room = [0u8; ARGUMENT];
    note(console, Given(argument(rt, i, &mut room)));
}

// The file that argument i names, as a part of a message.
pub fn note_file(rt: &impl Env, console: &Console, i: usize) {
    if is_input(rt, i) {
        note(console, "standard input");
        return;
    }
    note_given(rt, console, i);
}

// What went wrong with a file.
fn complain_of_file(console: &Console, name: &[u8], error: io::Error) {
    let name = Given(name);
    complain_of_error(console, format_args!("sframe: {name}"), error);
}

// A file that is longer than the largest room that can be had.
pub fn complain_of_length(rt: &impl Env, console: &Console, i: usize, room: Room) {
    let bytes = room.bytes();
    let reason = if bytes < LARGEST as u64 {
        "for which the stack limit leaves no room: 'ulimit -s' raises it"
    } else {
        "the most that this program reads"
    };
    note(console, "sframe: ");
    note_file(rt, console, i);
    complain(
        console,
        format_args!(": more than {bytes} bytes, {reason}\n"),
    );
}

// Opens a file for reading. A name that is no text, in UTF-8, is refused: files are opened by text alone.
pub fn open_read<R: Files>(rt: &R, name: &[u8]) -> io::Result<R::File> {
    match str::from_utf8(name) {
        Ok(name) => fs::open(rt, name),
        Err(_) => Err(io::Error::from_raw_os_error(NO_TEXT)),
    }
}

fn open_named<R: Files>(rt: &R, console: &Console, name: &[u8]) -> Option<Opened<R::File>> {
    if name == b"-".as_slice() {
        return Some(Opened {
            source: Source::Input,
            once: true,
        });
    }
    match open_read(rt, name) {
        Err(error) => {
            complain_of_file(console, name, error);
            None
        }
        Ok(mut file) => {
            let once = file.stream_position().is_err();
            Some(Opened {
                source: Source::Named(file),
                once,
            })
        }
    }
}

// Why an argument could not be looked at.
fn error_of(unread: FillError) -> io::Error {
    match unread {
        FillError::TooLong => io::Error::from_raw_os_error(TOO_LONG),
        FillError::NotPresent => io::Error::from_raw_os_error(NOT_GIVEN),
    }
}

// Opens the file that argument i names, unless what is wrong with it was told. `unnamed` is what the message is about where the name
// itself is too long.
pub fn open_given<R: Env + Files>(
    rt: &R,
    console: &Console,
    i: usize,
    unnamed: &str,
) -> Option<Opened<R::File>> {
    let mut name = [0u8; ARGUMENT];
    match rt.arg(i, &mut name) {
        Err(unread) => {
            complain_of_error(console, unnamed, error_of(unread));
            None
        }
        Ok(n) => open_named(rt, console, &name[..n]),
    }
}

// Opens the file that argument i names, and makes an attempt in each room that can be had, up to the largest, until one holds it.
pub fn try_given<R: Env + Files, A>(
    rt: &R,
    console: &Console,
    i: usize,
    unnamed: &str,
    largest: Room,
    attempt: &A,
)
where
    A: Fn(&mut Opened<R::File>, &mut [u8]) -> Result<(), Long>,
    requires { A.IsAlwaysCallable attempt.now }
{
    let Some(mut opened) = open_given(rt, console, i, unnamed) else {
        return;
    };
    if let Err(Long) = in_rooms(largest, &mut opened, attempt) {
        complain_of_length(rt, console, i, largest);
    }
}

// Reads a file from where it stands to its end, unless what is wrong with it was told.
fn read_all<'a, F: Read>(
    console: &Console,
    file: &mut F,
    name: &[u8],
    room: &'a mut [u8],
) -> Option<&'a [u8]>
    ensures { IfSome result (λ bytes. length bytes.now ≤ length room.old) }
{
    let (bytes, end) = read_into(file, room);
    match end {
        Ok(()) => Some(bytes),
        Err(error) => {
            complain_of_file(console, name, error);
            None
        }
    }
}

// Reads the file that argument i names and that was opened, from its beginning where it can be read again, unless what is wrong with
// it was told. The room has a byte more than may be read, so that a longer file fills it.
pub fn read_given<'a, R: Env + Input, F: Read + Seek>(
    rt: &R,
    console: &Console,
    i: usize,
    opened: &mut Opened<F>,
    room: &'a mut [u8],
) -> Option<&'a [u8]>
    ensures { IfSome result (λ bytes. length bytes.now ≤ length room.old) }
{
    match &mut opened.source {
        Source::Input => read_all(console, &mut rt.reader(), b"standard input", room),
        Source::Named(file) => {
            let mut name = [0u8; ARGUMENT];
            let _ = file.rewind();
            read_all(console, file, argument(rt, i, &mut name), room)
        }
    }
}
