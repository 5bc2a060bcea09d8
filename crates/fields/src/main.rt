// Prints numbers of every width and order that stand in stored bytes, by a stored list of questions.
//
// Both files lie in data/. A question is a line of 32 bytes: what it asks for (24), the place (two decimal digits), a space,
// the code of the width, a space, L or B for the order, U or S for unsigned or signed, and the line's end.
#![tactic(auto)]

ghost use Rattle.std.specs.Prelude.{◌≤◌, length, IfOk};

use numbers::field::{NumberError, Order, number_at, width_of};
use numbers::offset::offset_at;
use reading::digit;
use std::io::{BufWriter, Read, Write};
use std::rt::Files;
use std::{fmt, fs, io, str};

// The most bytes that are read of each file.
const MOST: usize = 4_096;

// A number that is asked for: where it stands, and how wide it is.
#[derive(Clone, Copy)]
struct Question {
    at: usize,
    code: usize,
    order: Order,
}

fn question_in(line: &[u8; 32]) -> Question {
    Question {
        at: digit(line[24]) * 10 + digit(line[25]),
        code: digit(line[27]),
        order: if line[29] == b'B' {
            Order::Big
        } else {
            Order::Little
        },
    }
}

fn show_unsigned(out: &mut impl Write, section: &[u8], question: Question) -> io::Result<()> {
    let Question { at, code, order } = question;
    match number_at(section, at, code, order) {
        Ok(n) => write!(out, "{n} = 0x{n:x}"),
        Err(NumberError::Outside) => write!(out, "outside"),
        Err(NumberError::NoWidth) => write!(out, "no such width"),
    }
}

fn show_signed(out: &mut impl Write, section: &[u8], question: Question) -> io::Result<()> {
    let Question { at, code, order } = question;
    if 2 < code {
        return write!(out, "no such width");
    }
    if section.len() < at || section.len() - at < width_of(code) {
        return write!(out, "outside");
    }
    let n = offset_at(section, at, code, order).by;
    write!(out, "{n}")
}

// Repeats one question and answers it.
fn answer(out: &mut impl Write, section: &[u8], line: &[u8; 32]) -> io::Result<()> {
    out.write_all(&line[..31])?;
    write!(out, "  ")?;
    let question = question_in(line);
    if line[30] == b'S' {
        show_signed(out, section, question)?;
    } else {
        show_unsigned(out, section, question)?;
    }
    writeln!(out)
}

// Reads a file from where it stands to its end, as far as there is room, and answers how much of the room that fills. A read that
// fails ends it. Each read may fill all that is left.
fn fill(file: &mut impl Read, room: &mut [u8]) -> (usize, io::Result<()>)
    ensures { result.0 ≤ length room.new }
{
    let mut filled = 0;
    for _ in 0..room.len() {
        if room.len() <= filled {
            break;
        }
        match file.read(&mut room[filled..]) {
            Ok(0) => break,
            Ok(more) => filled += more,
            Err(error) => return (filled, Err(error)),
        }
    }
    (filled, Ok(()))
}

// The bytes that an error says of itself, at most.
const MESSAGE: usize = 256;

// An error as the system words it, without the number that std puts behind that.
#[derive(Drop)]
struct Worded(io::Error);

impl fmt::Display for Worded {
    fn fmt<W: fmt::Write>(&self, f: &mut fmt::Formatter<W>) -> fmt::Result {
        let mut room = [0u8; MESSAGE];
        let mut rest: &mut [u8] = &mut room;
        let error = &self.0;
        let _ = write!(rest, "{error}");
        let end = MESSAGE.saturating_sub(rest.len());
        let said = room.get(..end).unwrap_or(&[]);
        let said = str::from_utf8(said).unwrap_or("");
        let message = said
            .split_once(" (os error ")
            .map_or(said, |(front, _)| front);
        f.write_str(message)
    }
}

// What a file holds, as far as there is room. Of a file that cannot be opened nothing is taken, and the system's word is passed on.
fn load<'a>(rt: &(impl Files + Eprint), path: &str, room: &'a mut [u8]) -> io::Result<&'a [u8]>
    ensures { IfOk result (λ bytes. length bytes.now ≤ length room.old) }
{
    match fs::open(rt, path) {
        Ok(mut file) => {
            let (filled, end) = fill(&mut file, room);
            end?;
            Ok(&room[..filled])
        }
        Err(error) => {
            let worded = Worded(error);
            eprintln!(rt; "{path}: {worded}")?;
            Ok(&[])
        }
    }
}

fn main(rt: HostRuntime) -> io::Result<()> {
    let mut out = BufWriter::new(rt.alloc(), io::writer(&rt))?;
    writeln!(
        out,
        "what                    place, code of the width, order and sign; number"
    )?;
    let mut room = [0u8; MOST];
    let section = load(&rt, "S.sframe", &mut room)?;
    let mut room = [0u8; MOST];
    let questions = load(&rt, "questions.txt", &mut room)?;
    let (lines, _) = questions.as_chunks::<32>();
    for line in lines {
        answer(&mut out, section, line)?;
    }
    out.flush()
}
