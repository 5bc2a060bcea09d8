// Checks every stored section and prints its verdict, then looks up every stored question on it and makes every stored walk, and
// prints each answer. Then it goes through the cases once more, and asks every stored question as one address of a section that is not
// checked whole. `stdout` holds what the independent reader said.
#![tactic(auto)]

mod cases;
mod show;
mod show_walks;
mod shown;
mod walks;

ghost use Rattle.std.specs.Prelude.{◌≤◌, length, IfOk};

use crate::cases::{Case, Cases, asked_in};
use crate::show::{show_answer, show_asked, show_question, show_verdict};
use crate::walks::make_walks;
use accept::section_check::check;
use ask::land::ask;
use lookup::look::lookup;
use std::io::{BufWriter, Read, Write};
use std::rt::Files;
use std::{fmt, fs, io, str};

// More than the cases have, so that a file that fills it shows as cut.
const MOST: usize = 2_000_000;

// Everything that is looked up in one section.
fn show_answers(out: &mut impl Write, case: Case<'_>) -> io::Result<()> {
    let section = case.section;
    out.write_all(case.name)?;
    show_verdict(out, check(section))?;
    for question in case.questions {
        let (address, pc) = asked_in(question);
        show_question(out, address, pc)?;
        show_answer(out, lookup(section, address, pc))?;
    }
    make_walks(out, section, case.walks)
}

// Its questions asked once more. A case without any is not told again.
fn show_asks(out: &mut impl Write, case: Case<'_>) -> io::Result<()> {
    let section = case.section;
    if case.questions.is_empty() {
        return Ok(());
    }
    out.write_all(case.name)?;
    writeln!(out, " asked")?;
    for question in case.questions {
        let (address, pc) = asked_in(question);
        show_question(out, address, pc)?;
        show_asked(out, ask(section, address, pc))?;
    }
    Ok(())
}

fn show_cut(out: &mut impl Write) -> io::Result<()> {
    writeln!(out, "the last case is cut")
}

fn replay(out: &mut impl Write, cases: &[u8]) -> io::Result<()> {
    for case in Cases(cases) {
        match case {
            Some(case) => show_answers(out, case)?,
            None => show_cut(out)?,
        }
    }
    for case in Cases(cases) {
        match case {
            Some(case) => show_asks(out, case)?,
            None => show_cut(out)?,
        }
    }
    Ok(())
}

fn room() -> [u8; MOST] {
    [0u8; MOST]
}

// Reads a file from where it stands to its end, as far as there is room, and answers how much of the room that fills. A read that
// fails ends it. Each read may fill all that is left.
fn fill(file: &mut impl Read, room: &mut [u8]) -> (usize, io::Result<()>)
    ensures { result.0 ≤ length room.new }
{
    let mut filled = 0;
    for _ in 0..room.len() {
        if room.len() <= filled {
            break;
        }
        match file.read(&mut room[filled..]) {
            Ok(0) => break,
            Ok(more) => filled += more,
            Err(error) => return (filled, Err(error)),
        }
    }
    (filled, Ok(()))
}

// The bytes that an error says of itself, at most.
const MESSAGE: usize = 256;

// An error as the system words it, without the number that std puts behind that.
#[derive(Drop)]
struct Worded(io::Error);

impl fmt::Display for Worded {
    fn fmt<W: fmt::Write>(&self, f: &mut fmt::Formatter<W>) -> fmt::Result {
        let mut room = [0u8; MESSAGE];
        let mut rest: &mut [u8] = &mut room;
        let error = &self.0;
        let _ = write!(rest, "{error}");
        let end = MESSAGE.saturating_sub(rest.len());
        let said = room.get(..end).unwrap_or(&[]);
        let said = str::from_utf8(said).unwrap_or("");
        let message = said
            .split_once(" (os error ")
            .map_or(said, |(front, _)| front);
        f.write_str(message)
    }
}

// What a file holds, as far as there is room. Of a file that cannot be opened nothing is taken, and the system's word is passed on.
fn load<'a>(rt: &(impl Files + Eprint), path: &str, room: &'a mut [u8]) -> io::Result<&'a [u8]>
    ensures { IfOk result (λ bytes. length bytes.now ≤ length room.old) }
{
    match fs::open(rt, path) {
        Ok(mut file) => {
            let (filled, end) = fill(&mut file, room);
            end?;
            Ok(&room[..filled])
        }
        Err(error) => {
            let worded = Worded(error);
            eprintln!(rt; "{path}: {worded}")?;
            Ok(&[])
        }
    }
}

fn main(rt: HostRuntime) -> io::Result<()> {
    let mut room = room();
    let cases = load(&rt, "cases", &mut room)?;
    let mut out = BufWriter::new(rt.alloc(), io::writer(&rt))?;
    replay(&mut out, cases)?;
    out.flush()
}
