// Says why each stored lookup and step gives its answer, in numbers alone: two lines a record. `stdout` holds what the independent reader
// said.
#![tactic(auto)]

mod lines;
mod lookups;
mod records;
mod steps;

ghost use Rattle.std.specs.Prelude.{◌≤◌, length, IfOk};

use crate::lines::Lines;
use crate::lookups::show_lookup;
use crate::records::{Record, Records};
use crate::steps::show_step;
use std::io::{BufWriter, Read, Write};
use std::rt::Files;
use std::{fmt, fs, io, str};

// The most bytes of records. The room has one more, so that a longer file fills it.
const MOST: usize = 4_000_000;

const ROOM: usize = MOST + 1;

// Both lines of a record are written in one piece.
fn show_record(out: &mut impl Write, record: Record<'_>) -> io::Result<()> {
    let mut lines = Lines::new();
    show_lookup(&mut lines, record);
    show_step(&mut lines, record);
    out.write_all(lines.filled())
}

fn show_cut(out: &mut impl Write) -> io::Result<()> {
    writeln!(out, "the last record is cut")
}

// Every record in turn. One that is cut is the last, and so is the last of a file that is too long.
fn show_records(out: &mut impl Write, records: &[u8]) -> io::Result<()> {
    for record in Records(records) {
        match record {
            Some(record) => show_record(out, record)?,
            None => return show_cut(out),
        }
    }
    if MOST < records.len() {
        return show_cut(out);
    }
    Ok(())
}

fn room() -> [u8; ROOM] {
    [0u8; ROOM]
}

// Reads a file from where it stands to its end, as far as there is room, and answers how much of the room that fills. A read that
// fails ends it. Each read may fill all that is left.
fn fill(file: &mut impl Read, room: &mut [u8]) -> (usize, io::Result<()>)
    ensures { result.0 ≤ length room.new }
{
    let mut filled = 0;
    for _ in 0..room.len() {
        if room.len() <= filled {
            break;
        }
        match file.read(&mut room[filled..]) {
            Ok(0) => break,
            Ok(more) => filled += more,
            Err(error) => return (filled, Err(error)),
        }
    }
    (filled, Ok(()))
}

// The bytes that an error says of itself, at most.
const MESSAGE: usize = 256;

// An error as the system words it, without the number that std puts behind that.
#[derive(Drop)]
struct Worded(io::Error);

impl fmt::Display for Worded {
    fn fmt<W: fmt::Write>(&self, f: &mut fmt::Formatter<W>) -> fmt::Result {
        let mut room = [0u8; MESSAGE];
        let mut rest: &mut [u8] = &mut room;
        let error = &self.0;
        let _ = write!(rest, "{error}");
        let end = MESSAGE.saturating_sub(rest.len());
        let said = room.get(..end).unwrap_or(&[]);
        let said = str::from_utf8(said).unwrap_or("");
        let message = said
            .split_once(" (os error ")
            .map_or(said, |(front, _)| front);
        f.write_str(message)
    }
}

// What a file holds, as far as there is room. Of a file that cannot be opened nothing is taken, and the system's word is passed on.
fn load<'a>(rt: &(impl Files + Eprint), path: &str, room: &'a mut [u8]) -> io::Result<&'a [u8]>
    ensures { IfOk result (λ bytes. length bytes.now ≤ length room.old) }
{
    match fs::open(rt, path) {
        Ok(mut file) => {
            let (filled, end) = fill(&mut file, room);
            end?;
            Ok(&room[..filled])
        }
        Err(error) => {
            let worded = Worded(error);
            eprintln!(rt; "{path}: {worded}")?;
            Ok(&[])
        }
    }
}

fn main(rt: HostRuntime) -> io::Result<()> {
    let mut room = room();
    let records = load(&rt, "cases", &mut room)?;
    let mut out = BufWriter::new(rt.alloc(), io::writer(&rt))?;
    show_records(&mut out, records)?;
    out.flush()
}
