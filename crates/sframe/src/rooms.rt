// How much of a file can be read, and reading it. The room for it lies on this program's stack, which the system limits; so there are rooms
// of four sizes, and what the limit leaves tells which of them can be had.
ghost use Rattle.std.specs.Prelude.{◌<◌, ◌≤◌, ◌^◌, length};

use crate::arguments::{Opened, open_read};
use digits::parse_decimal;
use std::io;
use std::io::Read;
use std::rt::Files;

// What this program takes beside its rooms, with the smallest room for a stack window.
const OWN: u64 = 262_144;
// What is taken for the limit and for its part that is in use, where the system does not tell.
const USUAL_LIMIT: u64 = 8_388_608;

const USUAL_USE: u64 = 2_097_152;

// How much of a file of the system's is looked at.
const FIRST: usize = 4_096;

// How much of a file each room holds, the smallest first. It has a byte more, by which a longer file is told.
const SMALLEST: usize = 65_536;

const SMALL: usize = 1_048_576;

const LARGE: usize = 6_291_456;
// As many as a section may have, by rule 2.
pub const LARGEST: usize = 16_777_216;

const SMALLEST_ROOM: usize = SMALLEST + 1;

const SMALL_ROOM: usize = SMALL + 1;

const LARGE_ROOM: usize = LARGE + 1;

const LARGEST_ROOM: usize = LARGEST + 1;

#[derive(Clone, Copy, PartialEq, Eq, PartialOrd, Ord)]
pub enum Room {
    Smallest,
    Small,
    Large,
    Largest,
}

const ROOMS: [Room; 4] = [Room::Smallest, Room::Small, Room::Large, Room::Largest];

impl Room {
    // How many bytes of a file it holds.
    pub fn bytes(self) -> u64 {
        match self {
            Room::Smallest => SMALLEST as u64,
            Room::Small => SMALL as u64,
            Room::Large => LARGE as u64,
            Room::Largest => LARGEST as u64,
        }
    }
}

// The largest room that can be had by what is left of the stack.
pub fn largest_within(left: u64) -> Option<Room> {
    ROOMS.into_iter().rev().find(|room| room.bytes() < left)
}

// A file has more bytes than the room holds.
#[derive(Clone, Copy)]
pub struct Long;

// Each room has a frame of its own: a compiler that put them all into one would ask for the sum of them, whatever the file is.
#[inline(never)]
fn in_room<const BYTES: usize, F, A>(opened: &mut Opened<F>, attempt: &A) -> Result<(), Long>
where
    A: Fn(&mut Opened<F>, &mut [u8]) -> Result<(), Long>,
    requires sized { BYTES < 2 ^ 63 }
    requires callable { A.IsAlwaysCallable attempt.now }
{
    let mut room = [0u8; BYTES];
    attempt(opened, &mut room)
}

// Tries the rooms up to this one, the smallest first, until one holds the file; what can be read only once goes into this one.
pub fn in_rooms<F, A>(largest: Room, opened: &mut Opened<F>, attempt: &A) -> Result<(), Long>
where
    A: Fn(&mut Opened<F>, &mut [u8]) -> Result<(), Long>,
    requires { A.IsAlwaysCallable attempt.now }
{
    for room in ROOMS {
        if room <= largest && (room == largest || !opened.once) {
            let held = match room {
                Room::Smallest => in_room::<SMALLEST_ROOM, F, A>(opened, attempt),
                Room::Small => in_room::<SMALL_ROOM, F, A>(opened, attempt),
                Room::Large => in_room::<LARGE_ROOM, F, A>(opened, attempt),
                Room::Largest => in_room::<LARGEST_ROOM, F, A>(opened, attempt),
            };
            if held.is_ok() {
                return held;
            }
        }
    }
    Err(Long)
}

// What stands in a text behind the first place where a name does.
fn behind<'a>(text: &'a [u8], name: &[u8]) -> Option<&'a [u8]> {
    (0..text.len()).find_map(|at| text.get(at..)?.strip_prefix(name))
}

// The decimal number behind a name in a text of the system's, with blanks between them.
fn number_behind(text: &[u8], name: &[u8]) -> Option<u64> {
    let blanks = behind(text, name)?;
    let first = blanks
        .iter()
        .position(|byte| !matches!(byte, b' ' | b'\t'))?;
    let number = blanks.get(first..)?;
    let end = number.iter().position(|byte| !byte.is_ascii_digit());
    parse_decimal(number.get(..end.unwrap_or(number.len()))?)
}

// Reads a file from where it stands to its end, as far as there is room, and answers how much of the room that fills. A read that
// fails ends it. Each read may fill all that is left: of a packet that is longer than what is asked for, the rest would be lost.
fn fill(file: &mut impl Read, room: &mut [u8]) -> (usize, io::Result<()>)
    ensures { result.0 ≤ length room.new }
{
    let mut filled = 0;
    for _ in 0..room.len() {
        if room.len() <= filled {
            break;
        }
        match file.read(&mut room[filled..]) {
            Ok(0) => break,
            Ok(more) => filled += more,
            Err(error) => return (filled, Err(error)),
        }
    }
    (filled, Ok(()))
}

// What a file holds from where it stands, as far as there is room, and whether a read failed.
pub fn read_into<'a>(file: &mut impl Read, room: &'a mut [u8]) -> (&'a [u8], io::Result<()>)
    ensures { length result.0.now ≤ length room.old }
{
    let (filled, end) = fill(file, room);
    (&room[..filled], end)
}

// The first bytes of a file of the system's; none where it cannot be read.
fn read_first<'a>(rt: &impl Files, path: &[u8], room: &'a mut [u8]) -> &'a [u8]
    ensures { length result.now ≤ length room.old }
{
    match open_read(rt, path) {
        Err(_) => &[],
        Ok(mut file) => read_into(&mut file, room).0,
    }
}

fn limit_in(text: &[u8]) -> u64 {
    match number_behind(text, b"Max stack size") {
        Some(limit) => limit,
        None if behind(text, b"Max stack size            unlimited").is_some() => u64::MAX,
        None => USUAL_LIMIT,
    }
}

// How large the stack may become.
pub fn stack_limit(rt: &impl Files) -> u64 {
    let mut room = [0u8; FIRST];
    limit_in(read_first(rt, b"/proc/self/limits", &mut room))
}

fn use_in(text: &[u8]) -> u64 {
    number_behind(text, b"VmStk:").map_or(USUAL_USE, |kilobytes| kilobytes.saturating_mul(1_024))
}

// How large it is: the arguments and the environment lie there too.
fn stack_use(rt: &impl Files) -> u64 {
    let mut room = [0u8; FIRST];
    use_in(read_first(rt, b"/proc/self/status", &mut room))
}

// How many bytes of the stack are left for the rooms.
pub fn left_for_rooms(rt: &impl Files) -> u64 {
    stack_limit(rt)
        .saturating_sub(stack_use(rt))
        .saturating_sub(OWN)
}
