// The file of the section, in a room that holds it.
use crate::answers::{Question, answer};
use crate::arguments::{Opened, read_given, try_given};
use crate::console::Console;
use crate::rooms::{LARGEST, Long, largest_within, left_for_rooms, stack_limit};
use crate::say::complain;
use std::rt::{Env, Files};

// Argument 2 is the section, whatever is asked. A file that fills the largest room is longer than any section may be, and so are the
// bytes in it: rule 2 refuses them.
fn ask_in<R: Env + Files + Input>(
    rt: &R,
    console: &Console,
    opened: &mut Opened<R::File>,
    question: Question,
    left: u64,
    room: &mut [u8],
) -> Result<(), Long> {
    let size = room.len();
    let Some(section) = read_given(rt, console, 2, opened, room) else {
        return Ok(());
    };
    if section.len() == size && size <= LARGEST {
        return Err(Long);
    }
    let left = left.saturating_sub(size.saturating_sub(1) as u64);
    answer(rt, console, question, section, left);
    Ok(())
}

fn complain_of_stack(rt: &impl Files, console: &Console) {
    let limit = stack_limit(rt);
    complain(
        console,
        format_args!(
            "sframe: the stack limit of {limit} bytes leaves no room to read a file: 'ulimit -s' raises it\n"
        ),
    );
}

pub fn ask<R: Env + Files + Input>(rt: &R, console: &Console, question: Question) {
    let left = left_for_rooms(rt);
    let Some(largest) = largest_within(left) else {
        complain_of_stack(rt, console);
        return;
    };
    let attempt = |opened: &mut Opened<R::File>, room: &mut [u8]| {
        ask_in(rt, console, opened, question, left, room)
    };
    try_given(rt, console, 2, "sframe: FILE", largest, &attempt);
}
