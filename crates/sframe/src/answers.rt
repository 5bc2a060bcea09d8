// What is asked of a section that was read, and the answer.
use crate::arguments::number_given;
use crate::console::Console;
use crate::hints::hint_of_file;
use crate::list::answer_list;
use crate::say::say;
use crate::show::{show_answer, show_asked, show_verdict};
use crate::show_why::show_lookup_why;
use crate::status::argument_count;
use crate::walks::{Sought, answer_walk};
use lookup::look::lookup;
use std::rt::{Env, Files};

// What is asked.
#[derive(Clone, Copy)]
pub enum Question {
    Check,
    List,
    Lookup,
    Ask,
    Why,
    Walks(Sought),
}

// Shows the answer for each PC, by the section's address and the PC, unless what is wrong with one of the arguments was told: all are
// tried before one is looked up.
fn answer_pcs<F: Fn(u64, u64)>(rt: &impl Env, console: &Console, show: &F) -> Option<()>
    requires { F.IsAlwaysCallable show.now }
{
    let count = argument_count(rt);
    let address = number_given(rt, console, 3, "ADDRESS")?;
    for i in 4..count {
        number_given(rt, console, i, "PC")?;
    }
    for i in 4..count {
        let pc = number_given(rt, console, i, "PC")?;
        if 5 < count {
            say(console, format_args!("PC {pc:016x}\n"));
        }
        show(address, pc);
    }
    Some(())
}

// Arguments 3 and 4, of one PC.
fn answer_why(rt: &impl Env, console: &Console, section: &[u8]) -> Option<()> {
    let address = number_given(rt, console, 3, "ADDRESS")?;
    let pc = number_given(rt, console, 4, "PC")?;
    show_lookup_why(console, section, address, pc);
    Some(())
}

fn answer_lookups(rt: &impl Env, console: &Console, section: &[u8]) {
    let show = |address: u64, pc: u64| {
        show_answer(console, section, pc, lookup(section, address, pc))
    };
    let _ = answer_pcs(rt, console, &show);
}

// The same without a check of the section.
fn answer_asks(rt: &impl Env, console: &Console, section: &[u8]) {
    let show = |address: u64, pc: u64| {
        show_asked(console, section, pc, ask::land::ask(section, address, pc))
    };
    let _ = answer_pcs(rt, console, &show);
}

// With so much of the stack left for the room of a stack window.
pub fn answer<R: Env + Files + Input>(
    rt: &R,
    console: &Console,
    question: Question,
    section: &[u8],
    left: u64,
) {
    hint_of_file(rt, console, section);
    match question {
        Question::Check => show_verdict(console, section),
        Question::List => answer_list(rt, console, section),
        Question::Lookup => answer_lookups(rt, console, section),
        Question::Ask => answer_asks(rt, console, section),
        Question::Why => {
            let _ = answer_why(rt, console, section);
        }
        Question::Walks(sought) => answer_walk(rt, console, sought, section, left),
    }
}
