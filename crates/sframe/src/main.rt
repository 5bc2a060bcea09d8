// The program for people: it checks an `.sframe` section, lists it, looks PCs up in it, asks it single addresses, works out one caller,
// says why a lookup or a caller comes to its answer, or walks a trace.
// Every answer is the library's; this program reads the arguments and the files, and prints.
#![tactic(auto)]

mod answers;
mod arguments;
mod console;
mod help;
mod hints;
mod line;
mod list;
mod meanings;
mod refusals;
mod rooms;
mod say;
mod sections;
mod show;
mod show_step_why;
mod show_walks;
mod show_why;
mod status;
mod text;
mod version;
mod walks;

use crate::answers::Question;
use crate::arguments::is_argument;
use crate::console::Console;
use crate::help::{Command, command_of, complain_of_word, show_help, show_help_of};
use crate::say::{complain, is_output_open};
use crate::sections::ask;
use crate::status::{ARGUMENT, argument, argument_count, tell_end};
use crate::version::show_version;
use crate::walks::Sought;
use std::ops::RangeInclusive;
use std::rt::{Env, Files};

// Whether as many arguments are given as are taken.
fn are_taken(
    console: &Console,
    given: usize,
    taken: RangeInclusive<usize>,
    complaint: &str,
) -> bool {
    let fits = taken.contains(&given);
    if !fits {
        complain(console, complaint);
    }
    fits
}

// How many arguments a question takes, and what is said of any other number. Why a lookup comes to its answer takes as many as the
// lookup of one PC; any other number is taken for that of a caller.
fn taken_by(question: Question) -> (RangeInclusive<usize>, &'static str) {
    match question {
        Question::Check => (1..=1, "sframe: 'check' takes FILE\n"),
        Question::List => (1..=2, "sframe: 'list' takes FILE [INDEX]\n"),
        Question::Lookup => (
            3..=usize::MAX,
            "sframe: 'lookup' takes FILE ADDRESS PC...\n",
        ),
        Question::Ask => (3..=usize::MAX, "sframe: 'ask' takes FILE ADDRESS PC...\n"),
        Question::Why => (3..=3, WHY_TAKES),
        Question::Walks(Sought::Why) => (10..=10, WHY_TAKES),
        Question::Walks(Sought::Caller) => (9..=10, CALLER_TAKES),
        Question::Walks(Sought::Trace) => (9..=10, TRACE_TAKES),
    }
}

const WHY_TAKES: &str =
    "sframe: 'why' takes FILE ADDRESS PC, or FILE ADDRESS STACK STACK_ADDRESS PC SP FP LR FIRST MASK\n";

const CALLER_TAKES: &str =
    "sframe: 'caller' takes FILE ADDRESS STACK STACK_ADDRESS PC SP FP LR FIRST [MASK]\n";

const TRACE_TAKES: &str =
    "sframe: 'trace' takes FILE ADDRESS STACK STACK_ADDRESS PC SP FP LR LIMIT [MASK]\n";

fn ask_if_taken<R: Env + Files + Input>(
    rt: &R,
    console: &Console,
    given: usize,
    question: Question,
) {
    let (taken, complaint) = taken_by(question);
    if are_taken(console, given, taken, complaint) {
        ask(rt, console, question);
    }
}

fn answer_help(rt: &impl Env, console: &Console, given: usize) {
    if given == 0 {
        show_help(console);
        return;
    }
    if are_taken(console, given, 1..=1, "sframe: 'help' takes [COMMAND]\n") {
        let mut room = [0u8; ARGUMENT];
        show_help_of(console, argument(rt, 2, &mut room));
    }
}

fn answer_version(console: &Console, given: usize) {
    if are_taken(
        console,
        given,
        0..=0,
        "sframe: 'version' takes no arguments\n",
    ) {
        show_version(console);
    }
}

fn run<R: Env + Files + Input>(rt: &R, console: &Console, word: &[u8], given: usize) {
    let Some(command) = command_of(word) else {
        complain_of_word(console, word);
        return;
    };
    let question = match command {
        Command::Help => return answer_help(rt, console, given),
        Command::Version => return answer_version(console, given),
        Command::Check => Question::Check,
        Command::List => Question::List,
        Command::Lookup => Question::Lookup,
        Command::Ask => Question::Ask,
        Command::Why if given == 3 => Question::Why,
        Command::Why => Question::Walks(Sought::Why),
        Command::Caller => Question::Walks(Sought::Caller),
        Command::Trace => Question::Walks(Sought::Trace),
    };
    ask_if_taken(rt, console, given, question);
}

// Whether the one argument of a command asks for help.
fn is_help_asked(rt: &impl Env, given: usize) -> bool {
    given == 1 && (is_argument(rt, 2, b"--help") || is_argument(rt, 2, b"-h"))
}

// With the program's name and at least one argument.
fn run_first<R: Env + Files + Input>(rt: &R, console: &Console, count: usize) {
    if count < 2 {
        complain(console, "sframe: no command; 'sframe help' lists them\n");
        return;
    }
    let given = count - 2;
    let mut room = [0u8; ARGUMENT];
    match rt.arg(1, &mut room) {
        Err(_) => complain_of_word(console, &room),
        Ok(n) if is_help_asked(rt, given) => show_help_of(console, &room[..n]),
        Ok(n) => run(rt, console, &room[..n], given),
    }
}

fn main(rt: HostRuntime) {
    let console = Console::new(rt.stdout(), rt.stderr());
    if is_output_open(&console) {
        run_first(&rt, &console, argument_count(&rt));
    } else {
        complain(&console, "sframe: standard output is closed\n");
    }
    tell_end(&rt, &console);
}
