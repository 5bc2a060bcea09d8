// What `sframe help` prints: a part for each command, and what its arguments are. The texts stand here as they are printed.
use crate::console::Console;
use crate::say::{Given, complain, say};

// What a person can ask for.
#[derive(Clone, Copy)]
pub enum Command {
    Check,
    List,
    Lookup,
    Ask,
    Why,
    Caller,
    Trace,
    Help,
    Version,
}

const COMMANDS: [Command; 9] = [
    Command::Check,
    Command::List,
    Command::Lookup,
    Command::Ask,
    Command::Why,
    Command::Caller,
    Command::Trace,
    Command::Help,
    Command::Version,
];

// The command that a word names.
pub fn command_of(word: &[u8]) -> Option<Command> {
    match word {
        b"check" => Some(Command::Check),
        b"list" => Some(Command::List),
        b"lookup" => Some(Command::Lookup),
        b"ask" => Some(Command::Ask),
        b"why" => Some(Command::Why),
        b"caller" => Some(Command::Caller),
        b"trace" => Some(Command::Trace),
        b"help" | b"--help" | b"-h" => Some(Command::Help),
        b"version" | b"--version" => Some(Command::Version),
        _ => None,
    }
}

// A word that names no command.
pub fn complain_of_word(console: &Console, word: &[u8]) {
    let word = Given(word);
    complain(
        console,
        format_args!("sframe: '{word}' is no command; 'sframe help' lists them\n"),
    );
}

const CHECK: &str = "\
sframe check FILE
    whether a section is accepted, else the first broken rule
";

const LIST: &str = "\
sframe list FILE [INDEX]
    every function and row of a section, or one function by its index
";

const LOOKUP: &str = "\
sframe lookup FILE ADDRESS PC...
    the function and the row for each PC
";

const ASK: &str = "\
sframe ask FILE ADDRESS PC...
    the same without a check of the whole section: only what the answer needs is read
";

const WHY: &str = "\
sframe why FILE ADDRESS PC
sframe why FILE ADDRESS STACK STACK_ADDRESS PC SP FP LR FIRST MASK
    why a lookup or a caller comes to its answer, in numbers that can be checked by hand
";

const CALLER: &str = "\
sframe caller FILE ADDRESS STACK STACK_ADDRESS PC SP FP LR FIRST [MASK]
    the registers of the caller
";

const TRACE: &str = "\
sframe trace FILE ADDRESS STACK STACK_ADDRESS PC SP FP LR LIMIT [MASK]
    every caller in turn, at most LIMIT of them
";

const HELP: &str = "\
sframe help [COMMAND]
    this text, or what it says of one command; also --help, -h, and COMMAND --help
";

const VERSION: &str = "\
sframe version
    the version of this program; also --version
";

// How a command is typed, and what it is for.
fn use_of(command: Command) -> &'static str {
    match command {
        Command::Check => CHECK,
        Command::List => LIST,
        Command::Lookup => LOOKUP,
        Command::Ask => ASK,
        Command::Why => WHY,
        Command::Caller => CALLER,
        Command::Trace => TRACE,
        Command::Help => HELP,
        Command::Version => VERSION,
    }
}

fn say_of_files(console: &Console) {
    say(
        console,
        "
FILE has the bytes of an .sframe section, at most 16777216, and ADDRESS is where the section is loaded.
    objcopy -O binary --only-section=.sframe PROGRAM FILE    takes the section out of a program
- as FILE or STACK is standard input.
",
    );
}

fn say_of_walks(console: &Console) {
    say(
        console,
        "\
STACK has the bytes of the stack window, at most 16777216, and STACK_ADDRESS is where its first byte lies.
PC, SP, FP and LR are the registers. FIRST is 0 for no first-frame mark, any other number for the mark.
A caller looks up PC with the mark and PC - 1 without it; a trace looks up PC, then each RA - 1.
MASK has the bits of a signature, which are cleared from a signed RA (AArch64); left out it is 0: no such RA is taken.
LIMIT is the most frames, up to 256, and 0 stands for 128.
",
    );
}

fn say_of_numbers(console: &Console) {
    say(
        console,
        "\
INDEX counts the functions from 0. INDEX and LIMIT are decimal, 1 to 19 digits.
All other numbers given are hexadecimal, 1 to 16 digits, with or without a leading 0x or 0X. Leading zeros do not count.
The status is 0 where the answer is given, 1 where it is refused (also a trace without a frame, and one refusal of several PCs),
and 2 where the command line is wrong, a file cannot be read or the answer cannot be written.
",
    );
}

// What the arguments of one command are.
fn say_of_arguments(console: &Console, command: Command) {
    match command {
        Command::Check | Command::List | Command::Lookup | Command::Ask => {
            say_of_files(console);
            say_of_numbers(console);
        }
        Command::Why | Command::Caller | Command::Trace => {
            say_of_files(console);
            say_of_walks(console);
            say_of_numbers(console);
        }
        Command::Help | Command::Version => {}
    }
}

// All of it.
pub fn show_help(console: &Console) {
    for command in COMMANDS {
        say(console, use_of(command));
    }
    say_of_files(console);
    say_of_walks(console);
    say_of_numbers(console);
}

// What is said of the command that a word names.
pub fn show_help_of(console: &Console, word: &[u8]) {
    match command_of(word) {
        Some(command) => {
            say(console, use_of(command));
            say_of_arguments(console, command);
        }
        None => complain_of_word(console, word),
    }
}
