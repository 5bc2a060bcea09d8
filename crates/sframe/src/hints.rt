// What may help where a file is not what it was taken for: it goes to standard error, beside the answer.
use crate::arguments::{is_input, note_file, note_given};
use crate::console::Console;
use crate::say::note;
use std::fmt;
use std::rt::Env;

// Argument 2 is the section's file: here the program that it is taken from.
fn note_program(rt: &impl Env, console: &Console) {
    if is_input(rt, 2) {
        note(console, "PROGRAM");
        return;
    }
    note_given(rt, console, 2);
}

// What the file is, behind its name.
fn hint_of<T: fmt::Display + Drop>(rt: &impl Env, console: &Console, what: T) {
    note(console, "sframe: ");
    note_file(rt, console, 2);
    note(console, what);
}

fn hint_of_elf(rt: &impl Env, console: &Console) {
    hint_of(
        rt,
        console,
        " is an ELF file, not the bytes of a section. Its section is taken out by\n    objcopy -O binary --only-section=.sframe ",
    );
    note_program(rt, console);
    note(console, " section.sframe\n");
}

// A file that is no section of version 2, and what it is. Behind the magic, in one of the byte orders, stands the version.
pub fn hint_of_file(rt: &impl Env, console: &Console, section: &[u8]) {
    match section {
        [] => hint_of(
            rt,
            console,
            " is empty: was it taken from a program that has no .sframe section? 'readelf -SW PROGRAM' lists its sections\n",
        ),
        [0x7f, b'E', b'L', b'F', ..] => hint_of_elf(rt, console),
        [0xe2, 0xde, version, ..] | [0xde, 0xe2, version, ..] if *version != 2 => {
            hint_of(
                rt,
                console,
                format_args!(
                    " is a section of version {version}, and version 2 is read, which GNU binutils 2.41 to 2.45 write\n"
                ),
            )
        }
        _ => {}
    }
}

// Whether the start field of an entry at this place holds 0.
fn is_start_empty(section: &[u8], place: usize) -> bool {
    matches!(section.get(place..), Some([0, 0, 0, 0, ..]))
}

// Behind a dispute: in an object file every start field is still 0, and the linker fills it in. The first two entries tell; the first
// stands behind the auxiliary header, of as many bytes as byte 7 says.
pub fn hint_of_unlinked(console: &Console, section: &[u8]) {
    let Some(auxiliary) = section.get(7) else {
        return;
    };
    let first = 28 + *auxiliary as usize;
    if is_start_empty(section, first) && is_start_empty(section, first + 20) {
        note(
            console,
            "sframe: no start is filled in, as in an object file that is not linked: take the section from the linked program\n",
        );
    }
}
