// Refusals and endings as lines of text: the number, what it means, and what it carries.
use crate::console::Console;
use crate::meanings::Meant;
use crate::say::say;
use crate::status::tell_refused;
use crate::text::Distance;
use accept::verdict::{Refusal, Rule};
use caller::registers::FrameCause;
use listing::function::function_at;
use numbers::offset::shift_of;
use std::fmt;
use trace::answer::Ending;

// A function by its index, with its start, counted from the section's first byte, and its size. No answer names a function that is
// not there.
#[derive(Clone, Copy)]
pub struct Bounded<'a> {
    pub section: &'a [u8],
    pub function: u64,
}

impl fmt::Display for Bounded<'_> {
    fn fmt<W: fmt::Write>(&self, f: &mut fmt::Formatter<W>) -> fmt::Result {
        let function = self.function;
        write!(f, "{function}")?;
        let Ok(facts) = function_at(self.section, function) else {
            return Ok(());
        };
        let start = Distance(shift_of(facts.start));
        let size = facts.size;
        write!(f, " (start {start}, size {size})")
    }
}

// A refusal that carries no index.
pub fn show_refused(console: &Console, refusal: impl Into<Meant>) {
    let refusal: Meant = refusal.into();
    tell_refused(console);
    say(console, format_args!("refused: {refusal}\n"));
}

// A refusal that concerns one function.
pub fn show_refused_in(
    console: &Console,
    refusal: impl Into<Meant>,
    function: impl fmt::Display + Drop,
) {
    let refusal: Meant = refusal.into();
    tell_refused(console);
    say(
        console,
        format_args!("refused: {refusal}, in function {function}\n"),
    );
}

// 1 to 15: of these, 9 to 14 concern one function.
pub fn show_unsound(console: &Console, refusal: Refusal) {
    let Refusal { rule, index } = refusal;
    match rule {
        Rule::EntryInfo
        | Rule::RepeatSize
        | Rule::RowsInside
        | Rule::RowInfo
        | Rule::RowsRising
        | Rule::Sorted => show_refused_in(console, rule, index),
        _ => show_refused(console, rule),
    }
}

// 23 and 44 of a lookup.
pub fn show_refused_at(
    console: &Console,
    section: &[u8],
    refusal: impl Into<Meant>,
    function: u64,
) {
    show_refused_in(console, refusal, Bounded { section, function });
}

// 22, with the two lowest of the functions that cover.
pub fn show_dispute(console: &Console, section: &[u8], first: u64, second: u64) {
    let refusal = Meant::from(FrameCause::Dispute);
    let first = Bounded {
        section,
        function: first,
    };
    let second = Bounded {
        section,
        function: second,
    };
    tell_refused(console);
    say(
        console,
        format_args!("refused: {refusal}, the first two are {first} and {second}\n"),
    );
}

// Why a trace that was made ended.
pub fn show_ended(console: &Console, ending: Ending) {
    say(console, format_args!("ended: {}\n", Meant::from(ending)));
}
