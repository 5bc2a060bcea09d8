// The lookup: the one function that covers a PC, and its row.
ghost use Rattle.std.specs.Prelude.{true, ◌≡◌, ◌<◌, ◌%◌};
ghost use Rattle.numbers.specs.Start.{distance};
ghost use Rattle.section.specs.Entry.{repeats};
ghost use Rattle.section.specs.Meaning.{block_of, function_in, functions_of};
ghost use Rattle.lookup.specs.Computed.Answers.{with_row, with_cover, answer_of, lookup_of};
ghost use Rattle.lookup.specs.Computed.Covering.{covering, cover_of};
ghost use Rattle.lookup.specs.Computed.Rows.{in_block, row_for};
ghost use Rattle.lookup.specs.Told.{outcome_told, answer_told, lookup_told};
ghost use Rattle.lookup.specs.Inner.Reached.{reached_in};
ghost use Rattle.lookup.specs.Inner.Requires.{AcceptedOf, RowAsked};

use crate::answer::{Answer, Found, Unfound};
use crate::rows::{Hit, scan_rows};
use crate::search::{Cover, find};
use crate::table::entry_in;
use accept::section_check::check;
use accept::verdict::Refusal;
use numbers::held::near_of;
use section::entry::{Entry, does_repeat, start_of};
use section::header::{Layout, layout_at, order_at};
use section::shape::shape_of;

// What remains of a distance by a repeat size. Source 001 writes a mask here; document 01's remainder rule stands.
fn left_over(past: u64, size: u8) -> u64
    requires { 0 < size }
    ensures { result ≡ past % size }
{
    past % size as u64
}

// The offset that a row's start is compared with, of a PC that is `past` the function's start.
#[tactic(auto, unfolding(crate::specs::Computed::Rows::in_block, section::specs::Meaning::block_of))]
pub fn block_offset(entry: Entry, past: u64) -> u64
    requires { repeats entry.info ≡ true → 0 < entry.repeat }
    ensures { result ≡ in_block (block_of entry) past }
{
    if does_repeat(entry.info) {
        left_over(past, entry.repeat)
    } else {
        past
    }
}

// The entry of a function that covers a PC, and the offset that its rows' starts are compared with.
#[derive(Clone, Copy)]
pub struct Reached {
    pub entry: Entry,
    pub offset: u64,
}

// Of function i, which covers the PC. It is inlined, since an explanation's call is not to slow down a lookup's.
#[inline(always)]
pub fn reached_in(section: &[u8], layout: Layout, i: u64, address: u64, pc: u64) -> Reached
    requires { RowAsked section.now layout i (distance address pc) }
    ensures { result ≡ reached_in section.now (distance address pc) i }
{
    let entry = entry_in(section, layout, order_at(section), i);
    let past = near_of(address, pc) - start_of(layout.relative, entry);
    Reached {
        entry,
        offset: block_offset(entry, past),
    }
}

// The row of function i, which covers the PC.
fn row_for(section: &[u8], layout: Layout, i: u64, address: u64, pc: u64) -> Option<Hit>
    requires { RowAsked section.now layout i (distance address pc) }
    ensures { result ≡ row_for (distance address pc) (function_in section.now i) }
{
    let reached = reached_in(section, layout, i, address, pc);
    let abi = layout.abi;
    let from = layout.area as usize;
    scan_rows(
        &section[from..],
        shape_of(abi),
        reached.entry,
        reached.offset,
    )
}

#[tactic(auto, unfolding(crate::specs::Computed::Answers::with_row))]
fn with_row(function: u64, scan: Option<Hit>) -> Result<Found, Unfound>
    ensures { outcome_told result ≡ with_row function scan }
{
    match scan {
        None => Err(Unfound::NoRow { function }),
        Some(Hit { row, number }) => Ok(Found {
            row,
            function,
            number: number as u64,
        }),
    }
}

fn with_cover(
    section: &[u8],
    layout: Layout,
    cover: Cover,
    address: u64,
    pc: u64,
) -> Result<Found, Unfound>
    requires { AcceptedOf section.now layout × (cover ≡ cover_of (covering (distance address pc) (functions_of section.now))) }
    ensures { outcome_told result ≡ with_cover (distance address pc) (functions_of section.now) cover }
{
    match cover {
        Cover::Nobody => Err(Unfound::NoFunction),
        Cover::One(i) => with_row(i, row_for(section, layout, i, address, pc)),
        Cover::Two(first, second) => Err(Unfound::Dispute { first, second }),
    }
}

// The answer on a section that was checked before: one check serves many lookups.
pub fn look(section: &[u8], layout: Layout, address: u64, pc: u64) -> Answer
    requires { AcceptedOf section.now layout }
    ensures { answer_told result ≡ answer_of section.now address pc }
{
    let search = find(section, layout, address, pc);
    Answer {
        outcome: with_cover(section, layout, search.cover, address, pc),
        compared: search.compared,
    }
}

// The answer on any bytes: the section checks first.
#[tactic(auto, unfolding(crate::specs::Computed::Answers::answer_after, crate::specs::Computed::Answers::lookup_of))]
pub fn lookup(section: &[u8], address: u64, pc: u64) -> Result<Answer, Refusal>
    ensures { lookup_told result ≡ lookup_of section.now address pc }
{
    match check(section) {
        Err(refusal) => Err(refusal),
        Ok(()) => Ok(look(section, layout_at(section), address, pc)),
    }
}
