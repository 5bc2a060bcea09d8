// Checks 9 to 13 of one entry by itself, over the row area.
ghost use Rattle.std.specs.Prelude.{◌&&◌, ◌≡◌, eqb};
ghost use Rattle.section.specs.Entry.{repeats};
ghost use Rattle.accept.specs.Computed.Checks.{wrong_entry_info, first_bad, entry_tests, entry_fault};
ghost use Rattle.accept.specs.Told.{fault_told};

use crate::row_check::check_rows;
use crate::verdict::Rule;
use section::entry::{Entry, does_repeat, type_of};
use section::header::bit_of;
use section::shape::Shape;

// Whether an info byte has bit 6 or 7 set, or a row type above 2.
#[tactic(auto, unfolding(crate::specs::Computed::Checks::wrong_entry_info))]
pub fn wrong_entry_info(info: u8) -> bool
    ensures { result ≡ wrong_entry_info info }
{
    bit_of(6, info) || bit_of(7, info) || 2 < type_of(info)
}

// Whether a block repeats by nothing.
pub fn wrong_repeat(info: u8, repeat: u8) -> bool
    ensures { result ≡ repeats info && eqb repeat 0 }
{
    does_repeat(info) && repeat == 0
}

// An entry before its rows are tried. It is compiled into each of its callers: a check, and the answer for one address.
#[inline(always)]
#[tactic(auto, unfolding(crate::specs::Computed::Checks::first_bad, crate::specs::Computed::Checks::entry_tests, crate::specs::Given::number_of_rule))]
pub fn check_own(area: &[u8], entry: Entry) -> Result<(), Rule>
    ensures { fault_told result ≡ first_bad (entry_tests area.now entry) }
{
    if wrong_entry_info(entry.info) {
        return Err(Rule::EntryInfo);
    }
    if wrong_repeat(entry.info, entry.repeat) {
        return Err(Rule::RepeatSize);
    }
    if area.len() < entry.first as usize {
        return Err(Rule::RowsInside);
    }
    Ok(())
}

// An entry, with its rows.
#[tactic(auto, unfolding(crate::specs::Computed::Checks::and_then, crate::specs::Computed::Checks::entry_fault))]
pub fn check_entry(area: &[u8], shape: Shape, entry: Entry) -> Result<(), Rule>
    ensures { fault_told result ≡ entry_fault area.now shape entry }
{
    if let Err(rule) = check_own(area, entry) {
        return Err(rule);
    }
    check_rows(
        area,
        shape,
        type_of(entry.info),
        entry.first as usize,
        entry.rows,
    )
}
