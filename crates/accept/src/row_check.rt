// Checks 11 to 13 of the rows of one function, row by row: fixed part inside, info, offsets inside, start.
ghost use Rattle.std.specs.Prelude.{◌≡◌, ◌≤◌, length};
ghost use Rattle.accept.specs.Computed.Checks.{wrong_row_info, rows_fault};
ghost use Rattle.accept.specs.Inner.Passed.{row_passed};
ghost use Rattle.accept.specs.Told.{fault_told, rows_told};

use crate::verdict::Rule;
use numbers::field::{field_at, width_of};
use section::row::{count_of, info_at, offset_size_of, row_length};
use section::shape::Shape;

// A row that was found sound: where it starts, and where the next one stands.
#[derive(Clone, Copy)]
pub struct RowPassed {
    pub start: u32,
    pub next: usize,
}

// Whether an info byte has offset size 3 or a count that is not allowed.
#[tactic(auto, unfolding(crate::specs::Computed::Checks::wrong_row_info))]
fn wrong_row_info(most: u8, info: u8) -> bool
    ensures { result ≡ wrong_row_info most info }
{
    offset_size_of(info) == 3 || count_of(info) == 0 || most < count_of(info)
}

// The row at `at`, which may start at `low` or above it: fixed part inside, info, offsets inside, start. A start is read once, for
// its own test and for the next row's. It is compiled into each of the walks that call it.
#[inline(always)]
#[tactic(auto, using(section::proofs::OffsetLaws::row_below), unfolding(crate::specs::Computed::Checks::first_bad, crate::specs::Computed::Checks::row_tests, crate::specs::Computed::Checks::row_fault, crate::specs::Inner::Passed::unless_broken, crate::specs::Inner::Passed::row_passed, crate::specs::Given::number_of_rule, section::specs::Row::row_start))]
pub fn pass_row(
    area: &[u8],
    shape: Shape,
    code: usize,
    at: usize,
    low: u64,
) -> Result<RowPassed, Rule>
    requires { (code ≤ 2) × (at ≤ length area.now) }
    ensures { rows_told result ≡ row_passed area.now shape code at low }
{
    if area.len() < at + width_of(code) + 1 {
        return Err(Rule::RowsInside);
    }
    if wrong_row_info(shape.most, info_at(area, code, at)) {
        return Err(Rule::RowInfo);
    }
    let next = at + row_length(area, code, at);
    if area.len() < next {
        return Err(Rule::RowsInside);
    }
    let start = field_at(area, at, code, shape.order);
    if (start as u64) < low {
        return Err(Rule::RowsRising);
    }
    Ok(RowPassed { start, next })
}

// All rows of a function, the first of which stands at `first`. `low` is the least start that the next row may have. The walk is
// compiled into each of its calls below, where the width of a start is known.
#[inline(always)]
fn walk_rows(area: &[u8], shape: Shape, code: usize, first: usize, count: u32) -> Result<(), Rule>
    requires { (code ≤ 2) × (first ≤ length area.now) }
    ensures { fault_told result ≡ rows_fault area.now shape code first count }
{
    let mut at = first;
    let mut low = 0;
    for k in 0..count {
        let passed = match pass_row(area, shape, code, at, low) {
            Ok(passed) => passed,
            Err(rule) => return Err(rule),
        };
        low = passed.start as u64 + 1;
        at = passed.next;
    }
    Ok(())
}

// The rows by their type, told apart outside the walk, so that each walk is compiled for its own width of start.
pub fn check_rows(
    area: &[u8],
    shape: Shape,
    code: usize,
    first: usize,
    count: u32,
) -> Result<(), Rule>
    requires { (code ≤ 2) × (first ≤ length area.now) }
    ensures { fault_told result ≡ rows_fault area.now shape code first count }
{
    match code {
        0 => walk_rows(area, shape, 0, first, count),
        1 => walk_rows(area, shape, 1, first, count),
        _ => walk_rows(area, shape, 2, first, count),
    }
}
