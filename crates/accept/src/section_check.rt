// The whole check: the header, each entry in order by itself and beside the one before it, and the sum of the row counts.
ghost use Rattle.std.specs.Prelude.{◌&&◌, not, [], ◌∷◌, ◌≡◌, eqb, ltb};
ghost use Rattle.accept.specs.Computed.Checks.{first_bad, and_then, given_at, header_fault, entry_fault, entries_verdict, verdict};
ghost use Rattle.accept.specs.Fault.{Sound};
ghost use Rattle.accept.specs.Inner.Requires.{PartsOf};
ghost use Rattle.accept.specs.Told.{fault_told, verdict_told};

use crate::entry_check::check_entry;
use crate::header_check::check_header;
use crate::verdict::{Refusal, Rule};
use numbers::field::Order;
use section::entry::{Entry, entry_at, start_of};
use section::header::{Layout, layout_at, order_at};
use section::shape::{Shape, shape_of};

// Whether an entry starts below `low`, where the one before it ends, in a section that is sorted; both are held.
fn starts_below(sorted: bool, start: u64, low: u64) -> bool
    ensures { result ≡ sorted && ltb start low }
{
    sorted && start < low
}

// An entry by itself, and beside the one before it.
#[tactic(auto, unfolding(crate::specs::Computed::Checks::first_bad, crate::specs::Computed::Checks::and_then, crate::specs::Given::number_of_rule))]
fn check_turn(
    area: &[u8],
    shape: Shape,
    sorted: bool,
    entry: Entry,
    start: u64,
    low: u64,
) -> Result<(), Rule>
    ensures { fault_told result ≡ and_then (entry_fault area.now shape entry) (first_bad ((sorted && ltb start low, 14) ∷ [])) }
{
    if let Err(rule) = check_entry(area, shape, entry) {
        return Err(rule);
    }
    if starts_below(sorted, start, low) {
        return Err(Rule::Sorted);
    }
    Ok(())
}

// The row counts of all entries, added up, against the header's.
#[tactic(auto, unfolding(crate::specs::Computed::Checks::first_bad, crate::specs::Computed::Checks::given_at, crate::specs::Given::number_of_rule))]
fn check_sum(rows: u64, said: u32) -> Result<(), Refusal>
    ensures { verdict_told result ≡ given_at 0 (first_bad ((not (eqb rows said), 15) ∷ [])) }
{
    if rows == said as u64 {
        return Ok(());
    }
    Err(Refusal {
        rule: Rule::RowSum,
        index: 0,
    })
}

// Each entry in order. `low` is where the entry before ends, as it is held, and 0 before the first.
fn check_each(
    section: &[u8],
    area: &[u8],
    layout: Layout,
    shape: Shape,
    order: Order,
) -> Result<(), Refusal>
    requires { PartsOf section.now area.now layout shape order }
    ensures { verdict_told result ≡ entries_verdict section.now }
{
    let mut low = 0;
    let mut rows = 0;
    for i in 0..layout.functions {
        let entry = entry_at(section, order, layout.table as u32 + 20 * i);
        let start = start_of(layout.relative, entry);
        if let Err(rule) = check_turn(area, shape, layout.sorted, entry, start, low) {
            return Err(Refusal {
                rule,
                index: i as u64,
            });
        }
        low = start + entry.size as u64;
        rows += entry.rows as u64;
    }
    check_sum(rows, layout.rows)
}

fn check_entries(section: &[u8]) -> Result<(), Refusal>
    requires { header_fault section.now ≡ Sound }
    ensures { verdict_told result ≡ entries_verdict section.now }
{
    let layout = layout_at(section);
    let abi = layout.abi;
    let from = layout.area as usize;
    check_each(
        section,
        &section[from..],
        layout,
        shape_of(abi),
        order_at(section),
    )
}

// Whether a section is sound, whatever its bytes and its length.
#[tactic(auto, unfolding(crate::specs::Computed::Checks::verdict, crate::specs::Computed::Checks::then_try, crate::specs::Computed::Checks::given_at))]
pub fn check(section: &[u8]) -> Result<(), Refusal>
    ensures { verdict_told result ≡ verdict section.now }
{
    match check_header(section) {
        Ok(()) => check_entries(section),
        Err(rule) => Err(Refusal { rule, index: 0 }),
    }
}
