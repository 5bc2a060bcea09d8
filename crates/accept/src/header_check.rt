// Checks 1 to 8: the header by itself.
ghost use Rattle.std.specs.Prelude.{◌||◌, ◌≡◌, ◌≤◌, length, drop};
ghost use Rattle.numbers.specs.declared.field.Order.TheVariants.{Little, Big};
ghost use Rattle.section.specs.Header.{magic_in};
ghost use Rattle.accept.specs.Computed.Checks.{first_bad, same_offset, wrong_abi, wrong_fixed, wrong_sizes, header_tests, header_fault};
ghost use Rattle.accept.specs.Told.{fault_told};

use crate::verdict::Rule;
use numbers::field::Order;
use numbers::offset::Offset;
use section::header::{Marks, Sizes, magic_in, marks_at, order_at, sizes_at};
use section::shape::{abi_of, shape_of};

// The most bytes that a section may have.
const MOST: usize = 16_777_216;

fn has_magic(section: &[u8]) -> bool
    requires { 28 ≤ length section.now }
    ensures { result ≡ magic_in section.now Little || magic_in section.now Big }
{
    magic_in(section, Order::Little) || magic_in(section, Order::Big)
}

#[tactic(auto, unfolding(crate::specs::Computed::Checks::same_offset))]
fn same_offset(one: Offset, other: Offset) -> bool
    ensures { result ≡ same_offset one other }
{
    one.by == other.by
}

// Whether the ABI is none that is known, or disagrees with the byte order.
#[tactic(auto, unfolding(crate::specs::Computed::Checks::wrong_abi, crate::specs::Computed::Checks::same_order, section::specs::Shape::known_abi))]
fn wrong_abi(code: u8, order: Order) -> bool
    ensures { result ≡ wrong_abi code order }
{
    if code < 1 || 3 < code {
        return true;
    }
    let shape = shape_of(abi_of(code));
    !(shape.order == order)
}

// Whether the fixed offsets are not those of the ABI.
#[tactic(auto, unfolding(crate::specs::Computed::Checks::wrong_fixed))]
fn wrong_fixed(marks: Marks) -> bool
    ensures { result ≡ wrong_fixed marks }
{
    let shape = shape_of(abi_of(marks.abi));
    !same_offset(marks.fp, shape.fixedfp) || !same_offset(marks.ra, shape.fixedra)
}

// Whether an offset is not where it must be, or the parts do not add up to the length.
#[tactic(auto, unfolding(crate::specs::Computed::Checks::wrong_sizes))]
fn wrong_sizes(all: u64, auxiliary: u8, sizes: Sizes) -> bool
    ensures { result ≡ wrong_sizes all auxiliary sizes }
{
    let entries = 20 * sizes.functions as u64;
    sizes.tableoffset != 0
        || sizes.areaoffset as u64 != entries
        || 28 + auxiliary as u64 + entries + sizes.bytes as u64 != all
}

// 4 to 8.
#[tactic(auto, unfolding(crate::specs::Computed::Checks::first_bad, crate::specs::Computed::Checks::header_tests, crate::specs::Given::number_of_rule))]
fn check_parts(section: &[u8]) -> Result<(), Rule>
    requires { 28 ≤ length section.now }
    ensures { fault_told result ≡ first_bad (drop 3 (header_tests section.now)) }
{
    let order = order_at(section);
    let marks = marks_at(section);
    if marks.version != 2 {
        return Err(Rule::Version);
    }
    if 0x07 < marks.flags {
        return Err(Rule::Flags);
    }
    if wrong_abi(marks.abi, order) {
        return Err(Rule::Abi);
    }
    if wrong_fixed(marks) {
        return Err(Rule::Fixed);
    }
    if wrong_sizes(
        section.len() as u64,
        marks.auxiliary,
        sizes_at(section, order),
    ) {
        return Err(Rule::Sizes);
    }
    Ok(())
}

#[tactic(auto, unfolding(crate::specs::Computed::Checks::first_bad, crate::specs::Computed::Checks::header_tests, crate::specs::Computed::Checks::header_fault, crate::specs::Given::number_of_rule))]
pub fn check_header(section: &[u8]) -> Result<(), Rule>
    ensures { fault_told result ≡ header_fault section.now }
{
    if section.len() < 28 {
        return Err(Rule::Short);
    }
    if MOST < section.len() {
        return Err(Rule::Long);
    }
    if !has_magic(section) {
        return Err(Rule::Magic);
    }
    check_parts(section)
}
