// Which function covers a PC, and the number of entries compared: a section that is not sorted is scanned, a sorted one is
// halved. Only a sound header is asked for.
ghost use Rattle.std.specs.Prelude.{◌&&◌, ◌≡◌, ◌+◌, ◌-◌, ◌^◌, ◌≤◌, ◌<◌, ℤ, pos, ◌+ℤ◌};
ghost use Rattle.std.specs.Int.Signed.{le_z, lt_z};
ghost use Rattle.lookup.specs.Computed.Covering.{covers, covering, cover_of};
ghost use Rattle.lookup.specs.Halving.{landing};
ghost use Rattle.lookup.specs.Inner.Requires.{HeaderOf};
ghost use Rattle.lookup.specs.Inner.Search.{past_start, past_in, first_where, landed_on, search_of};
ghost use Rattle.numbers.specs.Inner.Held.{Held, Near};
ghost use Rattle.numbers.specs.Start.{distance};
ghost use Rattle.section.specs.Meaning.{Function, entry_in, function_in, functions_of, function_start};

use crate::table::{Table, table_in};
use numbers::field::u32_at;
use numbers::held::{near_of, rank_of};
use section::header::Layout;

// How the least field, -2^31, is held: 2^31.
const LEAST: u64 = 0x8000_0000;

// Whether functions cover: none, one, or two or more, and then the two lowest. By their indexes.
#[derive(Clone, Copy)]
pub enum Cover {
    Nobody,
    One(u64),
    Two(u64, u64),
}

// Which functions cover, and the number of entries compared.
#[derive(Clone, Copy)]
pub struct Search {
    pub cover: Cover,
    pub compared: u64,
}

// Where the halving ends: one past the last entry that was found to start at most at d, and the number of entries compared.
#[derive(Clone, Copy)]
pub struct Landing {
    pub low: u64,
    pub compared: u64,
}

// ---- the fields of entry i: no other of its bytes is read

// How far the start of function i is above the least field, -2^31. Of its entry only the start field is read.
fn rank_at(table: Table<'_>, i: u64) -> u64
    requires { i < table.layout.functions }
    ensures { Held (function_start table.entry.section.now i) (result + 2 ^ 31) }
{
    let place = table.layout.table + 20 * i;
    let position = if table.layout.relative { place } else { 0 };
    rank_of(u32_at(table.section, place as usize, table.order)) + position
}

// The size of function i. Of its entry only this field is read.
fn size_at(table: Table<'_>, i: u64) -> u32
    requires { i < table.layout.functions }
    ensures { result ≡ (entry_in table.entry.section.now i).size }
{
    let at = (table.layout.table + 20 * i) as usize;
    u32_at(table.section, at + 4, table.order)
}

// ---- scanning: entry after entry is compared, none twice

// How far d is past a start. Before the start it is 2^64 less what is missing, farther than any size, so that one comparison
// with a size tells whether a function covers; it compiles to one subtraction.
#[tactic(auto, unfolding(crate::specs::Inner::Search::past_start))]
fn past_start(start: u64, d: u64) -> u64
    ensures { result ≡ past_start start d }
{
    if start <= d {
        return d - start;
    }
    d + (u64::MAX - start) + 1
}

// Whether a function of this start and size covers; the start and d are held.
fn is_within(start: u64, size: u32, d: u64) -> bool
    ensures { (f z : ℤ) → Held f start → Near z d → result ≡ le_z f z && lt_z z (f +ℤ pos size) }
{
    past_start(start, d) < size as u64
}

// Whether function i covers.
fn covers_at(table: Table<'_>, i: u64, d: u64) -> bool
    requires { i < table.layout.functions }
    ensures { (z : ℤ) → Near z d → result ≡ covers z (function_in table.entry.section.now i) }
{
    let start = rank_at(table, i) + LEAST;
    is_within(start, size_at(table, i), d)
}

// The first function from index `from` on that covers, and one past the last where none does.
fn next_covering(table: Table<'_>, d: u64, from: u64) -> u64
    requires { from ≤ table.layout.functions }
    ensures value { (z : ℤ) → Near z d → result ≡ first_where (λ i. covers z (function_in table.entry.section.now i)) (table.entry.layout.functions - from) from }
    ensures range { result ≤ table.entry.layout.functions }
{
    let end = table.layout.functions as u64;
    for i in from..end {
        if covers_at(table, i, d) {
            return i;
        }
    }
    end
}

// The lowest two that cover, if so many do.
fn scan(table: Table<'_>, d: u64) -> Cover
    ensures { (z : ℤ) → Near z d → result ≡ cover_of (covering z (functions_of table.entry.section.now)) }
{
    let first = next_covering(table, d, 0);
    if first == table.layout.functions as u64 {
        return Cover::Nobody;
    }
    let second = next_covering(table, d, first + 1);
    if second == table.layout.functions as u64 {
        return Cover::One(first);
    }
    Cover::Two(first, second)
}

// ---- halving

// The first number, counted as starts are here, that is past d.
fn bound_of(d: u64) -> u64
    ensures { result ≡ d + 1 - 2 ^ 31 }
{
    if d < LEAST {
        return 0;
    }
    d - LEAST + 1
}

// The halving rule over all entries. It is inlined at both of its calls, since a call would cost each frame of a trace.
#[inline(always)]
fn halve(table: Table<'_>, d: u64) -> Landing
    ensures value { (z : ℤ) → Near z d → result ≡ landing z (functions_of table.entry.section.now) }
    ensures range { result.low ≤ table.entry.layout.functions }
{
    let bound = bound_of(d);
    let mut low = 0;
    let mut high = table.layout.functions as u64;
    let mut compared = 0;
    while low < high {
        let middle = (low + high) / 2;
        compared += 1;
        if rank_at(table, middle) < bound {
            low = middle + 1;
        } else {
            high = middle;
        }
    }
    Landing { low, compared }
}

// Whether the function landed on, the one before `low`, covers. In a sorted section no other one can.
fn landed_on(table: Table<'_>, low: u64, d: u64) -> Cover
    requires { low ≤ table.layout.functions }
    ensures { (z : ℤ) → Near z d → result ≡ landed_on z (functions_of table.entry.section.now) low }
{
    if low == 0 {
        return Cover::Nobody;
    }
    if covers_at(table, low - 1, d) {
        return Cover::One(low - 1);
    }
    Cover::Nobody
}

// Where the halving rule lands for a PC, for those who do not ask whether the section is in order.
pub fn land(section: &[u8], layout: Layout, address: u64, pc: u64) -> Landing
    requires { HeaderOf section.now layout }
    ensures value { result ≡ landing (distance address pc) (functions_of section.now) }
    ensures range { result.low ≤ layout.functions }
{
    halve(table_in(section, layout), near_of(address, pc))
}

// How far d is past a start, where a function of this size covers; the start and d are held.
fn past_within(start: u64, size: u32, d: u64) -> Option<u64>
    ensures { (f : Function) (z : ℤ) → Held f.start start → Near z d → f.size ≡ size → result ≡ past_in z f }
{
    let past = past_start(start, d);
    if past < size as u64 { Some(past) } else { None }
}

// How far a PC is past the start of function i, where that covers it.
pub fn past_in(section: &[u8], layout: Layout, i: u64, address: u64, pc: u64) -> Option<u64>
    requires { HeaderOf section.now layout × (i < layout.functions) }
    ensures { result ≡ past_in (distance address pc) (function_in section.now i) }
{
    let table = table_in(section, layout);
    let start = rank_at(table, i) + LEAST;
    past_within(start, size_at(table, i), near_of(address, pc))
}

// The covering function for a PC: a sorted section is halved, any other is scanned.
pub fn find(section: &[u8], layout: Layout, address: u64, pc: u64) -> Search
    requires { HeaderOf section.now layout }
    ensures { result ≡ search_of layout.sorted (distance address pc) (functions_of section.now) }
{
    let table = table_in(section, layout);
    let d = near_of(address, pc);
    if layout.sorted {
        let landing = halve(table, d);
        return Search {
            cover: landed_on(table, landing.low, d),
            compared: landing.compared,
        };
    }
    Search {
        cover: scan(table, d),
        compared: layout.functions as u64,
    }
}
