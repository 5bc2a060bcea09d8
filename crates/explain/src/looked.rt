// Why a lookup gives its answer: the function and the row that it uses with the offset they are found by, or what there is in their
// place.
ghost use Rattle.std.specs.Prelude.{◌≡◌, ℕ, ◌≤◌, ◌<◌};
ghost use Rattle.numbers.specs.Start.{distance};
ghost use Rattle.section.specs.Meaning.{functions_of};
ghost use Rattle.section.specs.Row.{row_place};
ghost use Rattle.section.specs.Inner.Reading.{Readable};
ghost use Rattle.accept.specs.Computed.Checks.{entry_fault};
ghost use Rattle.accept.specs.Fault.{Sound};
ghost use Rattle.lookup.specs.Computed.Covering.{covering, cover_of};
ghost use Rattle.lookup.specs.Inner.Requires.{HeaderOf, AcceptedOf, RowAsked};
ghost use Rattle.explain.specs.Computed.Lookup.{start_in, by_scan, in_function, alone_why, no_function_why, by_cover, looked_of, lookup_why};
ghost use Rattle.explain.specs.Told.{lookup_why_told};

use crate::coverers::{all_covering, no_coverers};
use crate::nearby::{Side, nearest_at};
use crate::why::{FoundRow, LookedWhy, NotFound};
use accept::section_check::check;
use accept::verdict::Refusal;
use lookup::look::reached_in;
use lookup::rows::{Hit, scan_rows};
use lookup::search::{Cover, find};
use section::entry::{Entry, type_of};
use section::header::{Layout, layout_at};
use section::row::{row_length, row_start_at};
use section::shape::{Shape, shape_of};

// Where row k stands: each row follows the one before it.
#[tactic(auto, unfolding(section::specs::Row::row_place))]
fn row_place(area: &[u8], code: usize, first: usize, k: u64) -> usize
    requires { ((j : ℕ) → j < k → Readable area.now code (row_place area.now code first j)) × (code ≤ 2) }
    ensures { result ≡ row_place area.now code first k }
{
    let mut at = first;
    for j in 0..k {
        at += row_length(area, code, at);
    }
    at
}

// Where row k of an entry starts, if there is one.
#[tactic(auto, using(accept::proofs::RowLaws::entry_sound), unfolding(crate::specs::Computed::Lookup::start_in, section::specs::Row::row_start))]
fn start_in(area: &[u8], shape: Shape, entry: Entry, k: u64) -> Option<u64>
    requires { entry_fault area.now shape entry ≡ Sound }
    ensures { result ≡ start_in area.now shape entry k }
{
    if k < entry.rows as u64 {
        let order = shape.order;
        let code = type_of(entry.info);
        let at = row_place(area, code, entry.first as usize, k);
        return Some(row_start_at(area, order, code, at));
    }
    None
}

// What the rows of function i come to at offset o.
#[tactic(auto, unfolding(crate::specs::Computed::Lookup::by_scan))]
fn by_scan(
    area: &[u8],
    shape: Shape,
    entry: Entry,
    i: u64,
    o: u64,
    scan: Option<Hit>,
) -> Result<FoundRow, NotFound>
    requires { entry_fault area.now shape entry ≡ Sound }
    ensures { result ≡ by_scan area.now shape entry i o scan }
{
    match scan {
        None => Err(NotFound::NoRow {
            function: i,
            offset: o,
            first: start_in(area, shape, entry, 0),
        }),
        Some(Hit { row, number }) => Ok(FoundRow {
            row,
            function: i,
            number: number as u64,
            offset: o,
            next: start_in(area, shape, entry, number as u64 + 1),
        }),
    }
}

// What function i comes to, which alone covers the PC.
#[tactic(auto, using(section::proofs::AreaLaws::to_the_end, accept::proofs::AcceptedLaws::area_inside, lookup::proofs::LookLaws::accepted_header, lookup::proofs::LookLaws::fault_free, lookup::proofs::TableLaws::header_obeys), unfolding(crate::specs::Computed::Lookup::in_function, lookup::specs::Computed::Rows::row_for, section::specs::Meaning::function_in, section::specs::Meaning::area_of, section::specs::Meaning::shape_of, lookup::specs::Inner::Reached::reached_in))]
fn in_function(
    section: &[u8],
    layout: Layout,
    i: u64,
    address: u64,
    pc: u64,
) -> Result<FoundRow, NotFound>
    requires { RowAsked section.now layout i (distance address pc) }
    ensures { result ≡ in_function section.now (distance address pc) i }
{
    let reached = reached_in(section, layout, i, address, pc);
    let entry = reached.entry;
    let o = reached.offset;
    let abi = layout.abi;
    let shape = shape_of(abi);
    let from = layout.area as usize;
    let area = &section[from..];
    by_scan(area, shape, entry, i, o, scan_rows(area, shape, entry, o))
}

// Without a dispute, nobody stands beside.
#[tactic(auto, unfolding(crate::specs::Computed::Lookup::alone_why))]
fn alone(looked: Result<FoundRow, NotFound>) -> LookedWhy
    ensures { result ≡ alone_why looked }
{
    LookedWhy {
        looked,
        coverers: no_coverers(),
    }
}

// 21: the nearest addresses that are covered.
#[tactic(auto, unfolding(crate::specs::Computed::Lookup::no_function_why))]
fn no_function(section: &[u8], layout: Layout, address: u64, pc: u64) -> NotFound
    requires { HeaderOf section.now layout }
    ensures { result ≡ no_function_why section.now (distance address pc) }
{
    NotFound::NoFunction {
        below: nearest_at(section, layout, Side::Below, address, pc),
        above: nearest_at(section, layout, Side::Above, address, pc),
    }
}

#[tactic(auto, using(lookup::proofs::LookLaws::accepted_header), unfolding(crate::specs::Computed::Lookup::by_cover))]
fn by_cover(section: &[u8], layout: Layout, cover: Cover, address: u64, pc: u64) -> LookedWhy
    requires { AcceptedOf section.now layout × (cover ≡ cover_of (covering (distance address pc) (functions_of section.now))) }
    ensures { result ≡ by_cover section.now (distance address pc) cover }
{
    match cover {
        Cover::Nobody => alone(Err(no_function(section, layout, address, pc))),
        Cover::One(i) => alone(in_function(section, layout, i, address, pc)),
        Cover::Two(first, second) => LookedWhy {
            looked: Err(NotFound::Dispute),
            coverers: all_covering(section, layout, address, pc),
        },
    }
}

// On a section that was checked before.
#[tactic(auto, using(lookup::proofs::LookLaws::accepted_header, lookup::proofs::SearchLaws::search_finds_covering), unfolding(crate::specs::Computed::Lookup::looked_of, lookup::specs::Inner::Search::search_of))]
pub fn explain_look(section: &[u8], layout: Layout, address: u64, pc: u64) -> LookedWhy
    requires { AcceptedOf section.now layout }
    ensures { result ≡ looked_of section.now (distance address pc) }
{
    let search = find(section, layout, address, pc);
    let cover = search.cover;
    by_cover(section, layout, cover, address, pc)
}

// On any bytes: a refused section explains itself by its rule and index.
#[tactic(auto, using(accept::proofs::AcceptedLaws::accepted_laws), unfolding(crate::specs::Computed::Lookup::why_after, crate::specs::Computed::Lookup::lookup_why))]
pub fn explain_lookup(section: &[u8], address: u64, pc: u64) -> Result<LookedWhy, Refusal>
    ensures { lookup_why_told result ≡ lookup_why section.now address pc }
{
    match check(section) {
        Err(refusal) => Err(refusal),
        Ok(()) => Ok(explain_look(section, layout_at(section), address, pc)),
    }
}
