// The rows of one function, checked and looked through in one walk: each turn is the one of a check (`pass_row` of `accept`), and the row is
// the one that `lookup` finds.
ghost use Rattle.std.specs.Prelude.{◌≡◌, ◌≤◌, ◌<◌, length};
ghost use Rattle.section.specs.Inner.Reading.{Readable};
ghost use Rattle.accept.specs.Told.{rows_told};
ghost use Rattle.ask.specs.Inner.Parts.{stop_after, walk_of, sought_at, sought_in};

use accept::entry_check::check_own;
use accept::row_check::pass_row;
use accept::verdict::Rule;
use lookup::look::block_offset;
use lookup::rows::{Hit, Stop};
use section::entry::{Entry, type_of};
use section::row::row_at;
use section::shape::Shape;

// The stop after one more row, the last of so many, which stands at `at`.
#[tactic(auto, unfolding(crate::specs::Inner::Parts::stop_after))]
fn stop_after(stop: Stop, rows: u32, at: usize, start: u64, o: u64) -> Stop
    ensures { result ≡ stop_after stop rows at start o }
{
    if start <= o {
        Stop { rows, place: at }
    } else {
        stop
    }
}

// All rows of a function, the first of which stands at `first`: where those at or below end. `low` is the least start that the next
// row may have. The walk is compiled into each of its calls below, where the width of a start is known.
#[inline(always)]
fn walk_rows(
    area: &[u8],
    shape: Shape,
    code: usize,
    first: usize,
    count: u32,
    o: u64,
) -> Result<Stop, Rule>
    requires { (code ≤ 2) × (first ≤ length area.now) }
    ensures { rows_told result ≡ walk_of area.now shape code first count o }
{
    let mut stop = Stop {
        rows: 0,
        place: first,
    };
    let mut at = first;
    let mut low = 0;
    for k in 0..count {
        let passed = match pass_row(area, shape, code, at, low) {
            Ok(passed) => passed,
            Err(rule) => return Err(rule),
        };
        stop = stop_after(stop, k + 1, at, passed.start as u64, o);
        low = passed.start as u64 + 1;
        at = passed.next;
    }
    Ok(stop)
}

// The rows by their type, told apart outside the walk, so that each walk is compiled for its own width of start.
fn walk_typed(
    area: &[u8],
    shape: Shape,
    code: usize,
    first: usize,
    count: u32,
    o: u64,
) -> Result<Stop, Rule>
    requires { (code ≤ 2) × (first ≤ length area.now) }
    ensures { rows_told result ≡ walk_of area.now shape code first count o }
{
    match code {
        0 => walk_rows(area, shape, 0, first, count, o),
        1 => walk_rows(area, shape, 1, first, count, o),
        _ => walk_rows(area, shape, 2, first, count, o),
    }
}

// The row at which the rows at or below end, if there are any.
#[tactic(auto, unfolding(crate::specs::Inner::Parts::sought_at))]
fn sought_at(area: &[u8], shape: Shape, code: usize, stop: Stop) -> Option<Hit>
    requires { 0 < stop.rows → Readable area.now code stop.place }
    ensures { result ≡ sought_at area.now shape code stop }
{
    if stop.rows == 0 {
        return None;
    }
    Some(Hit {
        row: row_at(area, shape, code, stop.place),
        number: stop.rows - 1,
    })
}

// The row of an entry for a PC that is `past` the function's start, if there is one, where the entry and its rows break nothing.
pub fn seek_row(area: &[u8], shape: Shape, entry: Entry, past: u64) -> Result<Option<Hit>, Rule>
    ensures { rows_told result ≡ sought_in area.now shape entry past }
{
    if let Err(rule) = check_own(area, entry) {
        return Err(rule);
    }
    let code = type_of(entry.info);
    let o = block_offset(entry, past);
    match walk_typed(area, shape, code, entry.first as usize, entry.rows, o) {
        Err(rule) => Err(rule),
        Ok(stop) => Ok(sought_at(area, shape, code, stop)),
    }
}
