// For the benchmark alone: the whole listing of a section that is checked once. Its lines go into a digest, so that none of them can be
// left out. The crate `measure_lines_c` exports it in a static library of its own, beside that of `measure`, so that each is compiled as a
// program that does one thing has it.
#![tactic(auto)]

ghost use Rattle.std.specs.Prelude.{◌≡◌, ◌<◌, ◌*◌, ◌^◌};
ghost use Rattle.listing.specs.Computed.Lines.{lines_left};
ghost use Rattle.measure_lines.specs.Listed.{kind_weight, function_weight, line_weight, digest_lines, listed_of};

use accept::section_check::check;
use listing::function::Kind;
use listing::lines::{Cursor, FunctionLine, Line, LineTurn, cursor_over, next_line};
use measure::{Measured, low_of, magnitude_of, row_weight};
use section::header::layout_at;

#[tactic(auto, unfolding(crate::specs::Listed::kind_weight))]
fn kind_weight(kind: Kind) -> u64
    ensures value { result ≡ kind_weight kind }
    ensures range { result < 2 ^ 32 }
{
    match kind {
        Kind::Plain => 0,
        Kind::Repeated(size) => size as u64,
    }
}

#[tactic(auto, unfolding(crate::specs::Listed::function_weight))]
fn function_weight(line: FunctionLine) -> u64
    ensures value { result ≡ function_weight line }
    ensures range { result < 6 * 2 ^ 32 }
{
    low_of(line.index) + magnitude_of(line.start) + line.size as u64 + kind_weight(line.kind)
}

#[tactic(auto, unfolding(crate::specs::Listed::line_weight))]
fn line_weight(line: Line) -> u64
    ensures value { result ≡ line_weight line }
    ensures range { result < 6 * 2 ^ 32 }
{
    match line {
        Line::OfFunction(function) => function_weight(function),
        Line::OfRow(row) => row_weight(row),
    }
}

#[tactic(auto, using(listing::proofs::LinesLeft::yield_line, listing::proofs::LinesLeft::yield_none), unfolding(crate::specs::Listed::digest_lines))]
fn digest_lines(section: &[u8], from: Cursor) -> u64
    ensures { result ≡ digest_lines 0 (lines_left section.now from) }
{
    let mut digest = 0;
    let mut cursor = from;
    while let LineTurn {
        next: Some(line),
        cursor: rest,
    } = next_line(section, cursor)
    {
        digest = (digest * 31 + line_weight(line)) % 0x1_0000_0000;
        cursor = rest;
    }
    digest
}

#[tactic(auto, using(listing::proofs::LineLaws::accepted_long, listing::proofs::ListingLaws::all_lines), unfolding(crate::specs::Listed::listed_by, crate::specs::Listed::listed_of, listing::specs::Listing::listing_by, listing::specs::Listing::listing_of))]
pub fn measure_listing(section: &[u8]) -> Measured
    ensures { result ≡ listed_of section.now }
{
    match check(section) {
        Ok(()) => Measured {
            number: 0,
            index: 0,
            digest: digest_lines(section, cursor_over(0, layout_at(section).functions)),
        },
        Err(refusal) => Measured {
            number: refusal.rule.number(),
            index: refusal.index,
            digest: 0,
        },
    }
}
