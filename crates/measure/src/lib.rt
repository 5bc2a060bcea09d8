// For the benchmark alone: many lookups in a section that is checked once. The crate `measure_c` exports it in a static library of its
// own, and it is no part of the product's. What the lookups found goes into a digest, so that none of them can be left out.
#![tactic(auto)]

ghost use Rattle.std.specs.Prelude.{◌≡◌, ◌<◌, ◌*◌, ◌^◌};
ghost use Rattle.lookup.specs.Inner.Requires.{AcceptedOf};
ghost use Rattle.lookup.specs.Told.{outcome_told, answer_told};
ghost use Rattle.measure.specs.Digest.{low, magnitude, place_weight, base_weight, flag_weight, row_weight, outcome_weight, weight, digest_from, measured_of};

use accept::section_check::check;
use lookup::answer::{Answer, Found, Unfound};
use lookup::look::look;
use numbers::offset::{Offset, Shift, shift_of};
use section::header::{Layout, layout_at};
use section::row::{Base, Place, Row};

#[repr(C)]
#[derive(Clone, Copy)]
pub struct Measured {
    pub number: u64,
    pub index: u64,
    pub digest: u64,
}

// The part of a number below 2^32.
pub fn low_of(n: u64) -> u64
    ensures value { result ≡ low n }
    ensures range { result < 2 ^ 32 }
{
    n % 0x1_0000_0000
}

pub fn magnitude_of(offset: Offset) -> u64
    ensures value { result ≡ magnitude offset }
    ensures range { result < 2 ^ 32 }
{
    match shift_of(offset) {
        Shift::Up(k) => low_of(k),
        Shift::Down(k) => low_of(k),
    }
}

fn place_weight(place: Place) -> u64
    ensures value { result ≡ place_weight place }
    ensures range { result < 2 ^ 32 }
{
    match place {
        Place::Register => 0,
        Place::AtOffset(offset) => magnitude_of(offset),
    }
}

fn base_weight(base: Base) -> u64
    ensures value { result ≡ base_weight base }
    ensures range { result < 2 ^ 32 }
{
    match base {
        Base::Fp => 0,
        Base::Sp => 1,
    }
}

fn flag_weight(set: bool) -> u64
    ensures value { result ≡ flag_weight set }
    ensures range { result < 2 ^ 32 }
{
    set as u64
}

pub fn row_weight(row: Row) -> u64
    ensures value { result ≡ row_weight row }
    ensures range { result < 6 * 2 ^ 32 }
{
    row.start as u64
        + base_weight(row.base)
        + magnitude_of(row.cfa)
        + place_weight(row.ra)
        + place_weight(row.fp)
        + flag_weight(row.signed)
}

fn outcome_weight(outcome: Result<Found, Unfound>) -> u64
    ensures value { result ≡ outcome_weight (outcome_told outcome) }
    ensures range { result < 8 * 2 ^ 32 }
{
    match outcome {
        Ok(found) => low_of(found.function) + low_of(found.number) + row_weight(found.row),
        Err(Unfound::NoFunction) => 21,
        Err(Unfound::Dispute { first, second }) => 22 + low_of(first) + low_of(second),
        Err(Unfound::NoRow { function }) => 23 + low_of(function),
    }
}

fn weight_of(answer: Answer) -> u64
    ensures value { result ≡ weight (answer_told answer) }
    ensures range { result < 9 * 2 ^ 32 }
{
    low_of(answer.compared) + outcome_weight(answer.outcome)
}

fn digest_of(section: &[u8], layout: Layout, address: u64, pcs: &[u64]) -> u64
    requires { AcceptedOf section.now layout }
    ensures { result ≡ digest_from section.now address 0 pcs.now }
{
    let mut digest = 0;
    for pc in pcs {
        let answer = look(section, layout, address, *pc);
        digest = (digest * 31 + weight_of(answer)) % 0x1_0000_0000;
    }
    digest
}

#[tactic(auto, unfolding(accept::specs::Given::number_of_rule))]
pub fn measure_finds(section: &[u8], address: u64, pcs: &[u64]) -> Measured
    ensures { result ≡ measured_of section.now address pcs.now }
{
    match check(section) {
        Err(refusal) => Measured {
            number: refusal.rule.number(),
            index: refusal.index,
            digest: 0,
        },
        Ok(()) => Measured {
            number: 0,
            index: 0,
            digest: digest_of(section, layout_at(section), address, pcs),
        },
    }
}
