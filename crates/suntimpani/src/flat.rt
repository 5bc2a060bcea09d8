// Verdicts and lookups' answers as the flat structs that C sees. Fields without meaning in a case are 0.
ghost use Rattle.std.specs.Prelude.{◌≡◌};
ghost use Rattle.accept.specs.Told.{verdict_told};
ghost use Rattle.lookup.specs.Told.{outcome_told, lookup_told};
ghost use Rattle.suntimpani.specs.Flat.{flat_verdict, base_number, place_kind, place_offset, flag, empty_row, flat_row, flat_answer};

use accept::verdict::Refusal;
use lookup::answer::{Answer, Found, Unfound};
use numbers::offset::Offset;
use section::row::{Base, Place, Row};

// A verdict: number 0 is accepted, else the number and the entry's index.
#[repr(C)]
#[derive(Clone, Copy)]
pub struct VerdictInC {
    pub number: u64,
    pub index: u64,
}

// What a lookup answers: number 0 is found. A place is 0 in a register, 1 at the offset beside it; a base is 0 for FP, 1 for SP.
#[repr(C)]
#[derive(Clone, Copy)]
pub struct AnswerInC {
    pub number: u64,
    pub function: u64,
    pub second: u64,
    pub compared: u64,
    pub row: u64,
    pub start: u64,
    pub base: u64,
    pub cfa: i64,
    pub raplace: u64,
    pub ra: i64,
    pub fpplace: u64,
    pub fp: i64,
    pub signedra: u64,
}

#[tactic(auto, unfolding(crate::specs::Flat::flat_verdict, accept::specs::Given::verdict_number, accept::specs::Given::verdict_indexes))]
pub fn flat_verdict(answer: Result<(), Refusal>) -> VerdictInC
    ensures { result ≡ flat_verdict (verdict_told answer) }
{
    match answer {
        Ok(()) => VerdictInC {
            number: 0,
            index: 0,
        },
        Err(refusal) => VerdictInC {
            number: refusal.rule.number(),
            index: refusal.index,
        },
    }
}

#[tactic(auto, unfolding(crate::specs::Flat::base_number))]
pub fn base_number(base: Base) -> u64
    ensures { result ≡ base_number base }
{
    match base {
        Base::Fp => 0,
        Base::Sp => 1,
    }
}

#[tactic(auto, unfolding(crate::specs::Flat::place_kind))]
pub fn place_kind(place: Place) -> u64
    ensures { result ≡ place_kind place }
{
    match place {
        Place::Register => 0,
        Place::AtOffset(offset) => 1,
    }
}

#[tactic(auto, unfolding(crate::specs::Flat::place_offset))]
pub fn place_offset(place: Place) -> Offset
    ensures { result ≡ place_offset place }
{
    match place {
        Place::Register => Offset { by: 0 },
        Place::AtOffset(offset) => offset,
    }
}

#[tactic(auto, unfolding(crate::specs::Flat::flag))]
pub fn flag_of(set: bool) -> u64
    ensures { result ≡ flag set }
{
    set as u64
}

// What stands in the fields of a row where none was found: it flattens to 0 in each.
#[tactic(auto, unfolding(crate::specs::Flat::empty_row))]
pub fn empty_row() -> Row
    ensures { result ≡ empty_row }
{
    Row {
        start: 0,
        base: Base::Fp,
        cfa: Offset { by: 0 },
        ra: Place::Register,
        fp: Place::Register,
        signed: false,
    }
}

#[tactic(auto, unfolding(crate::specs::Flat::flat_row))]
pub fn flat_row(
    number: u64,
    function: u64,
    second: u64,
    compared: u64,
    row: u64,
    decoded: Row,
) -> AnswerInC
    ensures { result ≡ flat_row number function second compared row decoded }
{
    let ra = place_offset(decoded.ra);
    let fp = place_offset(decoded.fp);
    AnswerInC {
        number,
        function,
        second,
        compared,
        row,
        start: decoded.start as u64,
        base: base_number(decoded.base),
        cfa: decoded.cfa.by,
        raplace: place_kind(decoded.ra),
        ra: ra.by,
        fpplace: place_kind(decoded.fp),
        fp: fp.by,
        signedra: flag_of(decoded.signed),
    }
}

// What was found in an accepted section, or why nothing was.
#[tactic(auto, unfolding(crate::specs::Flat::flat_answer, lookup::specs::Numbers::outcome_number, lookup::specs::Numbers::outcome_indexes, lookup::specs::Numbers::outcome_row, lookup::specs::Numbers::number_of_unfound))]
fn flat_outcome(outcome: Result<Found, Unfound>, compared: u64) -> AnswerInC
    ensures { result ≡ flat_answer (record { outcome = outcome_told outcome; compared = compared }) }
{
    match outcome {
        Ok(found) => flat_row(0, found.function, 0, compared, found.number, found.row),
        Err(Unfound::NoFunction) => flat_row(21, 0, 0, compared, 0, empty_row()),
        Err(Unfound::Dispute { first, second }) => {
            flat_row(22, first, second, compared, 0, empty_row())
        }
        Err(Unfound::NoRow { function }) => flat_row(23, function, 0, compared, 0, empty_row()),
    }
}

#[tactic(auto, unfolding(crate::specs::Flat::flat_answer, lookup::specs::Numbers::outcome_number, lookup::specs::Numbers::outcome_indexes, lookup::specs::Numbers::outcome_row))]
pub fn flat_answer(answer: Result<Answer, Refusal>) -> AnswerInC
    ensures { result ≡ flat_answer (lookup_told answer) }
{
    match answer {
        Ok(answer) => flat_outcome(answer.outcome, answer.compared),
        Err(refusal) => flat_row(refusal.rule.number(), refusal.index, 0, 0, 0, empty_row()),
    }
}
