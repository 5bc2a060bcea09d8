// A function by its index as the flat struct that C sees. Fields without meaning in a case are 0.
ghost use Rattle.std.specs.Prelude.{◌≡◌};
ghost use Rattle.listing.specs.Told.{described_told};
ghost use Rattle.suntimpani.specs.Flat.{kind_number, repeat_of, no_function, flat_facts, flat_function};

use listing::function::{Facts, Kind, Undescribed};

// What is said of an index: known is 1 where there is such a function, else the number is 0 or that of a broken rule of the header.
// Repeated is 1 for repeated blocks, with their size.
#[repr(C)]
#[derive(Clone, Copy)]
pub struct FunctionInC {
    pub number: u64,
    pub known: u64,
    pub start: i64,
    pub size: u64,
    pub rows: u64,
    pub repeated: u64,
    pub repeat: u64,
}

#[tactic(auto, unfolding(crate::specs::Flat::kind_number))]
fn kind_number(kind: Kind) -> u64
    ensures { result ≡ kind_number kind }
{
    match kind {
        Kind::Plain => 0,
        Kind::Repeated(_) => 1,
    }
}

#[tactic(auto, unfolding(crate::specs::Flat::repeat_of))]
fn repeat_of(kind: Kind) -> u64
    ensures { result ≡ repeat_of kind }
{
    match kind {
        Kind::Plain => 0,
        Kind::Repeated(size) => size as u64,
    }
}

#[tactic(auto, unfolding(crate::specs::Flat::no_function))]
fn no_function(number: u64) -> FunctionInC
    ensures { result ≡ no_function number }
{
    FunctionInC {
        number,
        known: 0,
        start: 0,
        size: 0,
        rows: 0,
        repeated: 0,
        repeat: 0,
    }
}

#[tactic(auto, unfolding(crate::specs::Flat::flat_facts))]
fn flat_facts(facts: Facts) -> FunctionInC
    ensures { result ≡ flat_facts facts }
{
    FunctionInC {
        number: 0,
        known: 1,
        start: facts.start.by,
        size: facts.size as u64,
        rows: facts.rows.left,
        repeated: kind_number(facts.kind),
        repeat: repeat_of(facts.kind),
    }
}

#[tactic(auto, unfolding(crate::specs::Flat::flat_function))]
pub fn flat_function(described: Result<Facts, Undescribed>) -> FunctionInC
    ensures { result ≡ flat_function (described_told described) }
{
    match described {
        Ok(facts) => flat_facts(facts),
        Err(Undescribed::Unsound(rule)) => no_function(rule.number()),
        Err(Undescribed::Unknown) => no_function(0),
    }
}
