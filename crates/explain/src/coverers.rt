// All functions that cover a PC: how many, and the first sixteen of them.
ghost use Rattle.std.specs.Prelude.{◌≡◌, ◌^◌, ◌<◌};
ghost use Rattle.numbers.specs.Start.{distance};
ghost use Rattle.section.specs.Meaning.{function_in};
ghost use Rattle.lookup.specs.Computed.Covering.{covers};
ghost use Rattle.lookup.specs.Inner.Requires.{HeaderOf};
ghost use Rattle.explain.specs.Computed.Coverers.{no_coverers, with_index, with_if, coverers_in};

use crate::why::Coverers;
use lookup::search::past_in;
use section::header::Layout;

// Nobody, where there is no dispute.
#[tactic(auto, unfolding(crate::specs::Computed::Coverers::no_coverers))]
pub fn no_coverers() -> Coverers
    ensures { result ≡ no_coverers }
{
    Coverers {
        count: 0,
        indexes: [0u64; 16],
    }
}

// One more that covers. It counts also where there is no room for its index.
#[tactic(auto, unfolding(crate::specs::Computed::Coverers::with_index, crate::specs::Computed::Coverers::placed))]
fn with_index(known: Coverers, i: u64) -> Coverers
    requires { known.count < 2 ^ 32 }
    ensures { result ≡ with_index known i }
{
    let n = known.count;
    let mut next = known;
    next.count = n + 1;
    if 16 <= n {
        return next;
    }
    let at = n as usize;
    next.indexes[at] = i;
    next
}

#[tactic(auto, unfolding(crate::specs::Computed::Coverers::with_if))]
fn with_if(known: Coverers, i: u64, covers: bool) -> Coverers
    requires { known.count < 2 ^ 32 }
    ensures { result ≡ with_if covers i known }
{
    // With both ways as one value, all indexes are copied in each turn, whether it covers or not.
    if covers {
        return with_index(known, i);
    }
    known
}

// Whether function i covers the PC.
#[tactic(auto, using(crate::proofs::CoversLaws::covers_none, crate::proofs::CoversLaws::covers_some))]
fn covers_pc(section: &[u8], layout: Layout, i: u64, address: u64, pc: u64) -> bool
    requires { HeaderOf section.now layout × (i < layout.functions) }
    ensures { result ≡ covers (distance address pc) (function_in section.now i) }
{
    match past_in(section, layout, i, address, pc) {
        None => false,
        Some(past) => true,
    }
}

// Every function is tried, in the section's order.
#[tactic(auto, using(crate::proofs::EachLaws::each_ends), unfolding(crate::specs::Computed::Coverers::no_coverers, crate::specs::Computed::Coverers::coverers_in))]
pub fn all_covering(section: &[u8], layout: Layout, address: u64, pc: u64) -> Coverers
    requires { HeaderOf section.now layout }
    ensures { result ≡ coverers_in section.now (distance address pc) }
{
    let mut known = no_coverers();
    for i in 0..layout.functions as u64 {
        let covers = covers_pc(section, layout, i, address, pc);
        known = with_if(known, i, covers);
    }
    known
}
