// Where RA and FP of the caller are found, and what stands there.
ghost use Rattle.std.specs.Prelude.{◌≡◌};
ghost use Rattle.caller.specs.Computed.Caller.{spot_at, spot_of, is_lost, value_of, values_of};

use crate::registers::Registers;
use numbers::address::{address_of, word_at};
use numbers::field::Order;
use section::row::Place;

// A saved place with CFA known: kept in its register, saved at an address, or at an offset that leads beyond memory.
#[derive(Clone, Copy)]
pub enum Spot {
    Kept,
    Saved(u64),
    Beyond,
}

// RA and FP of the caller.
#[derive(Clone, Copy)]
pub struct Values {
    pub ra: u64,
    pub fp: u64,
}

// Which of the two words that a caller is read from.
#[derive(Clone, Copy)]
pub enum Needed {
    Ra,
    Fp,
}

#[tactic(auto, unfolding(crate::specs::Computed::Caller::spot_at))]
fn spot_at(address: Option<u64>) -> Spot
    ensures { result ≡ spot_at address }
{
    match address {
        Some(at) => Spot::Saved(at),
        None => Spot::Beyond,
    }
}

// The one function that finds a place, for RA and for FP, before any word is read.
#[tactic(auto, unfolding(crate::specs::Computed::Caller::spot_of))]
pub fn spot_of(cfa: u64, place: Place) -> Spot
    ensures { result ≡ spot_of cfa place }
{
    match place {
        Place::Register => Spot::Kept,
        Place::AtOffset(offset) => spot_at(address_of(cfa, offset)),
    }
}

// Whether RA is lost: it would be in LR, which is trusted with the mark alone.
#[tactic(auto, using(crate::proofs::RegisterLaws::twice_not), unfolding(crate::specs::Computed::Caller::is_lost, crate::specs::Frame::has_mark))]
pub fn is_lost(registers: Registers, ra: Spot) -> bool
    ensures { result ≡ is_lost registers ra }
{
    match ra {
        Spot::Kept => registers.first == 0,
        Spot::Saved(_) | Spot::Beyond => false,
    }
}

// What stands at a place: the register's value, or the word of the stack.
#[tactic(auto, unfolding(crate::specs::Computed::Caller::value_of))]
pub fn value_at(stack: &[u8], lies: u64, order: Order, register: u64, spot: Spot) -> Option<u64>
    ensures { result ≡ value_of stack.now lies order register spot }
{
    match spot {
        Spot::Kept => Some(register),
        Spot::Saved(at) => word_at(stack, lies, at, order),
        Spot::Beyond => None,
    }
}

// RA's word is tried before FP's; the error is the word that is outside the stack window.
#[tactic(auto, unfolding(crate::specs::Computed::Caller::both_of, crate::specs::Computed::Caller::values_of))]
pub fn values_at(
    stack: &[u8],
    lies: u64,
    order: Order,
    registers: Registers,
    ra: Spot,
    fp: Spot,
) -> Result<Values, Needed>
    ensures { result ≡ values_of stack.now lies order registers ra fp }
{
    let Some(ra) = value_at(stack, lies, order, registers.lr, ra) else {
        return Err(Needed::Ra);
    };
    let Some(fp) = value_at(stack, lies, order, registers.fp, fp) else {
        return Err(Needed::Fp);
    };
    Ok(Values { ra, fp })
}
