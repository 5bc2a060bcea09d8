// What differs by ABI, in one place: a fourth ABI is one more arm.
ghost use Rattle.std.specs.Prelude.{◌≡◌};
ghost use Rattle.section.specs.Shape.{abi_of, aarch64_shape, amd64_shape, shape};

use numbers::field::Order;
use numbers::offset::Offset;

#[derive(Clone, Copy)]
pub enum Abi {
    Aarch64Big,
    Aarch64Little,
    Amd64,
}

#[derive(Clone, Copy)]
pub struct Shape {
    pub order: Order,
    // The most offsets that a row may have; the least is 1.
    pub most: u8,
    // The fixed offsets that the header must name.
    pub fixedfp: Offset,
    pub fixedra: Offset,
    // Whether RA lies at the fixed offset in every row; else the second offset of a row places it.
    pub usesfixed: bool,
    // Which offset of a row, counted from 0, places FP.
    pub fpindex: u8,
    // Whether a row's bit for a signed return address counts.
    pub signs: bool,
}

// The ABI that the header's code names. Check 6 refuses a code that names none.
#[tactic(auto, unfolding(crate::specs::Shape::abi_of))]
pub fn abi_of(code: u8) -> Abi
    ensures { result ≡ abi_of code }
{
    match code {
        1 => Abi::Aarch64Big,
        2 => Abi::Aarch64Little,
        _ => Abi::Amd64,
    }
}

#[tactic(auto, unfolding(crate::specs::Shape::aarch64_shape))]
fn aarch64(order: Order) -> Shape
    ensures { result ≡ aarch64_shape order }
{
    Shape {
        order,
        most: 3,
        fixedfp: Offset { by: 0 },
        fixedra: Offset { by: 0 },
        usesfixed: false,
        fpindex: 2,
        signs: true,
    }
}

#[tactic(auto, unfolding(crate::specs::Shape::amd64_shape))]
fn amd64() -> Shape
    ensures { result ≡ amd64_shape }
{
    Shape {
        order: Order::Little,
        most: 2,
        fixedfp: Offset { by: 0 },
        fixedra: Offset { by: -8 },
        usesfixed: true,
        fpindex: 1,
        signs: false,
    }
}

#[tactic(auto, unfolding(crate::specs::Shape::shape))]
pub fn shape_of(abi: Abi) -> Shape
    ensures { result ≡ shape abi }
{
    match abi {
        Abi::Aarch64Big => aarch64(Order::Big),
        Abi::Aarch64Little => aarch64(Order::Little),
        Abi::Amd64 => amd64(),
    }
}
