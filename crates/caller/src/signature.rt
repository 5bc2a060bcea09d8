// A signed return address: by which bits it is signed, and what it is without them.
ghost use Rattle.std.specs.Prelude.{◌≡◌};
ghost use Rattle.caller.specs.Signature.{is_signed, mask_of, clear};
ghost use Rattle.caller.specs.Computed.Caller.{is_maskless};

use crate::registers::Process;
use section::row::Row;
use section::shape::Shape;

// Whether the return address is signed, where the machine signs any.
#[tactic(auto, unfolding(crate::specs::Signature::is_signed))]
fn is_signed(shape: Shape, row: Row) -> bool
    ensures { result ≡ is_signed shape row }
{
    shape.signs && row.signed
}

// Whether it is signed and no mask says by which bits.
#[tactic(auto, unfolding(crate::specs::Computed::Caller::is_maskless))]
pub fn is_maskless(shape: Shape, row: Row, process: Process) -> bool
    ensures { result ≡ is_maskless shape row process }
{
    is_signed(shape, row) && process.mask == 0
}

// The bits that are cleared from the return address: none of one that is not signed.
#[tactic(auto, unfolding(crate::specs::Signature::mask_of))]
pub fn mask_of(shape: Shape, row: Row, process: Process) -> u64
    ensures { result ≡ mask_of shape row process }
{
    if is_signed(shape, row) {
        process.mask
    } else {
        0
    }
}

// The return address without the bits of the mask.
#[tactic(auto, unfolding(crate::specs::Signature::clear))]
pub fn clear(mask: u64, ra: u64) -> u64
    ensures { result ≡ clear mask ra }
{
    ra - (mask & ra)
}
