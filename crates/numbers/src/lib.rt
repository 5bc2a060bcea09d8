// Numbers as a section holds them: fields of 1, 2, 4 and 8 bytes in either byte order, signed offsets, and the exact
// sums and differences of addresses, all on u64.
#![tactic(auto)]

pub mod address;
pub mod field;
pub mod held;
pub mod offset;
