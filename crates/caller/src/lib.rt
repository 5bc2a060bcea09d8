// One caller: from registers, a stack window and the row for a PC to the caller's registers, or a refusal.
#![tactic(auto)]

pub mod place;
pub mod registers;
pub mod signature;
pub mod step;
