// Why an answer was given, in numbers: of a lookup, and of a step.
#![tactic(auto)]

pub mod coverers;
pub mod looked;
pub mod nearby;
pub mod stepped;
pub mod sums;
pub mod why;
