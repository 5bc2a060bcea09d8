// The function and row for a PC: the one function that covers it, the last of its rows at or below, and how many entries
// were compared.
#![tactic(auto)]

pub mod answer;
pub mod look;
pub mod rows;
pub mod search;
pub mod table;
