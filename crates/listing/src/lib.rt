// What a section lists: its functions by their index, the rows of each one at a time, and both as lines, in section order.
#![tactic(auto)]

pub mod function;
pub mod lines;
pub mod reader;
pub mod rows;
