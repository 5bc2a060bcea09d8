// The parts of a section as values: header, function entry and row, decoded from the lent bytes, and what differs by ABI.
#![tactic(auto)]

pub mod entry;
pub mod header;
pub mod row;
pub mod shape;
