// The section checks, 1 to 15: whether a section obeys the rules, and the first rule that it breaks.
#![tactic(auto)]

pub mod entry_check;
pub mod header_check;
pub mod row_check;
pub mod section_check;
pub mod verdict;
