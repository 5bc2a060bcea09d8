// One address asked of a section that may be huge: nothing is checked but what the answer rests on.
#![tactic(auto)]

pub mod answer;
pub mod land;
pub mod rows;
