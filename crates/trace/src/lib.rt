// The whole trace: step after step from a frame to its caller, each frame written to a lent buffer.
#![tactic(auto)]

pub mod answer;
pub mod walk;
