// The forward solver below its public calls with rows and with links, and the call that needs neither.
#![tactic(auto)]

pub mod extrapolation;
pub mod rows;
