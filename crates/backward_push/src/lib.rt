// The backward solver below its public calls with rows and with links.
#![tactic(auto)]

pub mod reversed;
pub mod rows;
