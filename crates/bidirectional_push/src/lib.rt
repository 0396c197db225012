// The bidirectional solver below its public calls with rows; `checked_bidirectional_links` has what is below those with links.
#![tactic(auto)]

pub mod rows;
