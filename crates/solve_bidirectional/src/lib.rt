// The score of a forward and a backward solve together: the public calls for a list of links and for rows.
#![tactic(auto)]

pub mod links;
pub mod rows;
