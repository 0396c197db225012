// The score of one node in a forward solve: the public calls for a list of links and for rows.
#![tactic(auto)]

pub mod links;
pub mod rows;
