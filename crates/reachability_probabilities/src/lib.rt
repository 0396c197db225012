// How likely each node is to reach a target: the public calls for a list of links and for rows.
#![tactic(auto)]

pub mod links;
pub mod rows;
