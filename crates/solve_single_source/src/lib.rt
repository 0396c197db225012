// A forward solve from one source: the public calls for a list of links and for rows.
#![tactic(auto)]

pub mod links;
pub mod rows;
