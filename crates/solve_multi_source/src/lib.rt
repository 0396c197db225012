// A forward solve from many sources: the public calls for a list of links and for rows.
#![tactic(auto)]

pub mod links;
pub mod rows;
