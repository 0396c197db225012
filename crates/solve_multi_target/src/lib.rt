// A backward solve from many targets: the public calls for a list of links and for rows.
#![tactic(auto)]

pub mod links;
pub mod rows;
