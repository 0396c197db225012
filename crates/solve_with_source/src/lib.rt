// A backward solve that stops early for a watched source: the public calls for a list of links and for rows.
#![tactic(auto)]

pub mod links;
pub mod rows;
