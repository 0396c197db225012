// The library as C calls it: each public function, under its own name, with its own promise. C's
// lists become the structs that the library takes, and its answer the record, or the number, that C reads. Nothing else is
// decided here.

#![tactic(auto)]

mod adaptive_solve_c;
mod combination_c;
mod edges_c;
mod forward_push_c;
mod graph_entries_c;
mod norm_c;
mod number;
mod query_single_entry_c;
mod query_transition_probability_c;
mod reachability_probabilities_c;
mod solve_bidirectional_c;
mod solve_multi_source_c;
mod solve_multi_target_c;
mod solve_single_source_c;
mod solve_single_target_c;
mod solve_with_source_c;
mod solve_with_target_c;
