// The push rules are definitions and theorems alone: see specs/ and proofs/.
#![tactic(auto)]
