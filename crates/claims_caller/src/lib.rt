// What a caller has seen of its calls: definitions and proofs alone.
#![tactic(auto)]
