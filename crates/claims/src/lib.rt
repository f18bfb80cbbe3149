// What is claimed of the port: definitions and proofs alone.
#![tactic(auto)]
