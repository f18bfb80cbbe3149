// The walks of the calls in place, as far as they know nothing of the call: proofs alone.
#![tactic(auto)]
