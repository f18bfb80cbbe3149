// Two units that agree in what counts of them answer alike: a proof alone.
#![tactic(auto)]
