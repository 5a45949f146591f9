// The run on a plan's columns, as definitions (specs/), and that it is the direct run (proofs/). There is no code here.
#![tactic(auto)]
