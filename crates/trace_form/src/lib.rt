// Traces: packed records one after the other, as definitions (specs/) and theorems about them (proofs/). No code runs here.
#![tactic(auto)]
