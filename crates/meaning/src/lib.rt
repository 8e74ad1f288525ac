// The meaning of document 01, as definitions (specs/) and theorems about them (proofs/). No code runs here.
#![tactic(auto)]
