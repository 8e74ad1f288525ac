// A verdict once told stays told (document 02, CR 3): definitions (specs/) and theorems about them (proofs/). No code runs here.
#![tactic(auto)]
