// Why a run has its verdict (document 02, CR 6): definitions (specs/) and theorems about them (proofs/). No code runs here.
#![tactic(auto)]
