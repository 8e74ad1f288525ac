// The three demands of document 00 as theorems: proofs/Demands.antt states them and cites the rest. No code runs here.
#![tactic(auto)]
