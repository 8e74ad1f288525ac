// What the calls of a script have in common (docs/CALLS.md): their arguments from its bytes, and what they print.
#![tactic(auto)]

pub mod arguments;
pub mod lines;
pub mod properties;
pub mod text;
