// The limits of document 01 (`meaning`, specs/Limits.antt), each once.
#![tactic(auto)]

// "a sequence of 1 to 32 actions"
pub const MOST_ACTIONS: usize = 32;

// "with k from 0 to 63"
pub const LAST_ACTION: u8 = 63;

// Document 02, CR 7: "0 to 62 as it is, 63 for more or unknown"
pub const MOST_LOST: u8 = 63;

// "1 ≤ LB ≤ UB ≤ 60,000,000"
pub const LAST_BOUND: u64 = 60000000;

// "a stamp, 0 to 1,099,511,627,775 (2^40 − 1)"
pub const LAST_STAMP: u64 = 1099511627775;

// "At most 64 inputs may be open"
pub const MOST_OPEN: usize = 64;

// Document 02, CR 6 (`reasons`, specs/Reasons.antt): "a run of up to 256 lines"
pub const MOST_LINES: usize = 256;
