// What the sheet and the kinds of number share: their letters, how many unknowns there may be, how large a number.

#![tactic(auto)]

// The letters by which the kinds of number are marked.
pub const FRAC: &[u8; 4] = b"FRAC";

pub const REST: &[u8; 4] = b"REST";

pub const MOST_UNKNOWNS: usize = 12;

// How far from zero a coefficient, and a right side, may lie. What a kind of number takes goes as far as a right side.
pub const COEFFICIENT_LIMIT: u32 = 1_000_000;

pub const RIGHT_SIDE_LIMIT: u32 = 1_000_000_000;
