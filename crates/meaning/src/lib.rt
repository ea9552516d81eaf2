#![tactic(auto)]

// The meaning of a table stands in specs/ and its theorems in proofs/: both speak of definitions alone, so there is next to no code.
pub fn zero() -> usize {
    0
}
