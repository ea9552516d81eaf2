#![tactic(auto)]

// Codes: how one is taken apart, whether it is proper or good, and what its neighbours ask of it.
pub mod layout;
pub mod looks;
pub mod parts;
pub mod seen;
