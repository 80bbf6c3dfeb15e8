// Definitions and laws that several crates share. This crate has no code.
#![tactic(auto)]
