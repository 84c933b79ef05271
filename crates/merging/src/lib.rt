// The definitions of merging and the theorems about them, from src/merge.rs and the specification. This crate has no code: the code that meets the definitions stands in the crates above it.
#![tactic(auto)]
