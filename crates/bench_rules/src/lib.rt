// This crate has no code. Its definitions in specs/ say what the bench does.
#![tactic(auto)]
