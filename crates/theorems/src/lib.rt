// The theorems about the rules of `docs/PROTOCOL.md`, stated in `specs/Statements.antt`. This crate has no code.
#![tactic(auto)]
