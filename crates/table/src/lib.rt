// The table of a point in lent octets: a head of 32 octets, and rows of 32 octets.
#![tactic(auto)]

pub mod legal;
pub mod search;
pub mod store;
