// The calls on a table alone, which emit no frames: make a fresh table, find a next hop, forget a destination.
#![tactic(auto)]

pub mod forget;
pub mod fresh;
pub mod next_hop;
