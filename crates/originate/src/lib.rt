// The calls that send a new element about the point itself: announce and root request. Crate `ask` uses `common` too.
#![tactic(auto)]

pub mod announce;
pub mod common;
pub mod root_request;
