// Addresses, and the head and the rows of a table, as values and in octets.
#![tactic(auto)]

pub mod address;
pub mod elements;
pub mod row;
pub mod well_formed;
