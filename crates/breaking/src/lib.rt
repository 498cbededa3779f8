// Reports a broken neighbour: writes the RERRs that name the rows that break, and breaks the rows.
#![tactic(auto)]

pub mod break_neighbour;
mod errors;
mod report;
mod rows;
