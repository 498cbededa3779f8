// Handles a received RERR: finds the matches, writes the RERR that the point sends, and invalidates the rows of the matches. The
// caller must write the RERR before it changes the rows, because an invalidated row no longer matches.
#![tactic(auto)]

pub mod matching;
pub mod report;
pub mod rows;
