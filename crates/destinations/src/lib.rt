// Replies to the destinations of a received RREQ, in order. The table is the one after steps 1 and 2, and it does not change
// meanwhile. Crate `answering` finds the row that answers for a destination. Crate `onward` decides in a pass of its own which
// destinations are kept.
#![tactic(auto)]

pub mod replies;
