// Definitions of what each call of a mesh point does: see specs/. The only code is the struct `Arrival`, which groups operands
// of receive.
#![tactic(auto)]

use counters::Metric;
use layout::address::Address;

// How an element arrived: the clock, the transmitter and the link metric.
#[derive(Clone, Copy)]
pub struct Arrival {
    pub clock: u64,
    pub transmitter: Address,
    pub link: Metric,
}
