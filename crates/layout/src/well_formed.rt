// Tests what refusal 21 asks of a head alone and of a row alone.
ghost use Rattle.std.specs.Prelude.{◌≡◌};
ghost use Rattle.layout.specs.Row.{bounds_ok, head_ok, is_held, is_other, is_unnumbered, status_ok};

use crate::address::Address;
use crate::row::{Head, MAX_CLOCK, Row};

// The largest expiry of a row, 2^48 + 2^32.
const MAX_EXPIRY: u64 = 281479271677952;

impl Address {
    #[tactic(auto, unfolding(crate::specs::Row::is_other))]
    fn is_other(self, own: Address) -> bool
        ensures { result ≡ is_other own self }
    {
        self.is_individual() & (self != own)
    }
}

impl Head {
    #[tactic(auto, unfolding(crate::specs::Row::head_ok))]
    pub fn is_ok(self) -> bool
        ensures { result ≡ head_ok self }
    {
        if !self.own.is_individual() {
            return false;
        }
        (self.zero2 == 0) & (self.clock <= MAX_CLOCK) & (self.zero8 == 0)
    }
}

impl Row {
    #[tactic(auto, unfolding(crate::specs::Row::is_unnumbered))]
    fn is_unnumbered(self) -> bool
        ensures { result ≡ is_unnumbered self }
    {
        (self.number.0 == 0) & (self.hops.0 == 1) & (self.next == self.destination)
    }

    #[tactic(auto, unfolding(crate::specs::Row::status_ok))]
    fn status_ok(self) -> bool
        ensures { result ≡ status_ok self }
    {
        (1 <= self.status) & (self.status <= 2) & (self.known <= 1) & (self.zero == 0)
    }

    #[tactic(auto, unfolding(crate::specs::Row::bounds_ok))]
    fn bounds_ok(self) -> bool
        ensures { result ≡ bounds_ok self }
    {
        (1 <= self.metric.0) & (self.expiry <= MAX_EXPIRY)
    }

    #[tactic(auto, unfolding(crate::specs::Row::is_held))]
    pub fn is_held(self, own: Address) -> bool
        ensures { result ≡ is_held own self }
    {
        if !self.status_ok() {
            return false;
        }
        if !self.destination.is_other(own) {
            return false;
        }
        if !self.next.is_other(own) {
            return false;
        }
        if !self.bounds_ok() {
            return false;
        }
        if self.known == 1 {
            return true;
        }
        self.is_unnumbered()
    }
}
