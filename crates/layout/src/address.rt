// Addresses of six octets.
ghost use Rattle.std.specs.Prelude.{◌≡◌};
ghost use Rattle.layout.specs.Address.{address_of, individual, octets_of};
ghost use Rattle.layout.specs.Marks.{mark};

// Holds six octets as a little-endian number: the first octet is the lowest.
#[derive(Clone, Copy, PartialEq, Eq)]
pub struct Address(pub u64);

impl From<&[u8; 6]> for Address {
    ghost from_gives = { λ s a. a ≡ address_of s.now };

    fn from(s: &[u8; 6]) -> Address {
        Address(octets::read_u48(s, 0))
    }
}

impl Address {
    // Returns the octets as they stand in a frame. This is a method, as `to_le_bytes` of a number is. `<[u8; 6]>::from(a)` would
    // not say what the array holds.
    pub fn octets(self) -> [u8; 6]
        ensures { result ≡ octets_of self }
    {
        let mut s = [0u8; 6];
        octets::write_number(&mut s, 0, 6, self.0);
        s
    }

    #[tactic(auto, unfolding(crate::specs::Address::individual))]
    pub fn is_individual(self) -> bool
        ensures { result ≡ individual self }
    {
        (self.0 % 2 == 0) & (self.0 != 0)
    }

    // Returns the mark of the address, a number from 0 to `last`. Callers pass a power of two less one as `last`. The last octets
    // of the address count most, because hardware of one maker shares its first octets.
    #[tactic(auto, unfolding(crate::specs::Marks::mark))]
    pub fn mark(self, last: usize) -> usize
        ensures { result ≡ mark last self }
    {
        let d = self.0 % 281474976710656;
        (d * 40503 / 1099511627776) as usize & last
    }
}
