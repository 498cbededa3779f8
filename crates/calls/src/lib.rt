// Shared parts of the calls: their answers, the checks of a neighbour and a clock, and a received path extended by its link.
#![tactic(auto)]

pub mod clocked;
pub mod here;

ghost use Rattle.std.specs.Prelude.{◌≡◌, [], ◌≤◌};
ghost use Rattle.rules.specs.Exit.{least_output};
ghost use Rattle.calls.specs.Answers.{emitted};

// An output of 1,560 octets holds the frames of any call. Functions that write frames require an output of this length, in a
// clause: the output is lent for writing, and a struct that holds a `&mut` adds a clause where it takes one away.
pub const LEAST_OUTPUT: usize = 1560;

// The TTL of every new element and of every reply.
pub const INITIAL_TTL: u8 = 31;

// How many frames and octets a call has written to the output.
#[derive(Clone, Copy, PartialEq, Eq)]
pub struct Emitted {
    pub frames: u32,
    pub octets: u32,
}

impl Emitted {
    pub fn nothing() -> Self
        ensures { result ≡ emitted [] }
    {
        Emitted {
            frames: 0,
            octets: 0,
        }
    }

    pub fn one_frame(octets: usize) -> Self
        requires { octets ≤ least_output }
        ensures { result ≡ record { frames = 1; octets = octets } }
    {
        Emitted {
            frames: 1,
            octets: octets as u32,
        }
    }
}
