// The frames that the points have sent, each kept in a slot with the number of its sender.
#![tactic(auto)]

ghost use Rattle.std.specs.Prelude.{◌≡◌, not, ◌∷◌, ◌+◌, ◌*◌, ◌<◌, ◌≤◌, get_or, length};
ghost use Rattle.octets.specs.LittleEndian.{Octets, overwrite};
ghost use Rattle.rules.specs.Decision.{◌above◌};
ghost use Rattle.rules.specs.Exit.{frames_in};
ghost use Rattle.bench_slots.specs.Slots.{Holds, element_of, kept_slots, put_frames, sender_of};

pub const MOST_FRAMES: usize = 128;

// The octets of a slot: sender (1), receiver address (6), ID (1), Length (1) and at most 255 octets after Length.
pub const SLOT_OCTETS: usize = 264;

// The octets of all slots.
pub const SLOTS: usize = MOST_FRAMES * SLOT_OCTETS;

// The number of a slot, which is below 128.
#[derive(Clone, Copy)]
pub struct Slot {
    pub number: usize,
    ghost in_slots: { number < 128 },
}

// Returns how many octets the frame at place `at` has, by its Length.
fn frame_length(output: &[u8], at: usize) -> usize
    requires { at + 8 ≤ length output.now }
    ensures value { result ≡ 8 + get_or output.now (at + 7) 0 }
    ensures upper_bound { result ≤ 263 }
{
    let length = octets::octet(output, at + 7);
    8 + length as usize
}

// Writes one frame and the number of its sender into a slot.
fn keep_frame(slots: &mut [u8; SLOTS], slot: Slot, sender: u8, frame: &[u8])
    requires { length frame.now ≤ 263 }
    ensures { slots.new ≡ overwrite slots.old (264 * slot.number) (sender ∷ frame.now) }
{
    let at = SLOT_OCTETS * slot.number;
    slots[at] = sender;
    octets::write_octets(slots, at + 1, frame);
}

// Keeps the n frames at the start of a call's output in the slots from `first` on. That the frames are whole there is a clause of
// the functions that hand the output on to this one. A struct of output and number would be made for these calls alone.
fn keep_frames(slots: &mut [u8; SLOTS], output: &[u8], sender: u8, first: usize, n: usize)
    requires n_bound { first + n ≤ 128 }
    requires holds { Holds n output.now }
    ensures { slots.new ≡ put_frames slots.old sender first (frames_in n output.now) }
{
    let mut at = 0;
    for i in 0..n {
        let end = at + frame_length(output, at);
        let slot = Slot { number: first + i };
        keep_frame(slots, slot, sender, &output[at..end]);
        at = end;
    }
}

// Keeps the n frames of a call after the `before` frames kept so far, and returns true. If there would be a 129th frame, keeps
// none of the n frames and returns false.
pub fn keep_emitted(
    slots: &mut [u8; SLOTS],
    output: &[u8],
    sender: u8,
    before: usize,
    n: u32,
) -> bool
    requires before_bound { before ≤ 128 }
    requires holds { Holds n output.now }
    ensures value { result ≡ not ((before + n) above 128) }
    ensures slots_after { slots.new ≡ kept_slots slots.old sender before n output.now }
    ensures octets { Octets slots.new }
{
    if MOST_FRAMES < before + n as usize {
        return false;
    }
    keep_frames(slots, output, sender, before, n as usize);
    true
}

// Returns the number of the point that sent the frame in a slot.
pub fn sender_of(slots: &[u8; SLOTS], slot: Slot) -> u8
    ensures { result ≡ sender_of slots.now slot.number }
{
    octets::octet(slots, SLOT_OCTETS * slot.number)
}

// Returns the element of the frame in a slot, without the receiver address.
pub fn element_of(slots: &[u8; SLOTS], slot: Slot) -> &[u8]
    ensures { result.now ≡ element_of slots.now slot.number }
{
    let at = SLOT_OCTETS * slot.number + 7;
    let length = octets::octet(slots, at + 1);
    let end = at + 2 + length as usize;
    &slots[at..end]
}
