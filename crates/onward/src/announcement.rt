// Forwards a RANN to all ones.
ghost use Rattle.std.specs.Prelude.{◌≡◌, ◌+◌, ◌≤◌, length};
ghost use Rattle.rules.specs.Learn.{Extends};
ghost use Rattle.octets.specs.LittleEndian.{overwrite};
ghost use Rattle.rules.specs.Onward.{rann_onward};
ghost use Rattle.rules.specs.Exit.{frame_octets};
ghost use Rattle.calls.specs.Answers.{emitted};

use calls::Emitted;
use element::{PathInfo, list};
use layout::address::Address;
use rules::Arrival;

// Writes the forwarded RANN at place `at` of the output, if its TTL is at least 2.
pub fn send_on(output: &mut [u8], at: usize, a: Arrival, p: PathInfo) -> Emitted
    requires extends { Extends a p }
    requires at_in_bounds { at + 29 ≤ length output.old }
    ensures value { result ≡ emitted (rann_onward a p) }
    ensures output_after { output.new ≡ overwrite output.old at (frame_octets (rann_onward a p)) }
{
    if p.ttl < 2 {
        return Emitted::nothing();
    }
    let path = crate::onward(a, p);
    let end = writing::write_rann(output, at, Address(list::ALL_ONES), path);
    Emitted::one_frame(end - at)
}
