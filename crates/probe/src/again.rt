// Writes an element again as a frame. Each public function returns refusal 2 if the frame does not fit into the output.
ghost use Rattle.std.specs.Prelude.{◌≡◌, ◌+◌, ◌≤◌, Err, Ok, cond, leb, length};
ghost use Rattle.element.specs.Element.{rann, rerr, rrep, rreq};
ghost use Rattle.element.specs.Entries.{lost_in, numbered_in, targets_in};
ghost use Rattle.element.specs.Layout.{PartOf};
ghost use Rattle.element.specs.Octets.{write_frame};
ghost use Rattle.element.specs.declared.Kind.{Kind};
ghost use Rattle.refusals.specs.declared.Refusal.{Refusal};
ghost use Rattle.refusals.specs.Numbers.{answer_of};
ghost use Rattle.probe.specs.Probes.{written};

use element::list::ListKind;
use element::{LostDestination, PathInfo, RerrFields, RrepFields, RreqFields, Target, list};
use layout::address::Address;
use refusals::Refusal;
use writing::kept;

// Checks that `size` octets fit into the output from the place `at` on.
fn check_room(out: &[u8], at: usize, size: usize) -> Result<(), Refusal>
    ensures { result
        ≡ cond (leb (at + size) (length out.now)) (Ok (tt {0})) (Err Refusal.ShortOutput) }
{
    if at <= out.len() && size <= out.len() - at {
        Ok(())
    } else {
        Err(Refusal::ShortOutput)
    }
}

pub fn write_rann(out: &mut [u8], at: usize, to: Address, path: PathInfo) -> Result<(), Refusal>
    ensures { record { answer = answer_of result; memory = out.new }
        ≡ written out.old at (write_frame to (rann path)) }
{
    check_room(out, at, writing::RANN_START)?;
    writing::write_rann(out, at, to, path);
    Ok(())
}

// Writes the destinations one by one if `singly` says so, otherwise as the lent list part has them. The octets are the same.
pub fn write_rreq(
    out: &mut [u8],
    at: usize,
    to: Address,
    f: RreqFields,
    part: &[u8],
    singly: bool,
) -> Result<(), Refusal>
    requires { PartOf Kind.Rreq part.now }
    ensures { record { answer = answer_of result; memory = out.new }
        ≡ written out.old at (write_frame to (rreq f (targets_in part.now))) }
{
    check_room(out, at, writing::RREQ_START + part.len())?;
    if !singly {
        writing::write_rreq(out, at, to, f, part);
        return Ok(());
    }
    let n = list::entries_in(part, ListKind::Targets);
    let place = writing::start_rreq(out, at, to, f, n);
    kept::write_kept(out, place, part, |q: Target| Some(q));
    Ok(())
}

pub fn write_rrep(
    out: &mut [u8],
    at: usize,
    to: Address,
    f: RrepFields,
    part: &[u8],
) -> Result<(), Refusal>
    requires { PartOf Kind.Rrep part.now }
    ensures { record { answer = answer_of result; memory = out.new }
        ≡ written out.old at (write_frame to (rrep f (numbered_in part.now))) }
{
    check_room(out, at, writing::RREP_START + part.len())?;
    writing::write_rrep(out, at, to, f, part);
    Ok(())
}

pub fn write_rerr(
    out: &mut [u8],
    at: usize,
    to: Address,
    f: RerrFields,
    part: &[u8],
) -> Result<(), Refusal>
    requires { PartOf Kind.Rerr part.now }
    ensures { record { answer = answer_of result; memory = out.new }
        ≡ written out.old at (write_frame to (rerr f (lost_in part.now))) }
{
    check_room(out, at, writing::RERR_START + part.len())?;
    let n = list::entries_in(part, ListKind::LostDestinations);
    let place = writing::start_rerr(out, at, to, f, n);
    kept::write_kept(out, place, part, |m: LostDestination| Some(m));
    Ok(())
}
