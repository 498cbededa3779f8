// Keeps the frames that a call of a point has emitted.
ghost use Rattle.std.specs.Prelude.{◌≡◌, ◌<◌};
ghost use Rattle.bench_slots.specs.Slots.{Holds};
ghost use Rattle.bench_points.specs.InCode.{contents};
ghost use Rattle.bench_core.specs.InCode.{HoldsFrames, kept_as, kept_bench, settled_as, settled_bench};

use bench_points::{Bench, Fault, Printed};
use calls::Emitted;
use refusals::Refusal;

// Keeps the n frames of an accepted call of the sender, and returns its line. A 129th frame is a fault.
fn keep_emitted(bench: &mut Bench, sender: u8, n: u32, output: &[u8]) -> Result<Printed, Fault>
    requires is_point { sender < bench.old.points }
    requires holds { Holds n output.now }
    ensures value { result ≡ kept_as (contents bench.old) n }
    ensures bench_after { contents bench.new ≡ kept_bench (contents bench.old) sender n output.now }
{
    let before = bench.frames;
    if !bench_slots::keep_emitted(&mut bench.slots, output, sender, before, n) {
        return Err(Fault);
    }
    bench.frames = before + n as usize;
    Ok(Printed {
        answer: 0,
        third: n,
    })
}

// Keeps the frames of an accepted call, and returns the line of the call. A 129th frame is a fault.
pub fn settle(
    bench: &mut Bench,
    sender: u8,
    outcome: Result<Emitted, Refusal>,
    output: &[u8],
) -> Result<Printed, Fault>
    requires is_point { sender < bench.old.points }
    requires holds_frames { HoldsFrames outcome output.now }
    ensures value { result ≡ settled_as (contents bench.old) outcome }
    ensures bench_after { contents bench.new ≡ settled_bench (contents bench.old) outcome sender output.now }
{
    match outcome {
        Ok(emitted) => keep_emitted(bench, sender, emitted.frames, output),
        Err(refusal) => Ok(Printed {
            answer: u32::from(refusal),
            third: 0,
        }),
    }
}
