// The command that sets the link metric of two points.
ghost use Rattle.std.specs.Prelude.{◌≡◌, ◌≤◌};
ghost use Rattle.bench_rules.specs.Commands.{link};
ghost use Rattle.bench_points.specs.InCode.{FaultKeeps, bench_of, came_in};

use crate::{Bench, Fault, Printed};

// Sets the link metric of points p and q. It is a fault if p or q is no point.
#[tactic(auto, unfolding(bench_rules::specs::Commands::link))]
pub fn link_points(bench: &mut Bench, p: u8, q: u8, metric: u32) -> Result<Printed, Fault>
    ensures bench_after { came_in result bench.new ≡ link (bench_of bench.old) bench.old.links p q metric }
    ensures fault_keeps { FaultKeeps result bench.old bench.new }
    ensures memory_keeps { (bench.new.tables ≡ bench.old.tables) × (bench.new.slots ≡ bench.old.slots) }
{
    let p = bench.point(p)?;
    let q = bench.point(q)?;
    bench_links::set_both_ways(&mut bench.links, p, q, metric);
    Ok(Printed {
        answer: 0,
        third: 0,
    })
}
