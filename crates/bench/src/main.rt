// Runs the bench, which obeys the commands on standard input.
#![tactic(auto)]

fn main(rt: HostRuntime) {
    let mut input = rt.stdin();
    bench_run::run(&rt, &mut input);
}
