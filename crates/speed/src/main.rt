// The work that the benchmark times. Each piece of work comes to a number, which the baseline must
// come to too. With the word `time` each line tells the nanoseconds of one round as well.
#![tactic(auto)]

mod load;
mod work;

use anyhow::Context;
use load::run_floor;
use map::map::Map;
use plancheck::check;
use std::env;
use std::time::Instant;
use tree::tree::Tree;
use ways::rows::RowFirst;
use work::{corridor_store, far_key, full_store, sum_of};

/// Does the work and tells its result; where rounds are timed, so many times, with the time of one.
fn report<F: Fn() -> u64>(
    rt: &HostRuntime,
    name: &str,
    timed: Option<u32>,
    work: F,
) -> anyhow::Result<()>
    requires { F.IsAlwaysCallable work }
{
    let Some(rounds) = timed else {
        println!(rt; "{name} {}", work())?;
        return Ok(());
    };
    let start = Instant::now(rt)?;
    let mut result = work();
    for _ in 1..rounds {
        result = work();
    }
    let spent = start.elapsed(rt)?.as_nanos();
    println!(rt; "{name} {result} {rounds} {spent}")?;
    Ok(())
}

fn main(rt: HostRuntime) -> anyhow::Result<()> {
    let clock = env::args(&rt)?.count() > 1;
    let full = full_store().context("no store")?;
    let corridor = corridor_store().context("no store")?;
    report(&rt, "check-row-first", clock.then_some(100), || {
        sum_of(check(&full, &RowFirst, &RowFirst))
    })?;
    report(&rt, "check-tree", clock.then_some(20), || {
        let tree = Tree::new(&full);
        sum_of(check(&full, &tree, &tree))
    })?;
    report(
        &rt,
        "build-tree",
        clock.then_some(2000),
        || far_key(&Tree::new(&full)),
    )?;
    report(&rt, "build-tree-corridor", clock.then_some(2000), || {
        far_key(&Tree::new(&corridor))
    })?;
    report(&rt, "floor-million", clock.then_some(1), || run_floor(full))
}
