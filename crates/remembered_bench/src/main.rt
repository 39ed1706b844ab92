//! The sets against a plain table with a flag for each car and address: the same notes, counts and forgets.
//! With no argument it prints how many pairs each found, with one it prints times too.

#![tactic(auto)]

mod plain;
mod work;

use remembered::RememberedSet;
use remembered::buffered::Buffered;
use remembered::card::CardSet;
use remembered::slot::SlotSet;
use std::env;
use std::time::Instant;

// Pairs found, and the nanoseconds that it took.
#[derive(Clone, Copy)]
struct Run {
    pairs: u64,
    nanos: u128,
}

// Does the work and takes its time.
fn measure<F: FnOnce() -> u64>(rt: &HostRuntime, work: F) -> anyhow::Result<Run>
    requires { F.IsAlwaysCallable work }
{
    let start = Instant::now(rt)?;
    let pairs = work();
    let nanos = start.elapsed(rt)?.as_nanos();
    Ok(Run { pairs, nanos })
}

fn run_set<R: RememberedSet + Drop>(
    rt: &HostRuntime,
    mut rset: R,
    rounds: u32,
) -> anyhow::Result<Run> {
    measure(rt, || work::with_set(&mut rset, rounds))
}

// No pair is in the table. A function of its own, since a check of `run_plain` would go through all the flags.
fn empty_table() -> [bool; 524288] {
    [false; 524288]
}

fn run_plain(rt: &HostRuntime, rounds: u32) -> anyhow::Result<Run> {
    let mut table = empty_table();
    measure(rt, || plain::with_table(&mut table, rounds))
}

// How many hundredths of one time another is.
fn hundredths(part: u128, whole: u128) -> u128 {
    if whole == 0 {
        return 0;
    }
    part.saturating_mul(100) / whole
}

fn show(rt: &HostRuntime, name: &str, run: Run, plain: Run, timed: bool) -> anyhow::Result<()> {
    let Run { pairs, nanos } = run;
    println!(rt; "{name}: {pairs} pairs")?;
    if timed {
        let micros = nanos / 1000;
        let part = hundredths(nanos, plain.nanos);
        println!(rt; "  {micros} microseconds, {part} hundredths of the plain table")?;
    }
    Ok(())
}

fn compare(rt: &HostRuntime, rounds: u32, timed: bool) -> anyhow::Result<()> {
    let plain = run_plain(rt, rounds)?;
    show(rt, "plain table", plain, plain, timed)?;
    show(
        rt,
        "slot set",
        run_set(rt, SlotSet::new(), rounds)?,
        plain,
        timed,
    )?;
    show(
        rt,
        "card set",
        run_set(rt, CardSet::new(), rounds)?,
        plain,
        timed,
    )?;
    show(
        rt,
        "buffered slot set",
        run_set(rt, Buffered::over(SlotSet::new()), rounds)?,
        plain,
        timed,
    )?;
    show(
        rt,
        "buffered card set",
        run_set(rt, Buffered::over(CardSet::new()), rounds)?,
        plain,
        timed,
    )
}

fn main(rt: HostRuntime) -> anyhow::Result<()> {
    let timed = env::args(&rt)?.nth(1).is_some();
    let rounds = if timed { 200 } else { 2 };
    compare(&rt, rounds, timed)
}
