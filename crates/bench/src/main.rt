//! Times planning on large sites, as a ratio to one pass of all `next` questions: `bench run`.
#![tactic(auto)]

mod sites;

use crate::sites::{Sheets, ladder, random};
use checker::leaves::{Leaf, PLACES};
use drift::drifts::Drift;
use planner::certifying::certify;
use planner::planning::ROWS;
use site::grades::Grade;
use site::interface::Site;
use site::tables::Table;
use std::time::Instant;
use std::{array, env};
use watch::piles::Watched;
use watch::watches::Watch;

// One pass of all `next` questions; the sum keeps the compiler from leaving it out.
fn pass<S: Site>(site: &S) -> usize {
    let mut sum = 0usize;
    for s in 0..site.states() {
        for a in 0..site.commands(s) {
            for b in 0..site.events(s) {
                sum = sum.wrapping_add(site.next(s, a, b));
            }
        }
    }
    sum
}

// Times a site and prints what it took.
fn time<S: Site>(rt: &HostRuntime, name: &str, site: &S) -> anyhow::Result<()> {
    let states = site.states();
    let mut leaves = vec![in rt.alloc(); Leaf::Open {
        first: 0,
        second: 0
    }; states]?;
    let mut replies = vec![in rt.alloc(); 0u8; states.saturating_mul(PLACES)]?;
    let mut work = vec![in rt.alloc(); 0u16; states.saturating_mul(ROWS)]?;
    let start = Instant::now(rt)?;
    let sum = pass(site);
    let one = start.elapsed(rt)?.as_micros();
    let start = Instant::now(rt)?;
    let planned = certify(
        site,
        leaves.as_mut_slice(),
        replies.as_mut_slice(),
        work.as_mut_slice(),
    );
    let all = start.elapsed(rt)?.as_micros();
    let covered = planned.map_or(0, |counts| counts.covered);
    let ratio = all / one.max(1);
    println!(rt;
        "{name}: states {states} covered {covered} pass {one} us plan {all} us ratio {ratio} sum {sum}"
    )?;
    Ok(())
}

// Times the table of some sheets.
fn time_table(rt: &HostRuntime, name: &str, sheets: &Sheets) -> anyhow::Result<()> {
    let table = Table::new(
        sheets.rows.len(),
        sheets.rows.as_slice(),
        sheets.arrows.as_slice(),
    );
    time(rt, name, &table)
}

// A watch with so many positions that turns to the next at every doubted state.
fn watch(positions: u8) -> Watch {
    let turns = array::from_fn(|i| {
        let p = (i / 3) as u8;
        match i % 3 {
            1 if p + 1 < positions => p + 1,
            1 => 0,
            _ => p % positions.max(1),
        }
    });
    let shows = array::from_fn(|i| (i % 3) as u8);
    let mut watch = Watch::new();
    let _ = watch.set(positions as usize, turns, shows);
    watch
}

fn main(rt: HostRuntime) -> anyhow::Result<()> {
    let mut args = env::args(&rt)?;
    let _program = args.next();
    if args.next().is_none() {
        println!(rt; "usage: bench run")?;
        return Ok(());
    }
    time_table(
        &rt,
        "ordinary states to a doubted one",
        &ladder(rt.alloc(), Grade::Doubted, Grade::Ordinary)?,
    )?;
    time_table(
        &rt,
        "doubted states to rest",
        &ladder(rt.alloc(), Grade::Ordinary, Grade::Doubted)?,
    )?;
    time_table(
        &rt,
        "confirmed states to a doubted one",
        &ladder(rt.alloc(), Grade::Doubted, Grade::Confirmed)?,
    )?;
    let mut drift = Drift::new();
    let _ = drift.set(1, 7);
    time(
        &rt,
        "pile",
        &Watched::new(Watched::new(drift, watch(8)), watch(7)),
    )?;
    for seed in 1..4u64 {
        time_table(&rt, "random", &random(rt.alloc(), seed)?)?;
    }
    Ok(())
}
