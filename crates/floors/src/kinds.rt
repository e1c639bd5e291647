// Drift sites, watches and piles of them: the known figures and the edges of the ranges.
use crate::told::told;
use checker::leaves::Leaf;
use drift::drifts::Drift;
use planner::certifying::certify;
use site::grades::Grade;
use site::interface::Site;
use std::alloc::Global;
use std::test::Fail;
use watch::piles::{Watched, fits};
use watch::watches::Watch;

// How many states a site has, and how many of them planning covers.
fn figures<S: Site>(heap: Global, site: &S) -> Result<(usize, usize), Fail> {
    let states = site.states();
    let mut leaves = vec![in heap; Leaf::Open {
        first: 7,
        second: 7
    }; states]?;
    let mut replies = vec![in heap; 7u8; states.saturating_mul(16)]?;
    let mut work = vec![in heap; 7u16; states.saturating_mul(4)]?;
    let counts = certify(
        site,
        leaves.as_mut_slice(),
        replies.as_mut_slice(),
        work.as_mut_slice(),
    )?;
    Ok((states, counts.covered))
}

// A drift site with this step and loss bound.
fn drift(step: usize, losses: usize) -> Result<Drift, Fail> {
    let mut site = Drift::new();
    site.set(step, losses)?;
    Ok(site)
}

#[test]
fn plans_drift_sites(rt: HostRuntime) -> Result<(), Fail> {
    assert!(rt; figures(rt.alloc(), &drift(4, 2)?)? == (53, 28));
    assert!(rt; figures(rt.alloc(), &drift(4, 3)?)? == (70, 0));
    Ok(())
}

#[test]
fn keeps_drift_settings(rt: HostRuntime) -> Result<(), Fail> {
    let mut site = drift(8, 7)?;
    assert!(rt; site.states() == 138);
    assert!(rt; site.set(0, 0).is_err() && site.set(9, 0).is_err() && site.set(1, 8).is_err());
    assert!(rt; site.states() == 138);
    assert!(rt; Drift::new().states() == 19);
    Ok(())
}

// With d = 1 and k = 0 offset 8 has number 16 and -8 number 0; apart is 17 and confirmed 18.
#[test]
fn drifts_at_the_edges(rt: HostRuntime) -> Result<(), Fail> {
    let site = drift(1, 0)?;
    assert!(rt; site.next(15, 0, 2) == 16 && site.next(16, 0, 2) == 17);
    assert!(rt; site.next(1, 0, 0) == 0 && site.next(0, 0, 0) == 17);
    assert!(rt; site.next(16, 1, 2) == 18 && site.next(16, 1, 5) == 18);
    assert!(rt; site.next(18, 0, 1) == 8 && site.next(17, 1, 0) == 17);
    assert!(rt; site.next(19, 0, 0) == 0 && site.next(8, 2, 0) == 0 && site.next(8, 0, 6) == 0);
    assert!(rt; site.grade(17) == Grade::Doubted && site.grade(18) == Grade::Confirmed);
    assert!(rt; site.grade(16) == Grade::Ordinary && site.grade(19) == Grade::Confirmed);
    Ok(())
}

// With a loss bound of 7 a setting is lost seven times in a row, and then it is heard.
#[test]
fn loses_settings_up_to_the_bound(rt: HostRuntime) -> Result<(), Fail> {
    let site = drift(1, 7)?;
    let mut s = site.next(137, 0, 1);
    assert!(rt; s == 64);
    for lost in 1..8usize {
        s = site.next(s, 1, 4);
        assert!(rt; s == 64 + lost);
    }
    assert!(rt; site.next(s, 1, 4) == 137 && site.next(s, 0, 4) == s);
    Ok(())
}

// A watch that shows what it has seen: position 1 once a doubted state was left.
fn memory() -> Result<Watch, Fail> {
    let mut watch = Watch::new();
    let mut turns = [0u8; 24];
    turns[1] = 1;
    turns[3] = 1;
    turns[4] = 1;
    turns[5] = 1;
    let mut shows = [0u8; 24];
    shows[1] = 1;
    shows[2] = 2;
    shows[3] = 0;
    shows[4] = 1;
    shows[5] = 2;
    watch.set(2, turns, shows)?;
    Ok(watch)
}

#[test]
fn piles_two_watches(rt: HostRuntime) -> Result<(), Fail> {
    let one = Watched::new(drift(4, 2)?, memory()?);
    assert!(rt; one.states() == 106);
    let two = Watched::new(one, memory()?);
    assert!(rt; figures(rt.alloc(), &two)? == (212, 112));
    assert!(rt; two.next(212, 0, 0) == 0 && two.next(0, 2, 0) == 0 && two.next(0, 0, 6) == 0);
    Ok(())
}

#[test]
fn fits_up_to_the_limit(rt: HostRuntime) -> Result<(), Fail> {
    let mut wide = Watch::new();
    assert!(rt; wide.set(9, [0; 24], [0; 24]).is_err() && wide.set(1, [1; 24], [0; 24]).is_err());
    assert!(rt; wide.set(1, [0; 24], [3; 24]).is_err());
    wide.set(8, [7; 24], [2; 24])?;
    let pile = Watched::new(Watched::new(drift(1, 7)?, wide), wide);
    assert!(rt; pile.states() == 1104);
    assert!(rt; fits(&drift(1, 7)?, &wide) == Ok(1104));
    assert!(rt; told(fits(&Watched::new(drift(1, 7)?, wide), &wide)) == Err((19, 8832)));
    Ok(())
}
