// Calls played on a planned site.
ghost use Rattle.std.specs.Prelude.{◌≡◌, [], map, length};
ghost use Rattle.site.specs.Refusals.{answered};
ghost use Rattle.desk.specs.Drills.{told_from, StatesOf, ReachedBy, DrillOf};

use crate::failures::Failure;
use crate::planned::plan_site;
use checker::calls::Call;
use checker::playing::play;
use checker::runs::Run;
use site::faults::Fault;
use site::interface::Site;
use std::alloc::{AllocError, Global};

// What came of a list of calls: what each answered, the states of the run, the first first, and its record.
#[derive(Drop)]
pub struct Drill {
    pub answers: Vec<Result<usize, Fault>>,
    pub states: Vec<usize>,
    pub record: Run,
}

// Adds the state that an accepted call reached; a placing begins the run anew.
fn reach(states: &mut Vec<usize>, call: Call, state: usize) -> Result<(), Failure>
    ensures { ReachedBy call state states.old.items states.new.items result }
{
    match call {
        Call::Place { .. } => states.clear(),
        Call::Book { .. } | Call::Objection { .. } => {}
    }
    states.push(state).map_err(AllocError::from)?;
    Ok(())
}

// The states of the run that calls with these answers make.
fn run_states(
    heap: Global,
    calls: &[Call],
    answers: &[Result<usize, Fault>],
) -> Result<Vec<usize>, Failure>
    requires { length calls.now ≡ length answers.now }
    ensures { StatesOf (told_from [] calls.now (map answered answers.now)) result }
{
    let mut states = Vec::new(heap);
    for (call, answer) in calls.iter().zip(answers) {
        if let Ok(state) = answer {
            reach(&mut states, *call, *state)?;
        }
    }
    Ok(states)
}

// Plans a site and plays the calls on it by the planned pair.
pub fn drill_site<S: Site>(heap: Global, site: &S, calls: &[Call]) -> Result<Drill, Failure>
    ensures { DrillOf (S.Site.arena site.now) calls.now result }
{
    let plan = plan_site(heap, site)?;
    let mut answers = vec![in heap; Ok(0usize); calls.len()]?;
    let record = play(
        site,
        plan.leaves.as_slice(),
        plan.replies.as_slice(),
        calls,
        answers.as_mut_slice(),
    )?;
    let states = run_states(heap, calls, answers.as_slice())?;
    Ok(Drill {
        answers,
        states,
        record,
    })
}
