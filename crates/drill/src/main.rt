//! Plays a script of calls on a planned floor: `drill FLOOR` reads the script from standard input.
#![tactic(auto)]

mod problems;
mod script;

use crate::problems::Problem;
use crate::script::read_script;
use checker::calls::Call;
use checker::runs::Run;
use desk::drills::drill_site;
use desk::floors::read_floor;
use site::faults::Fault;
use std::process::ExitCode;
use std::{env, fs};

// Prints what one call answered.
fn show(rt: &HostRuntime, call: Call, answer: Result<usize, Fault>) -> Result<(), Problem> {
    match answer {
        Ok(state) => println!(rt; "{call}: state {state}")?,
        Err(fault) => println!(rt; "{call}: {fault}")?,
    }
    Ok(())
}

// Prints the states of the run that the calls made, the first first.
fn show_run(rt: &HostRuntime, states: &[usize]) -> Result<(), Problem> {
    print!(rt; "run")?;
    for state in states {
        print!(rt; " {state}")?;
    }
    println!(rt; "")?;
    Ok(())
}

// Prints the counts of the record.
fn show_record(rt: &HostRuntime, run: Run) -> Result<(), Problem> {
    match run {
        Run::Blank => println!(rt; "no run was placed")?,
        Run::Placed {
            confirmations,
            doubts,
            row,
            ..
        } => { println!(rt; "confirmations {confirmations} doubts {doubts} row {row}")? }
    }
    Ok(())
}

// Plans the floor, plays the script on it and prints what came of it.
fn drill(rt: &HostRuntime, bytes: &[u8]) -> Result<(), Problem> {
    let calls = read_script(rt)?;
    let floor = read_floor(rt.alloc(), bytes)?;
    let drill = drill_site(rt.alloc(), &floor.table(), calls.as_slice())?;
    for (call, answer) in calls.as_slice().iter().zip(drill.answers.as_slice()) {
        show(rt, *call, *answer)?;
    }
    show_run(rt, drill.states.as_slice())?;
    show_record(rt, drill.record)
}

fn run(rt: &HostRuntime) -> Result<(), Problem> {
    let mut args = env::args(rt)?;
    let _program = args.next();
    let Some(path) = args.next() else {
        return Err(Problem::NoFloor);
    };
    let floor = fs::read(rt, path.as_str())?;
    drill(rt, floor.as_slice())
}

fn main(rt: HostRuntime) -> anyhow::Result<ExitCode> {
    match run(&rt) {
        Ok(()) => Ok(ExitCode::SUCCESS),
        Err(problem) if problem.is_refusal() => {
            println!(rt; "{problem}")?;
            Ok(ExitCode::FAILURE)
        }
        Err(problem) => Err(problem.into()),
    }
}
