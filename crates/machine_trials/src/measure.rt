//! How long machines take.

ghost use Rattle.machine_text.specs.Trials.{IsTrial};
ghost use Rattle.code_check.specs.Told.{HasFewSlots};

use code_check::{check, has_few_slots};
use code_isa::{Checked, Machine};
use machine_text::{Trial, Words, read_machine};
use std::alloc::Global;
use std::io;
use std::process::ExitCode;
use std::time::{Clock, Instant};

/// Checks a machine, and prints the nanoseconds that this takes.
fn checked_in_time(
    rt: &(impl Clock + Print),
    alloc: Global,
    m: Machine,
) -> io::Result<Option<Checked>>
    requires { HasFewSlots m }
{
    let start = Instant::now(rt)?;
    let outcome = check(alloc, m);
    let nanos = start.elapsed(rt)?.as_nanos();
    println!(rt; "check {nanos}")?;
    Ok(outcome.ok())
}

/// Does all instructions so many times, and prints the nanoseconds that this takes.
fn run_whole_in_time(rt: &(impl Clock + Print), trial: &mut Trial, rounds: u64) -> io::Result<()>
    requires { IsTrial trial.old }
    ensures { IsTrial trial.new }
{
    let start = Instant::now(rt)?;
    for _ in 0..rounds {
        trial.run_whole();
    }
    let nanos = start.elapsed(rt)?.as_nanos();
    println!(rt; "whole {nanos}")
}

/// Gives the first slot another word so many times, and does each time what that changes. Prints the nanoseconds that this
/// takes, and how many instructions were done.
fn run_marked_in_time(rt: &(impl Clock + Print), trial: &mut Trial, rounds: u64) -> io::Result<()>
    requires { IsTrial trial.old }
    ensures { IsTrial trial.new }
{
    let mut done: u64 = 0;
    let start = Instant::now(rt)?;
    for round in 0..rounds {
        trial.set(0, round + 1);
        done = done.saturating_add(trial.run_marked());
    }
    let nanos = start.elapsed(rt)?.as_nanos();
    println!(rt; "marked {nanos} {done}")
}

/// Prints the times of the machine that a text has.
pub fn print_times(
    rt: &(impl Clock + Print),
    alloc: Global,
    words: &mut Words<'_>,
    rounds: u64,
) -> io::Result<ExitCode> {
    let Ok(m) = read_machine(alloc, words) else {
        return Ok(ExitCode::FAILURE);
    };
    if !has_few_slots(&m) {
        return Ok(ExitCode::FAILURE);
    }
    let Some(m) = checked_in_time(rt, alloc, m)? else {
        return Ok(ExitCode::FAILURE);
    };
    let mut trial = Trial::new(alloc, m)?;
    run_whole_in_time(rt, &mut trial, rounds)?;
    run_marked_in_time(rt, &mut trial, rounds)?;
    Ok(ExitCode::SUCCESS)
}
