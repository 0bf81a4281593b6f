//! Tries machines that stand as text on the standard input. `trials` reads how many there are, and then each machine with
//! changes of its slots; `time ROUNDS` reads one, and prints how long its check and its runs take.
#![tactic(auto)]

mod measure;
mod report;

use machine_text::Words;
use std::process::ExitCode;
use std::{env, io};

/// How often the word behind `time` says that a machine is run.
fn rounds(words: &[String]) -> Option<u64> {
    match words {
        [command, rounds] if command.as_str() == "time" => Words::of(rounds.as_str()).number().ok(),
        _ => None,
    }
}

fn main(rt: HostRuntime) -> io::Result<ExitCode> {
    let mut words = Vec::new(rt.alloc());
    for word in env::args(&rt)?.skip(1) {
        words.push(word)?;
    }
    let text = io::read_to_string(rt.alloc(), rt.reader())?;
    let mut text = Words::of(text.as_str());
    if let Some(rounds) = rounds(words.as_slice()) {
        return measure::print_times(&rt, rt.alloc(), &mut text, rounds);
    }
    match report::trials(rt.alloc(), &mut text) {
        Ok(lines) => print!(rt; "{lines}")?,
        Err(_) => return Ok(ExitCode::FAILURE),
    }
    Ok(ExitCode::SUCCESS)
}
