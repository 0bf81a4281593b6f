//! Compiles a synthesizable subset of SystemVerilog and simulates it in cycles with two-valued bits.
#![tactic(auto)]

mod command;
mod compile;
#[cfg(test)]
mod language_rows;
mod law;
mod load;
#[cfg(test)]
mod play_tests;
mod playing;
mod run;
#[cfg(test)]
mod run_tests;
mod simulate;
mod stop;
mod verdict;

use io_edge::{DiskFolder, StreamSink};
use model_stage::Order;
use run::run_words;
use std::process::ExitCode;
use std::{env, io};

/// Runs the command that the words behind the program's name say, over the files of the disk.
fn main(rt: HostRuntime) -> io::Result<ExitCode> {
    let mut words = Vec::new(rt.alloc());
    for word in env::args(&rt)?.skip(1) {
        words.push(word)?;
    }
    let mut folder = DiskFolder::new(rt.alloc(), &rt);
    let mut out = StreamSink {
        to: rt.stdout(),
        faults: 0,
    };
    let mut err = StreamSink {
        to: rt.stderr(),
        faults: 0,
    };
    let order = Order::new(|_, _| 0);
    let status = run_words(rt.alloc(), &words, &mut folder, &mut out, &mut err, &order);
    Ok(ExitCode::from(status))
}
