//! What trials of machines show.

ghost use Rattle.machine_text.specs.Trials.{IsTrial};

use bit_ops::Bits;
use code_check::{CheckFault, check, has_few_slots};
use code_isa::{Checked, CodeFault};
use machine_text::{TextFault, Trial, Words, read_machine};
use std::alloc::{AllocError, Global};

/// One number for the words of all slots: each word is mixed into those before it, by the multiplication of the hash by
/// Fowler, Noll and Vo.
fn mixed(slots: &[Bits]) -> u64 {
    let mut sum: u64 = 0xcbf2_9ce4_8422_2325;
    for value in slots {
        sum = (sum ^ value.word).wrapping_mul(0x100_0000_01b3);
    }
    sum
}

/// Adds the words of a machine's outputs.
fn show_outputs(lines: &mut String, trial: &Trial) -> Result<(), AllocError> {
    lines.push_str("Ok")?;
    for slot in trial.machine().machine().outs.as_slice() {
        if let Some(value) = trial.slots().get(*slot as usize) {
            write!(lines, " {}", value.word)?;
        }
    }
    lines.push('\n')
}

/// Gives a slot a word and does what that changes. Adds how many instructions were done, and the number for all slots.
fn try_change(lines: &mut String, trial: &mut Trial, words: &mut Words<'_>) -> Result<(), TextFault>
    requires { IsTrial trial.old }
    ensures { IsTrial trial.new }
{
    let slot = words.number()? as usize;
    let word = words.number()?;
    trial.set(slot, word);
    let done = trial.run_marked();
    writeln!(lines, "{done} {}", mixed(trial.slots()))?;
    Ok(())
}

/// Tries a machine with changes of its slots: how many there are, and for each the slot and its word.
fn try_changes(
    alloc: Global,
    lines: &mut String,
    m: Checked,
    words: &mut Words<'_>,
) -> Result<(), TextFault> {
    let count = words.number()?;
    let mut trial = Trial::new(alloc, m)?;
    show_outputs(lines, &trial)?;
    for _ in 0..count {
        try_change(lines, &mut trial, words)?;
    }
    Ok(())
}

fn name_of(fault: CodeFault) -> &'static str {
    match fault {
        CodeFault::PortShape => "PortShape",
        CodeFault::SlotOrder => "SlotOrder",
        CodeFault::SlotWidth => "SlotWidth",
        CodeFault::CycleInside => "CycleInside",
        CodeFault::SummaryShort => "SummaryShort",
        CodeFault::ChainShort => "ChainShort",
    }
}

/// Tries a machine; of one with a fault only the fault is shown.
fn try_machine(alloc: Global, lines: &mut String, words: &mut Words<'_>) -> Result<(), TextFault> {
    let m = read_machine(alloc, words)?;
    if !has_few_slots(&m) {
        return Err(TextFault::WrongWord);
    }
    match check(alloc, m) {
        Ok(m) => try_changes(alloc, lines, m, words),
        Err(CheckFault::Bad(fault)) => Ok(writeln!(lines, "{}", name_of(fault))?),
        Err(CheckFault::NoMemory) => Err(TextFault::NoMemory),
    }
}

/// Tries all machines of a text.
pub fn trials(alloc: Global, words: &mut Words<'_>) -> Result<String, TextFault> {
    let count = words.number()?;
    let mut lines = String::new(alloc);
    for _ in 0..count {
        try_machine(alloc, &mut lines, words)?;
    }
    Ok(lines)
}
