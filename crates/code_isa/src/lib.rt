//! Machines: straight code over numbered slots, what makes a machine a checked one, and its evaluation.
#![tactic(auto)]

mod activity;
mod checked;
mod copies;
mod fault;
pub mod law;
mod machine;
mod marks;
mod run;
mod slots;
mod uses;
mod words;

pub use activity::{mark, run_marked};
pub use checked::Checked;
pub use fault::CodeFault;
pub use machine::{Instr, Kid, Machine, Reg};
pub use marks::Marks;
pub use run::run_slots;
pub use slots::{
    first_instruction, input_count, input_widths, operands, output_widths, slot_count, slot_widths,
    zero_slots,
};
pub use uses::{Uses, uses_of};

#[cfg(test)]
mod tests;
