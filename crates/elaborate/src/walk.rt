//! What the text of a module has given so far.

ghost use Rattle.std.specs.Prelude.{◌≡◌, length, OnOk, Ok};
ghost use Rattle.bit_ops.specs.Width.{IsWidth};
ghost use Rattle.const_eval.specs.code.Agreeing.{Agrees};
ghost use Rattle.elaborate.specs.Reached.{start, with_var, with_driver, counted};
ghost use Rattle.elaborate.specs.code.Walking.{reached, IsSound, IsStep};

use crate::limits::ASSIGNMENT_LIMIT;
use crate::names::Labels;
use crate::refusal::too_many;
use const_eval::{Bound, Env};
use net_ir::{Driver, Var};
use std::alloc::Global;
use sv_base::{Fault, Place, Sequence};
use width_rules::Scope;

/// The names that are visible, the nets and variables, the drivers, and how many assignments there are.
#[derive(Drop)]
pub struct Walk {
    pub scope: Scope,
    pub labels: Labels,
    pub drivers: Sequence<Driver>,
    pub assignments: u32,
}

impl Walk {
    /// Nothing is read. Takes no memory.
    pub fn new(alloc: Global) -> Walk
        ensures start { reached result ≡ start }
        ensures sound { IsSound (reached result) }
    {
        Walk {
            scope: Scope {
                names: Env::new(alloc),
                vars: Sequence::new(alloc),
            },
            labels: Labels::new(alloc),
            drivers: Sequence::new(alloc),
            assignments: 0,
        }
    }

    /// The number of the net or variable that is declared next. One past the greatest of 32 bits is told as want of
    /// memory: a source has at most a million bytes, so there is none.
    pub fn next_number(&self) -> Result<u32, Fault>
        ensures { Agrees (λ found number. found ≡ number) result (Ok (length self.now.scope.vars)) }
    {
        let number = self.scope.vars.len();
        if number > 0xffff_ffff {
            return Err(Fault::NoMemory);
        }
        Ok(number as u32)
    }

    /// One net or variable more, for which its name stands from now on.
    pub fn declare(&mut self, alloc: Global, var: Var) -> Result<(), Fault>
        requires sound { IsSound (reached self.old) }
        requires width { IsWidth var.width }
        ensures step { IsStep (λ r. Ok (with_var var r)) self.old self.new result }
        ensures sound { OnOk result (IsSound (reached self.new)) }
    {
        let number = self.next_number()?;
        let _ = self
            .scope
            .names
            .declare(alloc, &var.name, Bound::Variable(number))?;
        self.scope.vars.push(var)?;
        Ok(())
    }

    /// One driver more.
    pub fn drive(&mut self, driver: Driver) -> Result<(), Fault>
        requires { IsSound (reached self.old) }
        ensures step { IsStep (λ r. Ok (with_driver driver r)) self.old self.new result }
        ensures sound { OnOk result (IsSound (reached self.new)) }
    {
        self.drivers.push(driver)?;
        Ok(())
    }

    /// One assignment more, at this place, where they are not too many.
    pub fn count(&mut self, alloc: Global, place: Place) -> Result<(), Fault>
        requires { IsSound (reached self.old) }
        ensures step { IsStep (counted place) self.old self.new result }
        ensures sound { OnOk result (IsSound (reached self.new)) }
    {
        if self.assignments < ASSIGNMENT_LIMIT {
            self.assignments += 1;
            Ok(())
        } else {
            Err(too_many(alloc, b"assignments", place)?)
        }
    }
}
