//! What the names of a module stand for.

ghost use Rattle.std.specs.Prelude.{◌≡◌, ℕ, List, true, false, if◌then◌else◌, OnOk, ⊤};
ghost use Rattle.std.specs.Str.{bytes_eq};
ghost use Rattle.const_eval.specs.code.Agreeing.{Agrees};
ghost use Rattle.elaborate.specs.Refusals.{fresh};
ghost use Rattle.elaborate.specs.Targets.{visible};
ghost use Rattle.elaborate.specs.Statements.{labelled};
ghost use Rattle.elaborate.specs.code.Walking.{has_label, seen_in, reached, IsSound, IsStep};

use crate::walk::Walk;
use const_eval::Bound;
use const_eval::refuse::refused_at;
use indexmap::IndexSet;
use std::alloc::{AllocError, Global};
use sv_ast::Id;
use sv_base::{Fault, Kind, Name};

/// What a declared name stands for: a constant, a net or a variable; or it is a label, which has no value.
#[derive(Clone, Copy, Debug)]
pub enum Seen {
    Stands(Bound),
    Label,
}

/// The names that have no value.
#[derive(Drop)]
pub struct Labels {
    names: IndexSet<Vec<u8>>,
}

impl Labels {
    /// There is none. Takes no memory.
    pub fn new(alloc: Global) -> Labels
        ensures { (name : List ℕ) → has_label result name ≡ false }
    {
        Labels {
            names: IndexSet::new(alloc),
        }
    }

    /// Whether a name is one of them.
    pub fn has(&self, name: &Name) -> bool
        ensures { result ≡ has_label self.now name.now }
    {
        self.names.contains(name.bytes())
    }

    /// One more.
    pub fn add(&mut self, alloc: Global, name: &Name) -> Result<(), AllocError>
        ensures { OnOk result ((n : List ℕ) → has_label self.new n ≡ (if bytes_eq name.now n then true else has_label self.old n)) }
    {
        let key = Vec::from_slice(alloc, name.bytes())?;
        let _ = self.names.insert(key)?;
        Ok(())
    }
}

impl Walk {
    /// What a name stands for, where it is visible.
    pub fn seen(&self, name: &Name) -> Option<Seen>
        ensures { result ≡ seen_in self.now name.now }
    {
        match self.scope.names.bound(name) {
            Some(bound) => Some(Seen::Stands(bound)),
            None if self.labels.has(name) => Some(Seen::Label),
            None => None,
        }
    }

    /// What a name stands for, or its refusal where it is not visible.
    pub fn visible(&self, alloc: Global, name: &Id) -> Result<Seen, Fault>
        ensures { Agrees (λ found seen. found ≡ seen) result (visible name.now (seen_in self.now name.now.name)) }
    {
        match self.seen(&name.name) {
            Some(seen) => Ok(seen),
            None => Err(refused_at(alloc, Kind::UnknownName, name)?),
        }
    }

    /// Refuses a name that is declared already.
    pub fn fresh(&self, alloc: Global, name: &Id) -> Result<(), Fault>
        ensures { Agrees (λ found free. ⊤) result (fresh (seen_in self.now) name.now) }
    {
        match self.seen(&name.name) {
            Some(_) => Err(refused_at(alloc, Kind::DuplicateName, name)?),
            None => Ok(()),
        }
    }

    /// A label: its name is visible from now on, and has no value (IEEE 1800-2017, 9.3.5).
    pub fn label(&mut self, alloc: Global, label: &Option<Id>) -> Result<(), Fault>
        requires { IsSound (reached self.old) }
        ensures step { IsStep (labelled label.now) self.old self.new result }
        ensures sound { OnOk result (IsSound (reached self.new)) }
    {
        match label {
            Some(name) => {
                self.fresh(alloc, name)?;
                self.labels.add(alloc, &name.name)?;
                Ok(())
            }
            None => Ok(()),
        }
    }
}
