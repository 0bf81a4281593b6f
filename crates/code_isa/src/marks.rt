//! A set of positions, of which the least is found in few steps.

ghost use Rattle.std.specs.Prelude.{◌≡◌, ◌^◌, ◌<◌, true, false, length, slice_set, IfOk, MatchOption};
ghost use Rattle.code_isa.specs.Marks.{HasNone, IsLeast};

use crate::words::{clear_bit, drop_empty, first_word, lowest, set_bit, zeros};
use std::alloc::{AllocError, Global};
use std::marker::Model;

/// A set of positions below a bound, one for each instruction of a machine. Contracts see it as a list of truth values,
/// one for each position. A position takes a bit; above 64 positions, and above 64 times 64, stands a bit that says
/// whether there is one among them.
#[derive(Debug, Drop)]
pub struct Marks {
    count: usize,
    leaves: Vec<u64>,
    branches: Vec<u64>,
    roots: Vec<u64>,
}

impl Model for Marks {
    ghost use Rattle.std.specs.Prelude.{List, Bool};
    ghost use Rattle.code_isa.specs.Marks.{members_of, IsLayered};

    ghost Value = { List Bool };

    ghost view = { λ m. members_of m.leaves.items m.count };

    ghost invariant = { λ m. IsLayered m.count m.leaves.items m.branches.items m.roots.items };
}

impl Marks {
    /// The empty set of positions below `count`.
    pub fn empty(alloc: Global, count: usize) -> Result<Marks, AllocError>
        requires { count < 2 ^ 60 }
        ensures size { IfOk result (λ marks. length marks ≡ count) }
        ensures none { IfOk result HasNone }
    {
        let leaves = count / 64 + 1;
        let branches = leaves / 64 + 1;
        let roots = branches / 64 + 1;
        Ok(Marks {
            count,
            leaves: zeros(alloc, leaves)?,
            branches: zeros(alloc, branches)?,
            roots: zeros(alloc, roots)?,
        })
    }

    /// Puts a position into the set. Takes no memory.
    pub fn insert(&mut self, k: usize)
        requires { k < length self.old }
        ensures { self.new ≡ slice_set self.old k true }
    {
        set_bit(&mut self.leaves, k);
        set_bit(&mut self.branches, k / 64);
        set_bit(&mut self.roots, k / 64 / 64);
    }

    /// The least position in the set. Takes no memory.
    fn least(&self) -> Option<usize>
        ensures { MatchOption result (HasNone self.now) (IsLeast self.now) }
    {
        let root = first_word(self.roots.as_slice())?;
        let branch = lowest(self.roots.as_slice(), root);
        let leaf = lowest(self.branches.as_slice(), branch);
        Some(lowest(self.leaves.as_slice(), leaf))
    }

    /// Takes a position out of the set. Takes no memory.
    fn remove(&mut self, k: usize)
        requires { IsLeast self.old k }
        ensures { self.new ≡ slice_set self.old k false }
    {
        clear_bit(&mut self.leaves, k);
        drop_empty(&mut self.branches, self.leaves.as_slice(), k / 64);
        drop_empty(&mut self.roots, self.branches.as_slice(), k / 64 / 64);
    }

    /// Takes the least position out of the set, where there is one. Takes no memory.
    pub fn take_least(&mut self) -> Option<usize>
        ensures none { MatchOption result (HasNone self.old) (IsLeast self.old) }
        ensures taken { MatchOption result (self.new ≡ self.old) (λ k. self.new ≡ slice_set self.old k false) }
    {
        let k = self.least()?;
        self.remove(k);
        Some(k)
    }
}
