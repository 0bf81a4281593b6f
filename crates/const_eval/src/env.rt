//! Constants, and the names that are visible where a constant is needed.

ghost use Rattle.std.specs.Prelude.{◌≡◌, List, ℕ, None, Some, IfOk, OnOk, OnErr, IsSome};
ghost use Rattle.const_eval.specs.WholeNumbers.{integer_of, whole_number_of};
ghost use Rattle.const_eval.specs.Env.{bound_of, Rebinds, IsUnchanged};

use crate::whole_number::WholeNumber;
use bit_ops::Bits;
use indexmap::IndexMap;
use std::alloc::{AllocError, Global};
use sv_base::Name;

/// The value of a constant expression: its bits, and whether they stand for a signed number (IEEE 1800-2017,
/// 6.20, 11.2.1).
#[derive(Clone, Copy, Debug)]
pub struct Const {
    pub value: Bits,
    pub signed: bool,
}

impl Const {
    /// The whole number that it stands for.
    pub fn number(&self) -> WholeNumber
        ensures { integer_of result ≡ whole_number_of self.now }
    {
        if self.signed && self.value.is_negative() {
            WholeNumber::Negative(bit_ops::bit_not(self.value).word)
        } else {
            WholeNumber::NotNegative(self.value.word)
        }
    }
}

/// What a visible name stands for.
#[derive(Clone, Copy, Debug)]
pub enum Bound {
    /// A constant, with the lowest position of its range, 0 where none is written.
    Constant { value: Const, low: u32 },
    /// The net or variable of this number.
    Variable(u32),
}

/// The visible names, each with what it stands for. A look-up takes the same time however many there are.
#[derive(Drop)]
pub struct Env {
    names: IndexMap<Vec<u8>, Bound>,
}

impl Env {
    /// No name is visible. Takes no memory.
    pub fn new(alloc: Global) -> Env
        ensures { (name : List ℕ) → bound_of result name ≡ None }
    {
        Env {
            names: IndexMap::new(alloc),
        }
    }

    /// What a name stands for, where it is visible.
    pub fn bound(&self, name: &Name) -> Option<Bound>
        ensures { result ≡ bound_of self.now name.now }
    {
        self.names.get(name.bytes()).copied()
    }

    /// From now on a name stands for this. The answer is what it stood for before.
    pub fn declare(
        &mut self,
        alloc: Global,
        name: &Name,
        bound: Bound,
    ) -> Result<Option<Bound>, AllocError>
        ensures before { IfOk result (λ before. before ≡ bound_of self.old name.now) }
        ensures here { OnOk result (bound_of self.new name.now ≡ Some bound) }
        ensures declared { OnOk result (Rebinds self.old name.now (Some bound) self.new) }
        ensures err { OnErr result (IsUnchanged self.old self.new) }
    {
        let key = Vec::from_slice(alloc, name.bytes())?;
        Ok(self.names.insert(key, bound)?)
    }

    /// A visible name stands again for what it stood for before, or is not visible any more where that is
    /// nothing. Takes no memory.
    pub fn restore(&mut self, name: &Name, before: Option<Bound>)
        requires { IsSome (bound_of self.old name.now) }
        ensures { Rebinds self.old name.now before self.new }
    {
        match before {
            None => {
                self.names.swap_remove(name.bytes());
            }
            Some(bound) => self.replace(name, bound),
        }
    }

    /// A visible name stands for something else.
    fn replace(&mut self, name: &Name, bound: Bound)
        requires { IsSome (bound_of self.old name.now) }
        ensures { Rebinds self.old name.now (Some bound) self.new }
    {
        if let Some(place) = self.names.get_mut(name.bytes()) {
            *place = bound;
        }
    }
}
