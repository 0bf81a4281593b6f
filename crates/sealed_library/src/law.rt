//! Laws of libraries. Each is the contract of a function with an empty body: a caller has the law by a
//! call, which does nothing.

ghost use Rattle.std.specs.Prelude.{◌≡◌, ◌≢◌, List, ℕ};
ghost use Rattle.code_isa.specs.declared.machine.Machine.{Machine};
ghost use Rattle.sealed_library.specs.declared.fault.LibFault.{LibFault};
ghost use Rattle.sealed_library.specs.declared.fault.LibFault.TheVariants.{NoMemory};
ghost use Rattle.sealed_library.specs.Library.{Spells, IsLibrary, IsRefused};

/// No two machines have one spelling.
pub fn one_machine()
    ensures { (bytes : List ℕ) (m n : Machine) → Spells bytes m → Spells bytes n → m ≡ n }
{}

/// No two spellings are of one machine.
pub fn one_spelling()
    ensures { (a b : List ℕ) (m : Machine) → Spells a m → Spells b m → a ≡ b }
{}

/// No two refusals are of the same bytes, want of memory apart.
pub fn one_refusal()
    ensures { (bytes : List ℕ) (e f : LibFault) → e ≢ NoMemory → f ≢ NoMemory
        → IsRefused bytes e → IsRefused bytes f → e ≡ f }
{}

/// The library of a checked machine is refused for want of memory alone.
pub fn no_refusal_of_a_library()
    ensures { (bytes : List ℕ) (m : Machine) (e : LibFault) → IsLibrary bytes m → e ≢ NoMemory
        → IsRefused bytes e → ⊥ }
{}
