ghost use Rattle.std.specs.Prelude.{◌≡◌, length, IfOk, IsTrue, ◌↔◌};

use std::alloc::{AllocError, Global};
use std::marker::Model;

/// The greatest number of bytes of a name.
pub const NAME_LIMIT: usize = 255;

/// A spelling of a source, a command line or a message, seen as its bytes. A name of the language has
/// letters, digits, `_` and `$` (IEEE 1800-2017, 5.6), and at most `NAME_LIMIT` bytes; this type asks for
/// neither, since a refusal also names signs, numbers and nothing at all.
#[derive(Debug, Drop)]
pub struct Name {
    text: Vec<u8>,
}

impl Model for Name {
    ghost use Rattle.std.specs.Prelude.{List, ℕ};

    ghost Value = { List ℕ };

    ghost view = { λ n. n.text.items };
}

impl Name {
    /// The empty name, which a refusal has where it names nothing. Takes no memory.
    pub fn empty(alloc: Global) -> Name
        ensures { length result ≡ 0 }
    {
        Name {
            text: Vec::new(alloc),
        }
    }

    /// A copy of these bytes.
    pub fn of(alloc: Global, bytes: &[u8]) -> Result<Name, AllocError>
        ensures { IfOk result (λ n. n ≡ bytes.now) }
    {
        Ok(Name {
            text: Vec::from_slice(alloc, bytes)?,
        })
    }

    pub fn bytes(&self) -> &[u8]
        ensures { result.now ≡ self.now }
    {
        self.text.as_slice()
    }

    /// Whether both are spelled alike.
    pub fn is(&self, other: &Name) -> bool
        ensures { IsTrue result ↔ (self.now ≡ other.now) }
    {
        self.bytes() == other.bytes()
    }
}
