//! How many ports of a face are of a class.

ghost use Rattle.std.specs.Prelude.{◌≡◌};
ghost use Rattle.code_isa.specs.Faces.{clock_count, output_count};

use sv_base::{Class, Face};

/// How many clocks a face has.
pub fn clock_count(face: &Face) -> usize
    ensures { result ≡ clock_count face.now }
{
    let ports = face.ports.as_slice().iter();
    ports.filter(|p| matches!(p.class, Class::Clock)).count()
}

/// How many outputs a face has.
pub fn output_count(face: &Face) -> usize
    ensures { result ≡ output_count face.now }
{
    let ports = face.ports.as_slice().iter();
    ports.filter(|p| matches!(p.class, Class::Output)).count()
}
