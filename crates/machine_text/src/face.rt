//! Faces and summaries.

ghost use Rattle.std.specs.Prelude.{◌≡◌, ◌<◌, ◌^◌, length, All, IfOk};
ghost use Rattle.code_isa.specs.Faces.{IsName, IsPort, IsFace, IsSummary, clock_count, output_count};

use crate::fault::TextFault;
use crate::words::Words;
use std::alloc::Global;
use sv_base::spelling::is_name;
use sv_base::{Class, Face, NAME_LIMIT, Name, Port, Sequence, Summary};

/// How many clocks a face has.
pub fn clock_count(face: &Face) -> usize
    ensures { result ≡ clock_count face.now }
{
    let ports = face.ports.as_slice().iter();
    ports.filter(|p| matches!(p.class, Class::Clock)).count()
}

/// How many outputs a face has.
pub fn output_count(face: &Face) -> usize
    ensures { result ≡ output_count face.now }
{
    let ports = face.ports.as_slice().iter();
    ports.filter(|p| matches!(p.class, Class::Output)).count()
}

const CLASSES: [(&str, Class); 4] = [
    ("data", Class::Value),
    ("clock", Class::Clock),
    ("idle", Class::Idle),
    ("output", Class::Output),
];

fn read_class(words: &mut Words<'_>) -> Result<Class, TextFault> {
    let word = words.word();
    for (name, class) in &CLASSES {
        if name.as_bytes() == word {
            return Ok(*class);
        }
    }
    Err(TextFault::WrongWord)
}

fn read_name(alloc: Global, words: &mut Words<'_>) -> Result<Name, TextFault>
    ensures { IfOk result IsName }
{
    let word = words.word();
    if !is_name(word) || word.len() > NAME_LIMIT {
        return Err(TextFault::WrongWord);
    }
    Ok(Name::of(alloc, word)?)
}

/// A port: its class, its width and its name.
fn read_port(alloc: Global, words: &mut Words<'_>) -> Result<Port, TextFault>
    ensures { IfOk result IsPort }
{
    let class = read_class(words)?;
    let width = words.width()?;
    let name = read_name(alloc, words)?;
    Ok(Port {
        name,
        class,
        signed: false,
        width,
    })
}

/// A face: how many ports it has, and the ports. Its name is `m`.
pub fn read_face(alloc: Global, words: &mut Words<'_>) -> Result<Face, TextFault>
    ensures { IfOk result IsFace }
{
    let count = words.below(1025)?;
    let mut ports = Sequence::new(alloc);
    for _ in 0..count {
        ports.push(read_port(alloc, words)?)?;
    }
    Ok(Face {
        name: Name::of(alloc, b"m")?,
        ports,
    })
}

/// A row of positions: how many there are, and the positions.
fn read_row(alloc: Global, words: &mut Words<'_>) -> Result<Sequence<u32>, TextFault>
    ensures short { IfOk result (λ row. length row < 2 ^ 16) }
    ensures within { IfOk result (λ row. All (λ p. p < 2 ^ 16) row) }
{
    let count = words.below(0x1_0000)?;
    let mut row = Sequence::new(alloc);
    for _ in 0..count {
        row.push(words.below(0x1_0000)? as u32)?;
    }
    Ok(row)
}

/// A summary: a row for each output of a face.
pub fn read_summary(alloc: Global, words: &mut Words<'_>, face: &Face) -> Result<Summary, TextFault>
    ensures { IfOk result (IsSummary face.now) }
{
    let count = output_count(face);
    let mut rows = Sequence::new(alloc);
    for _ in 0..count {
        rows.push(read_row(alloc, words)?)?;
    }
    Ok(Summary { rows })
}
