ghost use Rattle.std.specs.Prelude.{◌≡◌, ◌<◌, ◌≤◌, length, take, drop};
ghost use Rattle.sv_lexer.specs.Piece as piece_spec;
ghost use Rattle.sv_lexer.specs.Piece.{HasForm, FaultOf, IsBased};
ghost use Rattle.sv_lexer.specs.Scan as scan;

use crate::form::{Base, Form};
use crate::number::head_at;
use crate::run::{Class, run_len};
use crate::value::{based_fault, decimal_fault};
use sv_base::{Kind, NAME_LIMIT};

/// What is wrong with a piece, and the name that the message prints.
#[derive(Clone, Copy, Debug)]
pub struct Flaw<'a> {
    pub kind: Kind,
    pub name: &'a [u8],
}

fn named<'a>(name: &'a [u8], kind: Option<Kind>) -> Option<Flaw<'a>>
    ensures { scan.fault_of result ≡ piece_spec.named name.now kind }
{
    match kind {
        Some(kind) => Some(Flaw { kind, name }),
        None => None,
    }
}

fn length_flaw(name: &[u8]) -> Option<Flaw<'static>>
    ensures { scan.fault_of result ≡ piece_spec.length_fault name.now }
{
    if name.len() > NAME_LIMIT {
        Some(Flaw {
            kind: Kind::TooMany,
            name: b"name",
        })
    } else {
        None
    }
}

fn based_flaw<'a>(piece: &'a [u8]) -> Option<Flaw<'a>>
    requires { HasForm Form.Based piece.now }
    ensures { FaultOf Form.Based piece.now (scan.fault_of result) }
{
    let size = run_len(Class::Decimal, piece);
    let tail = &piece[size..];
    let Some(head) = head_at(tail) else {
        unreachable!();
    };
    named(
        piece,
        based_fault(&piece[..size], head.base, &tail[head.len..]),
    )
}

/// What is wrong with a piece of this form, if it is refused.
pub fn flaw_of<'a>(form: Form, piece: &'a [u8]) -> Option<Flaw<'a>>
    requires { HasForm form piece.now }
    ensures { FaultOf form piece.now (scan.fault_of result) }
{
    match form {
        Form::OpenComment => Some(Flaw {
            kind: Kind::OpenComment,
            name: b"",
        }),
        Form::OtherDirective => Some(Flaw {
            kind: Kind::Unsupported,
            name: &piece[1..],
        }),
        Form::Word => length_flaw(piece),
        Form::System => length_flaw(&piece[1..]),
        Form::Decimal => named(piece, decimal_fault(piece)),
        Form::Based => based_flaw(piece),
        Form::Blank | Form::Comment | Form::Mark | Form::Directive | Form::Fill | Form::Sign =>
            None,
    }
}
