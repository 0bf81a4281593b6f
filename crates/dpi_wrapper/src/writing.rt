//! Writing the text of a wrapper.

ghost use Rattle.std.specs.Prelude.{◌≡◌, ◌++◌, IfOk, OnOk};
ghost use Rattle.dpi_wrapper.specs.WrapperText.{module_text, wrapper_text};

use crate::comments::push_comments;
use crate::header::push_header;
use crate::imports::{push_imports, push_variables};
use crate::processes::push_processes;
use std::alloc::{AllocError, Global};
use sv_base::{Face, WrapperFace};

#[tactic(auto, unfolding(crate::specs::WrapperText::module_text))]
fn push_module(alloc: Global, into: &mut Vec<u8>, face: &Face) -> Result<(), AllocError>
    ensures { OnOk result (into.new.items ≡ into.old.items ++ module_text face.now) }
{
    push_header(alloc, into, face)?;
    push_imports(alloc, into, face)?;
    push_variables(alloc, into, face)?;
    push_processes(alloc, into, face)
}

/// The text of a wrapper. It asks for no good face: where the face is none, no face is read from its text.
#[tactic(auto, unfolding(crate::specs::WrapperText::wrapper_text))]
pub fn write_wrapper(alloc: Global, w: &WrapperFace) -> Result<Vec<u8>, AllocError>
    ensures { IfOk result (λ text. text.items ≡ wrapper_text w.now) }
{
    let mut text = Vec::new(alloc);
    push_comments(alloc, &mut text, w)?;
    push_module(alloc, &mut text, &w.face)?;
    Ok(text)
}
