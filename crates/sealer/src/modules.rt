//! The modules of a source: how many there are, what they are called, and whether the top is among them.

ghost use Rattle.std.specs.Prelude.{◌≡◌, ◌≤◌, [], true, length, Some, None, IfOk, IfErr, OnOk};
ghost use Rattle.std.specs.Str.{bytes_eq};
ghost use Rattle.sealer.specs.declared.modules.TheConstants.{MODULE_LIMIT};
ghost use Rattle.sealer.specs.Design.{first_repeat, has_module, too_many_modules, unknown_top, IsIllegal};
ghost use Rattle.sv_base.specs.Faults.{IfRefused};

use const_eval::refuse::refused_at;
use const_eval::{Bound, Env};
use std::alloc::{AllocError, Global};
use sv_ast::Module;
use sv_base::{Fault, Kind, Name, Place, Refusal};

/// The most modules of a source.
pub const MODULE_LIMIT: usize = 1024;

/// Refuses modules that are too many, of which two have one name, or of which none is the top. A look at a name takes the
/// same time however many modules there are.
pub(crate) fn check_modules(alloc: Global, top: &[u8], modules: &[Module]) -> Result<(), Fault>
    ensures few { OnOk result (length modules.now ≤ MODULE_LIMIT) }
    ensures distinct { OnOk result (first_repeat [] modules.now ≡ None) }
    ensures present { OnOk result (has_module top.now modules.now ≡ true) }
    ensures refused { IfErr result (IfRefused (IsIllegal top.now modules.now)) }
{
    if modules.len() > MODULE_LIMIT {
        let beyond = too_many(alloc, &modules[MODULE_LIMIT])?;
        return Err(Fault::Refused(beyond));
    }
    check_names(alloc, modules)?;
    if !has_module(top, modules) {
        return Err(Fault::Refused(unknown_top(alloc, top)?));
    }
    Ok(())
}

/// The refusal of more modules than the limit, at the name of the first beyond it.
fn too_many(alloc: Global, beyond: &Module) -> Result<Refusal, AllocError>
    ensures { IfOk result (λ refusal. refusal ≡ too_many_modules beyond.now) }
{
    Ok(Refusal {
        kind: Kind::TooMany,
        place: beyond.name.place,
        name: Name::of(alloc, b"modules")?,
    })
}

/// The refusal of a top that isn't there.
fn unknown_top(alloc: Global, top: &[u8]) -> Result<Refusal, AllocError>
    ensures { IfOk result (λ refusal. refusal ≡ unknown_top top.now) }
{
    Ok(Refusal {
        kind: Kind::UnknownName,
        place: Place::NOWHERE,
        name: Name::of(alloc, top)?,
    })
}

/// Refuses the first name that an earlier module has. What a name stands for is of no account.
fn check_names(alloc: Global, modules: &[Module]) -> Result<(), Fault>
    ensures distinct { OnOk result (first_repeat [] modules.now ≡ None) }
    ensures refused { IfErr result (IfRefused (λ refusal. first_repeat [] modules.now ≡ Some refusal)) }
{
    let mut names = Env::new(alloc);
    for module in modules {
        let before = names.declare(alloc, &module.name.name, Bound::Variable(0))?;
        if before.is_some() {
            return Err(refused_at(alloc, Kind::DuplicateName, &module.name)?);
        }
    }
    Ok(())
}

fn has_module(top: &[u8], modules: &[Module]) -> bool
    ensures { result ≡ has_module top.now modules.now }
{
    modules.iter().any(|module| is_called(module, top))
}

fn is_called(source: &Module, name: &[u8]) -> bool
    ensures { result ≡ bytes_eq source.now.name.name name.now }
{
    source.name.name.bytes() == name
}
