//! The design of a source.

ghost use Rattle.std.specs.Prelude.{◌≡◌, ◌⊎◌, map, Ok, Err, IfOk, IfErr};
ghost use Rattle.std.specs.List.{IsDistinct};
ghost use Rattle.std.specs.Str.{bytes_eq};
ghost use Rattle.sv_base.specs.Faults.{IfRefused};
ghost use Rattle.sv_base.specs.declared.face.Port.{Port};
ghost use Rattle.net_ir.specs.Face.{ports_of};
ghost use Rattle.elaborate.specs.Items as elaborated;
ghost use Rattle.plain_run.specs.Plain.{IsPlain};
ghost use Rattle.sealer.specs.Design.{not_plain, IsLegal, IsIllegal};
ghost use Rattle.sealer.specs.Source.{source_too_long, HasDesign, IsRefused};
ghost use Rattle.sealer.specs.code.Designing.{IsFlaw};

use crate::modules::check_modules;
use crate::supported::is_supported;
use elaborate::law::specialisations_are_lawful;
use elaborate::specialised;
use module_parser::parse_file;
use net_ir::Spec;
use plain_run::is_plain;
use std::alloc::{AllocError, Global};
use sv_ast::Module;
use sv_base::{Fault, Kind, Name, Place, Refusal};
use sv_lexer::lex;

/// Why a source is no design: any refusal of `sv_lexer`, of `module_parser` and of `elaborate`, TooMany `file`, TooMany `modules`,
/// DuplicateName of a module, UnknownName of the top, or Unsupported `plain`.
pub type BuildFault = Fault;

/// The most bytes of a source.
pub const SOURCE_LIMIT: usize = 1_048_576;

/// The design of the top of this name in a source, where it has one; else its first refusal. Takes time in the size of the
/// source and of its design.
pub fn front(alloc: Global, top: &[u8], bytes: &[u8]) -> Result<Spec, BuildFault>
    ensures design { IfOk result (HasDesign top.now bytes.now) }
    ensures refused { IfErr result (IfRefused (IsRefused top.now bytes.now)) }
    ensures plain { IfOk result IsPlain }
    ensures names { IfOk result (λ spec. IsDistinct bytes_eq (map (λ (p : Port). p.name) (ports_of spec))) }
{
    if bytes.len() > SOURCE_LIMIT {
        return Err(BuildFault::Refused(too_long(alloc)?));
    }
    let tokens = lex(alloc, 1, bytes)?;
    let tokens = tokens.into_vec();
    let modules = parse_file(alloc, &tokens)?;
    specialisations_are_lawful();
    design_of_modules(alloc, top, modules.as_slice())
}

/// The refusal of a source above its limit.
pub fn too_long(alloc: Global) -> Result<Refusal, AllocError>
    ensures { IfOk result (λ refusal. refusal ≡ source_too_long) }
{
    Ok(Refusal {
        kind: Kind::TooMany,
        place: Place { file: 1, line: 1 },
        name: Name::of(alloc, b"file")?,
    })
}

/// The refusal of a source whose form or design is not plain.
fn not_plain(alloc: Global) -> Result<Refusal, AllocError>
    ensures { IfOk result (λ refusal. refusal ≡ not_plain) }
{
    Ok(Refusal {
        kind: Kind::Unsupported,
        place: Place::NOWHERE,
        name: Name::of(alloc, b"plain")?,
    })
}

/// The design of the modules of a source, where they are legal; else their first refusal.
fn design_of_modules(alloc: Global, top: &[u8], modules: &[Module]) -> Result<Spec, BuildFault>
    ensures design { IfOk result (IsLegal top.now modules.now) }
    ensures refused { IfErr result (IfRefused (IsIllegal top.now modules.now)) }
{
    check_modules(alloc, top, modules)?;
    if is_supported(modules) {
        plain_design(alloc, &modules[0])
    } else {
        Err(BuildFault::Refused(not_plain(alloc)?))
    }
}

/// The specialisation of a module, where it has one that is plain; else why it has none.
fn plain_design(alloc: Global, module: &Module) -> Result<Spec, BuildFault>
    ensures specialised { IfOk result (λ spec. elaborated.specialised «module».now ≡ Ok spec) }
    ensures plain { IfOk result IsPlain }
    ensures refused { IfErr result (IfRefused (IsFlaw «module».now)) }
{
    let spec = specialised(alloc, module)?;
    specialisations_are_lawful();
    if is_plain(alloc, &spec)? {
        Ok(spec)
    } else {
        Err(BuildFault::Refused(not_plain(alloc)?))
    }
}
