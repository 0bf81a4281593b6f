//! From a source file to its design.

ghost use Rattle.std.specs.Prelude.{◌≡◌, ◌≤◌, Some, IfOk, IfErr, IfSome};
ghost use Rattle.std.specs.FinMap.{get};
ghost use Rattle.lib_create.specs.declared.stop.Stop.TheVariants.{NoMemory};
ghost use Rattle.lib_create.specs.code.Compiling.{IsCompiled, IsFit};
ghost use Rattle.lib_create.specs.code.Running.{IsReadCause};

use crate::command::Sim;
use crate::load::{Loaded, load};
use crate::stop::Stop;
use io_edge::Folder;
use net_ir::Spec;
use sealer::front::{BuildFault, SOURCE_LIMIT, front, too_long};
use std::alloc::Global;
use sv_base::Refusal;

/// What a source file is.
#[derive(Drop)]
pub enum Compiled {
    /// It isn't there.
    Absent,
    /// It is no legal design of the top that is asked for.
    Refused(Refusal),
    Design(Spec),
}

/// What the source file of a command is. Takes time in the size of the file times the logarithm of the number of
/// names.
pub fn compile<D: Folder>(alloc: Global, sim: Sim<'_>, folder: &mut D) -> Result<Compiled, Stop>
    ensures compiled { IfOk result (λ compiled. IfSome (D.content folder.old) (λ files. IsCompiled (get files sim.entry.file.now) sim.entry.top.now compiled)) }
    ensures fit { IfOk result IsFit }
    ensures cause { IfErr result (λ stop. IsReadCause stop (D.read_faults folder.old) (D.read_faults folder.new)) }
    ensures unchanged { D.content folder.new ≡ D.content folder.old }
    ensures later { D.read_faults folder.old ≤ D.read_faults folder.new }
    ensures no_write { D.write_faults folder.new ≡ D.write_faults folder.old }
{
    match load(alloc, folder, sim.file, SOURCE_LIMIT)? {
        Loaded::Absent => Ok(Compiled::Absent),
        Loaded::TooLong => Ok(Compiled::Refused(too_long(alloc)?)),
        Loaded::Bytes(bytes) => compile_bytes(alloc, sim.top, bytes.as_slice()),
    }
}

/// What the bytes of a source are.
pub fn compile_bytes(alloc: Global, top: &str, bytes: &[u8]) -> Result<Compiled, Stop>
    ensures compiled { IfOk result (λ compiled. IsCompiled (Some bytes.now) top.now compiled) }
    ensures fit { IfOk result IsFit }
    ensures memory { IfErr result (λ stop. stop ≡ NoMemory) }
{
    match front(alloc, top.as_bytes(), bytes) {
        Ok(spec) => Ok(Compiled::Design(spec)),
        Err(BuildFault::Refused(refusal)) => Ok(Compiled::Refused(refusal)),
        Err(BuildFault::NoMemory) => Err(Stop::NoMemory),
    }
}
