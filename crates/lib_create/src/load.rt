//! Reading a whole file up to a limit.

ghost use Rattle.std.specs.Prelude.{◌≡◌, ◌≤◌, ◌^◌, ◌<◌, ⊤, IfOk, IfSome, IsErrOf};
ghost use Rattle.std.specs.FinMap.{get};
ghost use Rattle.io_edge.specs.Fault.{Rose};
ghost use Rattle.lib_create.specs.code.Loading.{IsLoaded, IsWithin};
ghost use Rattle.lib_create.specs.declared.stop.Stop.TheVariants.{ReadFault, WriteFault};

use crate::stop::Stop;
use io_edge::{Folder, Got};
use std::alloc::Global;

/// What a file holds.
#[derive(Debug, Drop)]
pub enum Loaded {
    /// The name isn't there.
    Absent,
    /// More bytes than the limit.
    TooLong,
    /// All its bytes.
    Bytes(Vec<u8>),
}

/// The most bytes of one read.
const PIECE: usize = 4096;

/// All bytes of a file, where it is there and has at most `limit` bytes.
pub fn load<D: Folder>(
    alloc: Global,
    folder: &mut D,
    name: &str,
    limit: usize,
) -> Result<Loaded, Stop>
    requires { limit < 2 ^ 62 }
    ensures loaded { IfOk result (λ loaded. IfSome (D.content folder.old) (λ files. IsLoaded (get files name.now) limit loaded)) }
    ensures within { IfOk result (λ loaded. IsWithin limit loaded) }
    ensures unchanged { D.content folder.new ≡ D.content folder.old }
    ensures read_fault { IsErrOf result ReadFault → Rose (D.read_faults folder.old) (D.read_faults folder.new) }
    ensures no_write_fault { IsErrOf result WriteFault → ⊥ }
    ensures later { D.read_faults folder.old ≤ D.read_faults folder.new }
    ensures no_write { D.write_faults folder.new ≡ D.write_faults folder.old }
{
    let mut bytes = Vec::new(alloc);
    let mut piece = [0u8; PIECE];
    while bytes.len() <= limit {
        match folder.read_at(name, bytes.len() as u64, &mut piece) {
            Err(_) => return Err(Stop::ReadFault),
            Ok(Got::Absent) => return Ok(Loaded::Absent),
            Ok(Got::Bytes(0)) => return Ok(Loaded::Bytes(bytes)),
            Ok(Got::Bytes(n)) => bytes.extend_from_slice(&piece[..n])?,
        }
    }
    Ok(Loaded::TooLong)
}
