//! The ports of the children of a module's instances.

ghost use Rattle.std.specs.Prelude.{◌≡◌, drop};
ghost use Rattle.clock_domains.specs.Each.{first_ports, child_ports, faces_behind};

use net_ir::Driver;
use sv_base::{Face, Port};

/// The ports of the first of these faces.
fn first_ports<'a>(faces: &'a [Face]) -> &'a [Port]
    ensures { result.now ≡ first_ports faces.now }
{
    match faces {
        [] => &[],
        [face, ..] => face.ports.as_slice(),
    }
}

/// The ports of a driver's child, where these are the faces of the instances from it on.
pub fn child_ports<'a>(driver: &Driver, faces: &'a [Face]) -> &'a [Port]
    ensures { result.now ≡ child_ports driver.now faces.now }
{
    match driver {
        Driver::Assign { .. } | Driver::Comb { .. } | Driver::Clocked { .. } => &[],
        Driver::Instance(_) => first_ports(faces),
    }
}

/// All but the first of these faces.
fn behind_first<'a>(faces: &'a [Face]) -> &'a [Face]
    ensures { result.now ≡ drop 1 faces.now }
{
    match faces {
        [] => faces,
        [_, behind @ ..] => behind,
    }
}

/// The faces of the instances behind a driver.
pub fn faces_behind<'a>(driver: &Driver, faces: &'a [Face]) -> &'a [Face]
    ensures { result.now ≡ faces_behind driver.now faces.now }
{
    match driver {
        Driver::Assign { .. } | Driver::Comb { .. } | Driver::Clocked { .. } => faces,
        Driver::Instance(_) => behind_first(faces),
    }
}
