//! Whether units are joined.

ghost use Rattle.std.specs.Prelude.{◌≡◌, ◌<◌, ◌≤◌, ◌^◌, ◌↔◌, length, IsTrue};
ghost use Rattle.std.specs.List.{AllZip};
ghost use Rattle.linked_units.specs.Units.{StandsFor, AreJoined};

use crate::unit::Unit;
use code_isa::Kid;
use sv_base::{Face, Port, Sequence, Summary};

fn is_same_port(a: &Port, b: &Port) -> bool
    ensures { IsTrue result ↔ (a.now ≡ b.now) }
{
    a.name.is(&b.name) && a.class == b.class && a.signed == b.signed && a.width == b.width
}

fn are_same_ports(a: &[Port], b: &[Port]) -> bool
    ensures { IsTrue result ↔ (a.now ≡ b.now) }
{
    if a.len() != b.len() {
        return false;
    }
    for (k, port) in a.iter().enumerate() {
        if !is_same_port(port, &b[k]) {
            return false;
        }
    }
    true
}

/// Whether two faces are equal: name, and ports with name, class, sign and width in order.
pub fn is_same_face(a: &Face, b: &Face) -> bool
    ensures { IsTrue result ↔ (a.now ≡ b.now) }
{
    a.name.is(&b.name) && are_same_ports(a.ports.as_slice(), b.ports.as_slice())
}

fn is_same_row(a: &Sequence<u32>, b: &Sequence<u32>) -> bool
    ensures { IsTrue result ↔ (a.now ≡ b.now) }
{
    a.as_slice() == b.as_slice()
}

fn are_same_rows(a: &[Sequence<u32>], b: &[Sequence<u32>]) -> bool
    ensures { IsTrue result ↔ (a.now ≡ b.now) }
{
    if a.len() != b.len() {
        return false;
    }
    for (k, row) in a.iter().enumerate() {
        if !is_same_row(row, &b[k]) {
            return false;
        }
    }
    true
}

/// Whether two summaries are equal.
pub fn is_same_summary(a: &Summary, b: &Summary) -> bool
    ensures { IsTrue result ↔ (a.now ≡ b.now) }
{
    are_same_rows(a.rows.as_slice(), b.rows.as_slice())
}

/// Whether a unit has the face and the summary that a parent names.
fn stands_for(units: &[Unit], kid: u32, child: &Kid) -> bool
    requires { kid < length units.now }
    ensures { IsTrue result ↔ StandsFor units.now kid child.now }
{
    let m = units[kid as usize].code.machine();
    is_same_face(&m.face, &child.face) && is_same_summary(&m.summary, &child.summary)
}

/// Whether a unit has a number below this one and stands for a child.
fn is_kid(units: &[Unit], n: usize, kid: u32, child: &Kid) -> bool
    requires { n ≤ length units.now }
    ensures { IsTrue result ↔ ((kid < n) × StandsFor units.now kid child.now) }
{
    (kid as usize) < n && stands_for(units, kid, child)
}

/// Whether kids stand for children, one for each, and have numbers below this one.
fn are_kids(units: &[Unit], n: usize, kids: &[u32], children: &[Kid]) -> bool
    requires { n ≤ length units.now }
    ensures { IsTrue result ↔ AllZip (λ kid child. (kid < n) × StandsFor units.now kid child) kids.now children.now }
{
    if kids.len() != children.len() {
        return false;
    }
    for (k, kid) in kids.iter().enumerate() {
        if !is_kid(units, n, *kid, &children[k]) {
            return false;
        }
    }
    true
}

/// Whether each unit has one kid for each child of its code, in order, with a lower number, and with the face and the
/// summary that the code names. Takes no memory.
pub fn are_joined(units: &[Unit]) -> bool
    ensures { IsTrue result ↔ AreJoined units.now }
{
    for (n, unit) in units.iter().enumerate() {
        let children = &unit.code.machine().kids;
        if !are_kids(units, n, unit.kids.as_slice(), children.as_slice()) {
            return false;
        }
    }
    true
}
