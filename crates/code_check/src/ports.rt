//! Whether the faces and summaries of a machine have their shape, and its clocks are there.

ghost use Rattle.std.specs.Prelude.{◌≡◌, ◌≢◌, ◌<◌, ◌↔◌, true, All, AllPairs, IsTrue};
ghost use Rattle.sv_base.specs.Classes.{is_clock};
ghost use Rattle.code_isa.specs.Faces.{ports_of, clock_count};
ghost use Rattle.code_isa.specs.Checks.{IsFaceShape, IsPortShaped};

use code_isa::{Kid, Machine, Reg, input_count};
use sv_base::{Class, Face, Port, Sequence, Summary};

/// How many clocks a face has.
fn clock_count(face: &Face) -> usize
    ensures { result ≡ clock_count face.now }
{
    let ports = face.ports.as_slice().iter();
    ports.filter(|p| matches!(p.class, Class::Clock)).count()
}

/// Whether none of these ports has the name of another one.
fn is_new(ports: &[Port], port: &Port) -> bool
    ensures { IsTrue result ↔ All (λ p. p.name ≢ port.now.name) ports.now }
{
    ports.iter().all(|p| !p.name.is(&port.name))
}

/// Whether no two ports have one name.
fn do_names_differ(ports: &[Port]) -> bool
    ensures { IsTrue result ↔ AllPairs (λ p q. p.name ≢ q.name) ports.now }
{
    for (k, port) in ports.iter().enumerate() {
        if !is_new(&ports[..k], port) {
            return false;
        }
    }
    true
}

/// Whether a port has one bit, where it is a clock.
fn is_narrow(port: &Port) -> bool
    ensures { IsTrue result ↔ (is_clock port.now.class ≡ true → port.now.width ≡ 1) }
{
    match port.class {
        Class::Clock => port.width == 1,
        Class::Value | Class::Idle | Class::Output => true,
    }
}

/// Whether each of these ports has one bit, where it is a clock.
fn are_narrow(ports: &[Port]) -> bool
    ensures { IsTrue result ↔ All (λ p. is_clock p.class ≡ true → p.width ≡ 1) ports.now }
{
    ports.iter().all(is_narrow)
}

/// Whether each clock has one bit.
fn are_clocks_narrow(face: &Face) -> bool
    ensures { IsTrue result ↔ All (λ p. p.width ≡ 1) (ports_of is_clock face.now) }
{
    are_narrow(face.ports.as_slice())
}

/// Whether each position is below the next.
fn rises(row: &[u32]) -> bool
    ensures { IsTrue result ↔ AllPairs (λ p q. p < q) row.now }
{
    for k in 1..row.len() {
        if row[k] <= row[k - 1] {
            return false;
        }
    }
    true
}

/// Whether all these positions are below a number.
fn are_below(positions: &[u32], end: usize) -> bool
    ensures { IsTrue result ↔ All (λ p. p < end) positions.now }
{
    positions.iter().all(|p| (*p as usize) < end)
}

/// Whether the positions of each row rise.
fn do_rows_rise(rows: &[Sequence<u32>]) -> bool
    ensures { IsTrue result ↔ All (λ row. AllPairs (λ p q. p < q) row) rows.now }
{
    rows.iter().all(|row| rises(row.as_slice()))
}

/// Whether all positions of all rows are below a number.
fn are_rows_within(rows: &[Sequence<u32>], end: usize) -> bool
    ensures { IsTrue result ↔ All (λ row. All (λ p. p < end) row) rows.now }
{
    rows.iter().all(|row| are_below(row.as_slice(), end))
}

/// Whether a face and a summary have their shape.
fn is_face_shape(face: &Face, summary: &Summary) -> bool
    ensures { IsTrue result ↔ IsFaceShape face.now summary.now }
{
    let rows = summary.rows.as_slice();
    let names = do_names_differ(face.ports.as_slice());
    let clocks = are_clocks_narrow(face);
    let rise = do_rows_rise(rows);
    let within = are_rows_within(rows, input_count(face));
    names && clocks && rise && within
}

/// Whether the faces and summaries of all children have their shape.
fn are_kids_shaped(kids: &[Kid]) -> bool
    ensures { IsTrue result ↔ All (λ kid. IsFaceShape kid.face kid.summary) kids.now }
{
    for kid in kids {
        if !is_face_shape(&kid.face, &kid.summary) {
            return false;
        }
    }
    true
}

/// Whether the clocks of all registers are below a number.
fn have_clocks(regs: &[Reg], clocks: usize) -> bool
    ensures { IsTrue result ↔ All (λ r. r.clock < clocks) regs.now }
{
    regs.iter().all(|r| (r.clock as usize) < clocks)
}

/// Whether all clocks that children are joined to are below a number.
fn are_kids_clocked(kids: &[Kid], clocks: usize) -> bool
    ensures { IsTrue result ↔ All (λ kid. All (λ c. c < clocks) kid.clocks) kids.now }
{
    kids.iter()
        .all(|kid| are_below(kid.clocks.as_slice(), clocks))
}

/// Whether all faces and summaries have their shape, and all clocks that are named are there.
pub fn is_port_shaped(m: &Machine) -> bool
    ensures { IsTrue result ↔ IsPortShaped m.now }
{
    let count = clock_count(&m.face);
    if !is_face_shape(&m.face, &m.summary) {
        return false;
    }
    if !are_kids_shaped(m.kids.as_slice()) {
        return false;
    }
    if !have_clocks(m.regs.as_slice(), count) {
        return false;
    }
    are_kids_clocked(m.kids.as_slice(), count)
}
