//! Whether a face with its summary is one that a wrapper may have.

ghost use Rattle.std.specs.Prelude.{◌≡◌, ◌≤◌, ◌<◌, ◌↔◌, true, length, All, AllPairs, IsTrue};
ghost use Rattle.bit_ops.specs.Width.{IsWidth};
ghost use Rattle.sv_base.specs.Classes.{is_clock, is_output};
ghost use Rattle.dpi_wrapper.specs.WrapperText.{ports_of};
ghost use Rattle.dpi_wrapper.specs.GoodFace.{IsShortName, IsGoodPort, IsGoodFace, IsGoodSummary, IsDigest, IsGoodWrapper};

use crate::lists::{are_below, do_names_differ, input_count, output_count, rises};
use bit_ops::MAX_WIDTH;
use sv_base::spelling::is_name;
use sv_base::{Class, Face, NAME_LIMIT, Name, Port, Sequence, Summary, WrapperFace};

/// The greatest number of ports of a module.
pub const PORT_LIMIT: usize = 1024;

/// How many bytes a SHA-256 has.
pub const DIGEST_LENGTH: usize = 32;

fn is_short_name(name: &Name) -> bool
    ensures { IsTrue result ↔ IsShortName name.now }
{
    is_name(name.bytes()) && name.bytes().len() <= NAME_LIMIT
}

fn is_width(width: u32) -> bool
    ensures { IsTrue result ↔ IsWidth width }
{
    1 <= width && width <= MAX_WIDTH
}

/// Whether a port has one bit, where it is a clock.
fn is_narrow(port: &Port) -> bool
    ensures { IsTrue result ↔ (is_clock port.now.class ≡ true → port.now.width ≡ 1) }
{
    match port.class {
        Class::Clock => port.width == 1,
        Class::Value | Class::Idle | Class::Output => true,
    }
}

fn is_good_port(port: &Port) -> bool
    ensures { IsTrue result ↔ IsGoodPort port.now }
{
    is_short_name(&port.name) && is_width(port.width) && is_narrow(port)
}

fn are_good_ports(ports: &[Port]) -> bool
    ensures { IsTrue result ↔ All IsGoodPort ports.now }
{
    ports.iter().all(is_good_port)
}

fn is_few(ports: &[Port]) -> bool
    ensures { IsTrue result ↔ (length ports.now ≤ PORT_LIMIT) }
{
    ports.len() <= PORT_LIMIT
}

fn is_good_face(face: &Face) -> bool
    ensures { IsTrue result ↔ IsGoodFace face.now }
{
    let ports = face.ports.as_slice();
    let named = is_short_name(&face.name);
    let few = is_few(ports);
    let good = are_good_ports(ports);
    let apart = do_names_differ(ports);
    named && few && good && apart
}

/// Whether there are as many rows as outputs.
fn are_as_many(rows: &[Sequence<u32>], ports: &[Port]) -> bool
    ensures { IsTrue result ↔ (length rows.now ≡ length (ports_of is_output ports.now)) }
{
    rows.len() == output_count(ports)
}

/// Whether the positions of each row rise.
fn do_rows_rise(rows: &[Sequence<u32>]) -> bool
    ensures { IsTrue result ↔ All (λ row. AllPairs (λ p q. p < q) row) rows.now }
{
    rows.iter().all(|row| rises(row.as_slice()))
}

/// Whether all positions of all rows are below a number.
fn are_rows_within(rows: &[Sequence<u32>], end: usize) -> bool
    ensures { IsTrue result ↔ All (λ row. All (λ p. p < end) row) rows.now }
{
    rows.iter().all(|row| are_below(row.as_slice(), end))
}

fn is_good_summary(face: &Face, summary: &Summary) -> bool
    ensures { IsTrue result ↔ IsGoodSummary face.now summary.now }
{
    let rows = summary.rows.as_slice();
    let ports = face.ports.as_slice();
    let many = are_as_many(rows, ports);
    let rise = do_rows_rise(rows);
    let within = are_rows_within(rows, input_count(ports));
    many && rise && within
}

/// Whether there are as many bytes as a SHA-256 has.
fn is_digest(bytes: &[u8]) -> bool
    ensures { IsTrue result ↔ IsDigest bytes.now }
{
    bytes.len() == DIGEST_LENGTH
}

/// Whether a wrapper may have this face with its summary and digest.
pub fn is_good(w: &WrapperFace) -> bool
    ensures { IsTrue result ↔ IsGoodWrapper w.now }
{
    let face = is_good_face(&w.face);
    let summary = is_good_summary(&w.face, &w.summary);
    let digest = is_digest(&w.digest);
    face && summary && digest
}
