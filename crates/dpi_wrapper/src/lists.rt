//! Counts of ports, and orders of positions.

ghost use Rattle.std.specs.Prelude.{◌≡◌, ◌≢◌, ◌<◌, ◌↔◌, length, All, AllPairs, IsTrue};
ghost use Rattle.sv_base.specs.Classes.{is_value, is_output};
ghost use Rattle.dpi_wrapper.specs.WrapperText.{ports_of};

use sv_base::{Class, Port};

/// How many of these ports are data inputs.
pub fn input_count(ports: &[Port]) -> usize
    ensures { result ≡ length (ports_of is_value ports.now) }
{
    ports
        .iter()
        .filter(|p| matches!(p.class, Class::Value))
        .count()
}

/// How many of these ports are outputs.
pub fn output_count(ports: &[Port]) -> usize
    ensures { result ≡ length (ports_of is_output ports.now) }
{
    ports
        .iter()
        .filter(|p| matches!(p.class, Class::Output))
        .count()
}

/// Whether none of these ports has the name of another one.
fn is_new(ports: &[Port], port: &Port) -> bool
    ensures { IsTrue result ↔ All (λ p. p.name ≢ port.now.name) ports.now }
{
    ports.iter().all(|p| !p.name.is(&port.name))
}

/// Whether no two ports have one name.
pub fn do_names_differ(ports: &[Port]) -> bool
    ensures { IsTrue result ↔ AllPairs (λ p q. p.name ≢ q.name) ports.now }
{
    for (k, port) in ports.iter().enumerate() {
        if !is_new(&ports[..k], port) {
            return false;
        }
    }
    true
}

/// Whether each position is below the next.
pub fn rises(row: &[u32]) -> bool
    ensures { IsTrue result ↔ AllPairs (λ p q. p < q) row.now }
{
    for k in 1..row.len() {
        if row[k] <= row[k - 1] {
            return false;
        }
    }
    true
}

/// Whether all these positions are below a number.
pub fn are_below(positions: &[u32], end: usize) -> bool
    ensures { IsTrue result ↔ All (λ p. p < end) positions.now }
{
    positions.iter().all(|p| (*p as usize) < end)
}
