//! Marks of the variables that are read, and what is refused of clocks among them.

ghost use Rattle.std.specs.Prelude.{◌≡◌, length, IfOk, OnOk};
ghost use Rattle.net_ir.specs.Marks.{mark_all, AreMarksOf};
ghost use Rattle.clock_domains.specs.Each.{of_each};
ghost use Rattle.clock_domains.specs.Reads as spec;
ghost use Rattle.clock_domains.specs.code.Walking.{Finds, marked_refusal, marked_refusals, driver_refusals};

use crate::each::{child_ports, faces_behind};
use crate::fault::{ClockFault, refuse};
use crate::listing::reads_in;
use net_ir::marks::{is_clear, mark_named};
use net_ir::{Driver, Var};
use std::alloc::Global;
use sv_base::{Face, Kind, Place, Port};

/// A mark for each variable that is read. Refuses the first read of a clock, in item order, where these marks
/// tell the clocks.
pub fn read_marks(
    alloc: Global,
    vars: &[Var],
    clocks: &[bool],
    drivers: &[Driver],
    children: &[Face],
) -> Result<Vec<bool>, ClockFault>
    ensures refused { Finds (of_each (driver_refusals vars.now clocks.now) drivers.now children.now) result }
    ensures marks { IfOk result (λ marks. AreMarksOf (length vars.now) (of_each spec.reads_in drivers.now children.now) marks.items) }
{
    let mut marks = vec![in alloc; false; vars.len()]?;
    let mut faces = children;
    for driver in drivers {
        let ports = child_ports(driver, faces);
        mark_driver(alloc, vars, clocks, ports, driver, &mut marks)?;
        faces = faces_behind(driver, faces);
    }
    Ok(marks)
}

/// Marks what a driver reads. Refuses the first read of a clock, where these marks tell the clocks.
fn mark_driver(
    alloc: Global,
    vars: &[Var],
    clocks: &[bool],
    ports: &[Port],
    driver: &Driver,
    marks: &mut Vec<bool>,
) -> Result<(), ClockFault>
    ensures refused { Finds (driver_refusals vars.now clocks.now ports.now driver.now) result }
    ensures marks { OnOk result (marks.new.items ≡ mark_all (spec.reads_in ports.now driver.now) marks.old.items) }
{
    let reads = reads_in(alloc, driver, ports)?;
    check_reads(alloc, vars, clocks, place_of(driver), reads.as_slice())?;
    mark_reads(reads.as_slice(), marks);
    Ok(())
}

/// Refuses the first of these reads at a place that reads a clock.
fn check_reads(
    alloc: Global,
    vars: &[Var],
    clocks: &[bool],
    place: Place,
    reads: &[u32],
) -> Result<(), ClockFault>
    ensures { Finds (marked_refusals vars.now clocks.now place reads.now) result }
{
    let mut rest = reads;
    while let [var, behind @ ..] = rest {
        check_read(alloc, vars, clocks, place, *var)?;
        rest = behind;
    }
    Ok(())
}

/// Refuses a read of a clock at a place.
fn check_read(
    alloc: Global,
    vars: &[Var],
    clocks: &[bool],
    place: Place,
    var: u32,
) -> Result<(), ClockFault>
    ensures { Finds (marked_refusal vars.now clocks.now place var) result }
{
    match vars.get(var as usize) {
        Some(found) => {
            if is_clear(clocks, var as usize) {
                Ok(())
            } else {
                Err(refuse(alloc, Kind::ClockRead, place, found.name.bytes()))
            }
        }
        None => Ok(()),
    }
}

/// Marks what is read.
fn mark_reads(reads: &[u32], marks: &mut Vec<bool>)
    ensures { marks.new.items ≡ mark_all reads.now marks.old.items }
{
    let mut rest = reads;
    while let [read, behind @ ..] = rest {
        mark_named(Some(*read), marks);
        rest = behind;
    }
}

/// Where a driver stands.
fn place_of(driver: &Driver) -> Place
    ensures { result ≡ spec.place_of driver.now }
{
    match driver {
        Driver::Assign { place, .. } | Driver::Comb { place, .. } | Driver::Clocked { place, .. } =>
            *place,
        Driver::Instance(made) => made.place,
    }
}
