//! Modules made by hand. Variables are told by their numbers, in the order of their declarations.

use bit_ops::{Bits, Op};
use net_ir::{
    Driver, Input, Instance, Made, Output, Pos, Role, Spec, Stmt, Target, Term, Trigger, Var,
};
use sqlite_items::{Boxed, Items};
use std::alloc::{AllocError, Global};
use sv_base::{Class, Face, Name, Place, Port, Sequence};

/// A variable: its name, what it is to the outside, and its width.
pub type Declared = (&'static str, Role, u32);

/// A list of one thing that is made.
pub fn one<T: Drop>(
    alloc: Global,
    first: Result<T, AllocError>,
) -> Result<Sequence<T>, AllocError> {
    let mut items = Sequence::new(alloc);
    items.push(first?)?;
    Ok(items)
}

/// A list with one more thing that is made.
pub fn and<T: Drop>(
    items: Result<Sequence<T>, AllocError>,
    next: Result<T, AllocError>,
) -> Result<Sequence<T>, AllocError> {
    let mut items = items?;
    items.push(next?)?;
    Ok(items)
}

pub fn at(line: u32) -> Place {
    Place { file: 1, line }
}

fn var(alloc: Global, declared: Declared) -> Result<Var, AllocError> {
    let (name, role, width) = declared;
    Ok(Var {
        name: Name::of(alloc, name.as_bytes())?,
        place: Place::NOWHERE,
        role,
        width,
        low: 0,
        ranged: false,
        signed: false,
        wire: false,
        init: Bits::flag(false),
    })
}

/// A module with these variables and drivers.
pub fn module(
    alloc: Global,
    declared: &[Declared],
    drivers: Result<Sequence<Driver>, AllocError>,
) -> Result<Spec, AllocError> {
    let mut vars = Sequence::new(alloc);
    for next in declared {
        vars.push(var(alloc, *next)?)?;
    }
    let drivers = drivers?;
    Ok(Spec {
        module: Name::empty(alloc),
        place: Place::NOWHERE,
        params: Sequence::new(alloc),
        vars,
        drivers,
    })
}

/// The face of a module with ports of these names and classes, each of one bit.
pub fn face(alloc: Global, declared: &[(&str, Class)]) -> Result<Face, AllocError> {
    let mut ports = Sequence::new(alloc);
    for (name, class) in declared {
        ports.push(Port {
            name: Name::of(alloc, name.as_bytes())?,
            class: *class,
            signed: false,
            width: 1,
        })?;
    }
    Ok(Face {
        name: Name::empty(alloc),
        ports,
    })
}

/// A variable at a line.
pub fn read(var: u32, line: u32) -> Term {
    Term::Read {
        var,
        place: at(line),
    }
}

/// `a & b`.
pub fn both(alloc: Global, a: u32, b: u32, line: u32) -> Result<Term, AllocError> {
    let args = Vec::from_array(alloc, [read(a, line), read(b, line)])?;
    Ok(Term::Apply {
        op: Op::And,
        width: 1,
        lo: 0,
        args: Items::from_vec(args),
    })
}

/// `a[b]`.
pub fn picked(alloc: Global, a: u32, b: u32, line: u32) -> Result<Term, AllocError> {
    let base = Boxed::new(alloc, read(a, line))?;
    Ok(Term::Pick {
        base,
        low: 0,
        at: Boxed::new(alloc, read(b, line))?,
        at_signed: false,
        down: false,
        width: 1,
    })
}

/// The whole of a variable as a target.
pub fn whole(alloc: Global, var: u32) -> Target {
    Target::Of {
        var: Some(var),
        name: Name::empty(alloc),
        place: Place::NOWHERE,
        pos: None,
    }
}

/// The bit of a variable at the position that another has, as a target.
pub fn bit_of(alloc: Global, var: u32, position: u32) -> Target {
    Target::Of {
        var: Some(var),
        name: Name::empty(alloc),
        place: Place::NOWHERE,
        pos: Some(Pos {
            at: read(position, 1),
            at_signed: false,
            down: false,
            width: 1,
        }),
    }
}

/// `assign target = value;` at a line.
pub fn assign(
    alloc: Global,
    target: u32,
    value: Result<Term, AllocError>,
    line: u32,
) -> Result<Driver, AllocError> {
    Ok(Driver::Assign {
        value: value?,
        target: whole(alloc, target),
        place: at(line),
    })
}

/// The statement `target <= value;`, or with `=`.
pub fn statement(
    blocking: bool,
    target: Target,
    value: Result<Term, AllocError>,
) -> Result<Stmt, AllocError> {
    Ok(Stmt::Assign {
        value: value?,
        blocking,
        target,
    })
}

/// A combinational process at a line.
pub fn combinational(body: Result<Stmt, AllocError>, line: u32) -> Result<Driver, AllocError> {
    Ok(Driver::Comb {
        body: body?,
        place: at(line),
    })
}

/// The event control `posedge name` at a line.
pub fn edge(alloc: Global, name: &str, var: Option<u32>, line: u32) -> Result<Trigger, AllocError> {
    Ok(Trigger {
        name: Name::of(alloc, name.as_bytes())?,
        var,
        falling: false,
        place: at(line),
    })
}

/// A clocked process at a line.
pub fn clocked(
    triggers: Result<Sequence<Trigger>, AllocError>,
    body: Result<Stmt, AllocError>,
    line: u32,
) -> Result<Driver, AllocError> {
    let triggers = triggers?;
    Ok(Driver::Clocked {
        body: body?,
        triggers,
        place: at(line),
    })
}

/// A connection to an input port that is a plain name. The name stands a line below the port.
pub fn joined(port: u32, var: u32, line: u32) -> Result<Input, AllocError> {
    Ok(Input {
        port,
        plain: Some(var),
        value: read(var, line.wrapping_add(1)),
        place: at(line),
    })
}

/// A connection to an input port that is an expression.
pub fn driven(port: u32, value: Result<Term, AllocError>, line: u32) -> Result<Input, AllocError> {
    Ok(Input {
        port,
        plain: None,
        value: value?,
        place: at(line),
    })
}

/// A connection of an output port to a target.
pub fn output(port: u32, target: Target, line: u32) -> Result<Output, AllocError> {
    Ok(Output {
        port,
        target: Some(target),
        place: at(line),
    })
}

/// An instance at a line.
pub fn instance(
    alloc: Global,
    inputs: Result<Sequence<Input>, AllocError>,
    outputs: Result<Sequence<Output>, AllocError>,
    line: u32,
) -> Result<Driver, AllocError> {
    let inputs = inputs?;
    Ok(Driver::Instance(Instance {
        outputs: outputs?,
        inputs,
        name: Name::empty(alloc),
        place: at(line),
        child: Made::Spec(0),
    }))
}
