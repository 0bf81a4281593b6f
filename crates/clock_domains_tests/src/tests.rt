use crate::made::{
    Declared, and, assign, bit_of, both, clocked, combinational, driven, edge, face, instance,
    joined, module, one, output, picked, read, statement, whole,
};
use clock_domains::{ClockFault, classify};
use net_ir::{Driver, Role, Spec};
use std::alloc::{AllocError, Global};
use std::test::Fail;
use sv_base::{Class, Face, Refusal, Sequence};

/// The ports of `child`: a clock, two data inputs, an idle input and an output.
const CHILD: [(&str, Class); 5] = [
    ("ck", Class::Clock),
    ("a", Class::Value),
    ("b", Class::Value),
    ("no", Class::Idle),
    ("q", Class::Output),
];

const PORTS: [Declared; 6] = [
    ("clk", Role::Input, 1),
    ("d", Role::Input, 1),
    ("e", Role::Input, 1),
    ("wide", Role::Input, 2),
    ("y", Role::Output, 1),
    ("g", Role::Inner, 1),
];

fn letter(class: Class) -> char {
    match class {
        Class::Clock => 'c',
        Class::Value => 'v',
        Class::Idle => 'i',
        Class::Output => 'o',
    }
}

/// The classes of the ports, a letter each.
fn letters(alloc: Global, face: &Face) -> Result<String, AllocError> {
    let mut out = String::new(alloc);
    for port in face.ports.as_slice() {
        out.push(letter(port.class))?;
    }
    Ok(out)
}

/// The line, the kind and the name of a refusal.
fn show_refusal(alloc: Global, refusal: &Refusal) -> Result<String, AllocError> {
    let line = refusal.place.line;
    let mut out = format!(in alloc; "{line} ")?;
    out.push_str(refusal.kind.text())?;
    out.push(' ')?;
    for byte in refusal.name.bytes() {
        out.push(char::from(*byte))?;
    }
    Ok(out)
}

/// What the classes of a module are, with children of the face `CHILD`.
fn told(alloc: Global, spec: &Spec) -> Result<String, AllocError> {
    let children = Vec::from_array(alloc, [face(alloc, &CHILD)?, face(alloc, &CHILD)?])?;
    match classify(alloc, spec, &children) {
        Ok(face) => letters(alloc, &face),
        Err(ClockFault::Refused(refusal)) => show_refusal(alloc, &refusal),
        Err(ClockFault::NoMemory) => Err(AllocError),
    }
}

/// What the classes of a module with the variables of `PORTS` and these drivers are.
fn outcome(
    alloc: Global,
    drivers: Result<Sequence<Driver>, AllocError>,
) -> Result<String, AllocError> {
    let spec = module(alloc, &PORTS, drivers)?;
    told(alloc, &spec)
}

fn register(
    alloc: Global,
    name: &str,
    var: Option<u32>,
    read_var: u32,
) -> Result<Driver, AllocError> {
    clocked(
        one(alloc, edge(alloc, name, var, 7)),
        statement(false, whole(alloc, 5), Ok(read(read_var, 8))),
        6,
    )
}

/// An instance whose clock is joined to the variable at line 10, with the rest as data or idle, at line 9.
fn child(alloc: Global, clock: u32, data: u32, idle: u32) -> Result<Driver, AllocError> {
    let inputs = and(
        and(one(alloc, joined(0, clock, 10)), joined(1, data, 12)),
        joined(3, idle, 14),
    );
    instance(alloc, inputs, one(alloc, output(4, whole(alloc, 5), 16)), 9)
}

#[test]
fn modules_without_instances(rt: HostRuntime) -> Result<(), Fail> {
    let alloc = rt.alloc();
    let none = outcome(alloc, Ok(Sequence::new(alloc)))?;
    assert_eq!(rt; none.as_str(), "iiiio");
    let plain = outcome(alloc, one(alloc, register(alloc, "clk", Some(0), 1)))?;
    assert_eq!(rt; plain.as_str(), "cviio");
    let own = outcome(alloc, one(alloc, register(alloc, "clk", Some(0), 0)))?;
    assert_eq!(rt; own.as_str(), "6 ClockRead clk");
    let inner = outcome(alloc, one(alloc, register(alloc, "g", Some(5), 1)))?;
    assert_eq!(rt; inner.as_str(), "7 ClockNotPort g");
    let out = outcome(alloc, one(alloc, register(alloc, "y", Some(4), 1)))?;
    assert_eq!(rt; out.as_str(), "7 ClockNotPort y");
    let wide = outcome(alloc, one(alloc, register(alloc, "wide", Some(3), 1)))?;
    assert_eq!(rt; wide.as_str(), "7 ClockNotPort wide");
    let nothing = outcome(alloc, one(alloc, register(alloc, "P", None, 1)))?;
    assert_eq!(rt; nothing.as_str(), "7 ClockNotPort P");
    Ok(())
}

#[test]
fn clocks_that_expressions_read(rt: HostRuntime) -> Result<(), Fail> {
    let alloc = rt.alloc();
    let before = and(
        one(alloc, assign(alloc, 4, both(alloc, 1, 0, 3), 2)),
        register(alloc, "clk", Some(0), 1),
    );
    assert_eq!(rt; outcome(alloc, before)?.as_str(), "2 ClockRead clk");
    let position = and(
        one(alloc, assign(alloc, 4, picked(alloc, 3, 0, 3), 2)),
        register(alloc, "clk", Some(0), 1),
    );
    assert_eq!(rt; outcome(alloc, position)?.as_str(), "2 ClockRead clk");
    let target = statement(true, bit_of(alloc, 4, 0), Ok(read(1, 3)));
    let process = and(
        one(alloc, combinational(target, 2)),
        register(alloc, "clk", Some(0), 1),
    );
    assert_eq!(rt; outcome(alloc, process)?.as_str(), "2 ClockRead clk");
    // the first of two clocks in the text, and what is no port first, wherever it stands
    let two = and(
        and(
            one(alloc, assign(alloc, 4, both(alloc, 2, 0, 3), 2)),
            register(alloc, "clk", Some(0), 1),
        ),
        register(alloc, "e", Some(2), 1),
    );
    assert_eq!(rt; outcome(alloc, two)?.as_str(), "2 ClockRead e");
    let later = and(
        and(
            one(alloc, assign(alloc, 4, both(alloc, 1, 0, 3), 2)),
            register(alloc, "clk", Some(0), 1),
        ),
        register(alloc, "g", Some(5), 1),
    );
    assert_eq!(rt; outcome(alloc, later)?.as_str(), "7 ClockNotPort g");
    Ok(())
}

#[test]
fn clocks_through_instances(rt: HostRuntime) -> Result<(), Fail> {
    let alloc = rt.alloc();
    let through = outcome(alloc, one(alloc, child(alloc, 0, 1, 2)))?;
    assert_eq!(rt; through.as_str(), "cviio");
    // a clock may be joined to an idle port, and an idle input stays so
    let idle = outcome(alloc, one(alloc, child(alloc, 0, 1, 0)))?;
    assert_eq!(rt; idle.as_str(), "cviio");
    let read_by_data = outcome(alloc, one(alloc, child(alloc, 0, 0, 2)))?;
    assert_eq!(rt; read_by_data.as_str(), "9 ClockRead clk");
    let inner = outcome(alloc, one(alloc, child(alloc, 5, 1, 2)))?;
    assert_eq!(rt; inner.as_str(), "11 ClockNotPort g");
    let wide = outcome(alloc, one(alloc, child(alloc, 3, 1, 2)))?;
    assert_eq!(rt; wide.as_str(), "11 ClockNotPort wide");
    let two = outcome(
        alloc,
        and(one(alloc, child(alloc, 0, 1, 1)), child(alloc, 2, 1, 0)),
    )?;
    assert_eq!(rt; two.as_str(), "cvcio");
    Ok(())
}

const LEAF: [Declared; 3] = [
    ("clk", Role::Input, 1),
    ("d", Role::Input, 1),
    ("q", Role::Output, 1),
];

/// The face of a module with the variables of `LEAF`.
fn face_over(
    alloc: Global,
    drivers: Result<Sequence<Driver>, AllocError>,
    children: &Vec<Face>,
) -> Result<Face, Fail> {
    let spec = module(alloc, &LEAF, drivers)?;
    let face = classify(alloc, &spec, children).ok();
    Ok(face.ok_or("refused")?)
}

/// An instance of a module of this form, with the clock joined to the first port and the data to the second.
fn over(alloc: Global) -> Result<Driver, AllocError> {
    let inputs = and(one(alloc, joined(0, 0, 2)), joined(1, 1, 4));
    instance(alloc, inputs, one(alloc, output(2, whole(alloc, 2), 6)), 1)
}

#[test]
fn a_clock_goes_through_two_levels(rt: HostRuntime) -> Result<(), Fail> {
    let alloc = rt.alloc();
    let leaf = face_over(
        alloc,
        one(alloc, register(alloc, "clk", Some(0), 1)),
        &Vec::new(alloc),
    )?;
    let middle = face_over(
        alloc,
        one(alloc, over(alloc)),
        &Vec::from_array(alloc, [leaf])?,
    )?;
    let top = face_over(
        alloc,
        one(alloc, over(alloc)),
        &Vec::from_array(alloc, [middle])?,
    )?;
    assert_eq!(rt; letters(alloc, &top)?.as_str(), "cvo");
    Ok(())
}

#[test]
fn connections_that_are_expressions(rt: HostRuntime) -> Result<(), Fail> {
    let alloc = rt.alloc();
    let gated = one(alloc, driven(0, both(alloc, 0, 1, 10), 10));
    let clock = one(alloc, instance(alloc, gated, Ok(Sequence::new(alloc)), 9));
    assert_eq!(rt; outcome(alloc, clock)?.as_str(), "10 ClockNotPlain ck");
    // an expression is read where the port is idle too
    let negated = one(alloc, driven(3, both(alloc, 1, 2, 10), 10));
    let idle = one(alloc, instance(alloc, negated, Ok(Sequence::new(alloc)), 9));
    assert_eq!(rt; outcome(alloc, idle)?.as_str(), "ivvio");
    let of_clock = one(alloc, driven(3, both(alloc, 1, 0, 10), 10));
    let read_in_idle = and(
        one(
            alloc,
            instance(alloc, of_clock, Ok(Sequence::new(alloc)), 9),
        ),
        register(alloc, "clk", Some(0), 1),
    );
    assert_eq!(rt; outcome(alloc, read_in_idle)?.as_str(), "9 ClockRead clk");
    Ok(())
}
