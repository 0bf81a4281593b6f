use crate::statement::{Stmt, Target};
use crate::term::Term;
use bit_ops::Bits;
use sv_base::{Name, Place, Sequence, WrapperFace};

/// What a variable is to the outside: a port, or one that only the module itself sees.
#[derive(Clone, Copy, Debug, PartialEq, Eq)]
pub enum Role {
    Input,
    Output,
    Inner,
}

/// A net or a variable: its width in bits and its lowest position, whether its declaration has a range, says
/// `signed` or is a `wire`, and the value that it has where nothing drives it.
#[derive(Debug, Drop)]
pub struct Var {
    pub name: Name,
    pub place: Place,
    pub role: Role,
    pub width: u32,
    pub low: u32,
    pub ranged: bool,
    pub signed: bool,
    pub wire: bool,
    pub init: Bits,
}

/// An event control (IEEE 1800-2017, 9.4.2): a rising edge of the variable that the name means, or a falling one.
#[derive(Debug, Drop)]
pub struct Trigger {
    pub name: Name,
    pub var: Option<u32>,
    pub falling: bool,
    pub place: Place,
}

/// A module as an instance names it: a specialisation by its number, or a wrapper by its number.
#[derive(Clone, Copy, Debug, PartialEq, Eq)]
pub enum Made {
    Spec(u32),
    Wrapper(u32),
}

/// A connection to an input port of a child (23.3.2): an assignment to the whole port. `plain` is the variable of a connection that is a
/// plain name. The place is that of the port's name, or of the instance's name where the connection stands by order.
#[derive(Drop)]
pub struct Input {
    pub port: u32,
    pub plain: Option<u32>,
    pub value: Term,
    pub place: Place,
}

/// A connection to an output port of a child: an assignment from the whole port. Without a target it is joined to what is none.
#[derive(Drop)]
pub struct Output {
    pub port: u32,
    pub target: Option<Target>,
    pub place: Place,
}

/// An instance of a module, with its connections in the order of the text; an output that is not joined has none.
#[derive(Drop)]
pub struct Instance {
    pub name: Name,
    pub place: Place,
    pub child: Made,
    pub inputs: Sequence<Input>,
    pub outputs: Sequence<Output>,
}

/// What gives nets and variables their values.
#[derive(Drop)]
pub enum Driver {
    /// A continuous assignment (IEEE 1800-2017, 10.3).
    Assign {
        target: Target,
        value: Term,
        place: Place,
    },
    /// A combinational process (9.2.2.2).
    Comb {
        body: Stmt,
        place: Place,
    },
    /// A clocked process (9.2.2.4): at an edge of a trigger it gives its registers their next values.
    Clocked {
        triggers: Sequence<Trigger>,
        body: Stmt,
        place: Place,
    },
    /// An instance of another module.
    Instance(Instance),
}

/// A parameter and the value that it has.
#[derive(Debug, Drop)]
pub struct Given {
    pub name: Name,
    pub value: Bits,
    pub signed: bool,
}

/// A module with a value for each parameter and every name bound to its declaration. The ports are the first variables, in the order of the
/// header, and the drivers stand in the order of the module's items.
#[derive(Drop)]
pub struct Spec {
    pub module: Name,
    pub place: Place,
    pub params: Sequence<Given>,
    pub vars: Sequence<Var>,
    pub drivers: Sequence<Driver>,
}

/// The specialisations of a design in the order of the first visit, their numbers in the order of completion, which is after those of
/// their children, and the wrappers that were handed in.
#[derive(Drop)]
pub struct Specs {
    pub all: Sequence<Spec>,
    pub done: Sequence<u32>,
    pub wrappers: Sequence<WrapperFace>,
}
