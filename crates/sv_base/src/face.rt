use crate::name::Name;
use crate::sequence::Sequence;

/// What a port is for. An input is a clock where a register's event control leads to it, idle where nothing
/// reads it, and else a value.
#[derive(Clone, Copy, Debug, PartialEq, Eq)]
pub enum Class {
    Value,
    Clock,
    Idle,
    Output,
}

/// A port of a module: its width in bits, from 1 on, and whether its declaration says `signed`.
#[derive(Debug, Drop)]
pub struct Port {
    pub name: Name,
    pub class: Class,
    pub signed: bool,
    pub width: u32,
}

/// What the outside sees of a module: its name, and its ports in the order of the header.
#[derive(Debug, Drop)]
pub struct Face {
    pub name: Name,
    pub ports: Sequence<Port>,
}

/// On which data inputs each output depends combinationally: a row for each output in port order, with rising
/// positions among the data inputs, counted from 0.
#[derive(Debug, Drop)]
pub struct Summary {
    pub rows: Sequence<Sequence<u32>>,
}

/// What a wrapper text says of a sealed module: its face, its summary, and the SHA-256 of its library.
#[derive(Debug, Drop)]
pub struct WrapperFace {
    pub face: Face,
    pub summary: Summary,
    pub digest: [u8; 32],
}
