ghost use Rattle.std.specs.Prelude.{◌≡◌};
ghost use Rattle.sv_base.specs.Kind.{text_of};

/// Why a source, library or wrapper is refused.
#[derive(Clone, Copy, Debug, PartialEq, Eq)]
pub enum Kind {
    /// A byte that begins no token.
    BadCharacter,
    /// A number whose digits, size or value the language does not allow.
    BadNumber,
    /// A `/*` without its `*/`.
    OpenComment,
    /// A token after which no text of the grammar goes on.
    Unexpected,
    /// Such a token that is a word or sign of the standard outside the subset.
    Unsupported,
    /// A name declared twice in one scope.
    DuplicateName,
    /// A name that is not visible at its use.
    UnknownName,
    /// A net or variable where a constant is needed.
    NotConstant,
    /// A range, width, count or exponent outside what its place allows.
    BadRange,
    /// A name, number or expression above the greatest width.
    TooWide,
    /// A specialisation inside itself.
    Recursive,
    /// A connection to no port.
    PortUnknown,
    /// A port or parameter connected twice.
    PortTwice,
    /// An input without a connection.
    InputOpen,
    /// A driver of the module's own input.
    InputDriven,
    /// A bit with two drivers.
    TwoDrivers,
    /// A combinational process that leaves a bit unassigned on some path.
    Latch,
    /// A combinational process that reads its own bit before it is assigned.
    ReadFirst,
    /// An assignment of the wrong kind, or to what is no target.
    WrongAssign,
    /// A clock that an expression or a data port reads.
    ClockRead,
    /// An event control or clock connection that names no one-bit input port.
    ClockNotPort,
    /// A clock port joined to more than a plain name.
    ClockNotPlain,
    /// A net that depends on itself combinationally.
    Cycle,
    /// A limit that is passed; the name is what was counted.
    TooMany,
    /// A file that is no wrapper text.
    BadWrapper,
    /// A library or wrapper above its limit of bytes.
    TooLong,
    /// A file that is not there.
    Absent,
}

impl Kind {
    /// The word that a message prints.
    pub fn text(self) -> &'static str
        ensures { result.now ≡ text_of self }
    {
        match self {
            Kind::BadCharacter => "BadCharacter",
            Kind::BadNumber => "BadNumber",
            Kind::OpenComment => "OpenComment",
            Kind::Unexpected => "Unexpected",
            Kind::Unsupported => "Unsupported",
            Kind::DuplicateName => "DuplicateName",
            Kind::UnknownName => "UnknownName",
            Kind::NotConstant => "NotConstant",
            Kind::BadRange => "BadRange",
            Kind::TooWide => "TooWide",
            Kind::Recursive => "Recursive",
            Kind::PortUnknown => "PortUnknown",
            Kind::PortTwice => "PortTwice",
            Kind::InputOpen => "InputOpen",
            Kind::InputDriven => "InputDriven",
            Kind::TwoDrivers => "TwoDrivers",
            Kind::Latch => "Latch",
            Kind::ReadFirst => "ReadFirst",
            Kind::WrongAssign => "WrongAssign",
            Kind::ClockRead => "ClockRead",
            Kind::ClockNotPort => "ClockNotPort",
            Kind::ClockNotPlain => "ClockNotPlain",
            Kind::Cycle => "Cycle",
            Kind::TooMany => "TooMany",
            Kind::BadWrapper => "BadWrapper",
            Kind::TooLong => "TooLong",
            Kind::Absent => "Absent",
        }
    }
}
