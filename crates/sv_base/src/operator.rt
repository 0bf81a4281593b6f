//! The operators and functions of expressions, by their spellings, with the levels and groupings of those
//! between operands (IEEE 1800-2017, 11.3). The tree of a source keeps the spelling; whatever has to know
//! what it means asks here.

ghost use Rattle.std.specs.Prelude.{◌≡◌, ◌≤◌};
ghost use Rattle.sv_base.specs.Operators as spec;
ghost use Rattle.sv_base.specs.declared.operator.TheConstants.{TIGHTEST};

/// An operator before its operand (11.4.3, 11.4.7 to 11.4.9).
#[derive(Clone, Copy, Debug, PartialEq, Eq)]
pub enum Unary {
    /// `+`
    Plus,
    /// `-`
    Minus,
    /// `!`
    LogicalNot,
    /// `~`
    Not,
    /// `&`
    ReduceAnd,
    /// `~&`
    ReduceNand,
    /// `|`
    ReduceOr,
    /// `~|`
    ReduceNor,
    /// `^`
    ReduceXor,
    /// `~^` or `^~`
    ReduceXnor,
}

impl Unary {
    /// The operator that is spelled so.
    #[tactic(auto, unfolding(crate::specs::Operators::unary_of))]
    pub fn of(text: &[u8]) -> Option<Unary>
        ensures { result ≡ spec.unary_of text.now }
    {
        Some(match text {
            b"+" => Unary::Plus,
            b"-" => Unary::Minus,
            b"!" => Unary::LogicalNot,
            b"~" => Unary::Not,
            b"&" => Unary::ReduceAnd,
            b"~&" => Unary::ReduceNand,
            b"|" => Unary::ReduceOr,
            b"~|" => Unary::ReduceNor,
            b"^" => Unary::ReduceXor,
            b"~^" | b"^~" => Unary::ReduceXnor,
            _ => return None,
        })
    }
}

/// An operator between two operands (11.4.3 to 11.4.8, 11.4.10).
#[derive(Clone, Copy, Debug, PartialEq, Eq)]
pub enum Binary {
    /// `**`
    Power,
    /// `*`
    Multiply,
    /// `/`
    Divide,
    /// `%`
    Remainder,
    /// `+`
    Add,
    /// `-`
    Subtract,
    /// `<<`, or `<<<`, which is the same
    ShiftLeft,
    /// `>>`
    ShiftRight,
    /// `>>>`
    ArithmeticShiftRight,
    /// `<`
    Less,
    /// `<=`
    AtMost,
    /// `>`
    Greater,
    /// `>=`
    AtLeast,
    /// `==`
    Equal,
    /// `!=`
    Unequal,
    /// `&`
    And,
    /// `^`
    Xor,
    /// `~^` or `^~`
    Xnor,
    /// `|`
    Or,
    /// `&&`
    LogicalAnd,
    /// `||`
    LogicalOr,
}

/// How tightly operators between operands bind (table 11-2), the loosest first: `? :` binds looser than all
/// of them, a sign before an operand tighter. So a level in between is one more variant in its place.
#[derive(Clone, Copy, Debug, PartialEq, Eq)]
pub enum Level {
    LogicalOr,
    LogicalAnd,
    Or,
    Xor,
    And,
    Equality,
    Comparison,
    Shift,
    Sum,
    Product,
    Power,
}

/// How operators of one level beside each other are grouped (11.3.2).
#[derive(Clone, Copy, Debug, PartialEq, Eq)]
pub enum Grouping {
    /// `a - b - c` is `(a - b) - c`.
    ToTheLeft,
    /// `a -> b -> c` is `a -> (b -> c)`.
    ToTheRight,
}

/// How tightly the tightest level binds.
pub const TIGHTEST: u8 = Level::Power as u8 + 1;

impl Level {
    /// How tightly the level binds, from 1, which is the loosest.
    pub fn tightness(self) -> u8
        ensures value { result ≡ spec.tightness self }
        ensures least { 1 ≤ result }
        ensures greatest { result ≤ TIGHTEST }
    {
        self as u8 + 1
    }

    /// How operators of the level are grouped.
    pub fn grouping(self) -> Grouping
        ensures { result ≡ spec.grouping_of self }
    {
        match self {
            Level::LogicalOr
            | Level::LogicalAnd
            | Level::Or
            | Level::Xor
            | Level::And
            | Level::Equality
            | Level::Comparison
            | Level::Shift
            | Level::Sum
            | Level::Product
            | Level::Power => Grouping::ToTheLeft,
        }
    }
}

impl Binary {
    /// The operator that is spelled so.
    #[tactic(auto, unfolding(crate::specs::Operators::binary_of))]
    pub fn of(text: &[u8]) -> Option<Binary>
        ensures { result ≡ spec.binary_of text.now }
    {
        Some(match text {
            b"**" => Binary::Power,
            b"*" => Binary::Multiply,
            b"/" => Binary::Divide,
            b"%" => Binary::Remainder,
            b"+" => Binary::Add,
            b"-" => Binary::Subtract,
            b"<<" | b"<<<" => Binary::ShiftLeft,
            b">>" => Binary::ShiftRight,
            b">>>" => Binary::ArithmeticShiftRight,
            b"<" => Binary::Less,
            b"<=" => Binary::AtMost,
            b">" => Binary::Greater,
            b">=" => Binary::AtLeast,
            b"==" => Binary::Equal,
            b"!=" => Binary::Unequal,
            b"&" => Binary::And,
            b"^" => Binary::Xor,
            b"~^" | b"^~" => Binary::Xnor,
            b"|" => Binary::Or,
            b"&&" => Binary::LogicalAnd,
            b"||" => Binary::LogicalOr,
            _ => return None,
        })
    }

    pub fn level(self) -> Level
        ensures { result ≡ spec.level_of self }
    {
        match self {
            Binary::Power => Level::Power,
            Binary::Multiply | Binary::Divide | Binary::Remainder => Level::Product,
            Binary::Add | Binary::Subtract => Level::Sum,
            Binary::ShiftLeft | Binary::ShiftRight | Binary::ArithmeticShiftRight => Level::Shift,
            Binary::Less | Binary::AtMost | Binary::Greater | Binary::AtLeast => Level::Comparison,
            Binary::Equal | Binary::Unequal => Level::Equality,
            Binary::And => Level::And,
            Binary::Xor | Binary::Xnor => Level::Xor,
            Binary::Or => Level::Or,
            Binary::LogicalAnd => Level::LogicalAnd,
            Binary::LogicalOr => Level::LogicalOr,
        }
    }
}

/// Whether a text is an operator of the standard outside the subset (11.4.5).
#[tactic(auto, unfolding(crate::specs::Operators::is_refused_operator))]
pub fn is_refused_operator(text: &[u8]) -> bool
    ensures { result ≡ spec.is_refused_operator text.now }
{
    matches!(text, b"===" | b"!==")
}

/// A system function of expressions (11.7, 20.8.1).
#[derive(Clone, Copy, Debug, PartialEq, Eq)]
pub enum Function {
    /// `$signed`
    Signed,
    /// `$unsigned`
    Unsigned,
    /// `$clog2`
    Logarithm,
}

impl Function {
    /// The function of this name, its `$` included.
    #[tactic(auto, unfolding(crate::specs::Operators::function_of))]
    pub fn of(name: &[u8]) -> Option<Function>
        ensures { result ≡ spec.function_of name.now }
    {
        if name == b"$signed".as_slice() {
            Some(Function::Signed)
        } else if name == b"$unsigned".as_slice() {
            Some(Function::Unsigned)
        } else if name == b"$clog2".as_slice() {
            Some(Function::Logarithm)
        } else {
            None
        }
    }
}
