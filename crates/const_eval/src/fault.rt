//! Why an expression has no constant value.

/// Why no constant is made of an expression. Refused is NotConstant, UnknownName, TooWide or BadRange, with the
/// name or sign and its place; BadNumber or Unexpected for a text that no source has there.
pub type ConstFault = sv_base::Fault;
