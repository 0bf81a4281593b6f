//! Why an expression has no sized term.

/// Why no term is made of an expression. Refused is TooWide, UnknownName, NotConstant or BadRange, with the name
/// or sign and its place; BadNumber or Unexpected for a text that no source has there.
pub type WidthFault = sv_base::Fault;
