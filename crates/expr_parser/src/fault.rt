use sv_base::Fault;

/// Why no expression is read: what is refused, or that memory ran out.
pub type ParseFault = Fault;
