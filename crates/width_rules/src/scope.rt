//! The names that are visible where an expression stands.

use const_eval::Env;
use net_ir::Var;
use sv_base::Sequence;

/// The visible names, and the nets and variables that some of them stand for, by their numbers.
#[derive(Drop)]
pub struct Scope {
    pub names: Env,
    pub vars: Sequence<Var>,
}
