//! Laws of units and of the trees below them. Each is the contract of a function with an empty body: a caller has the law
//! by a call, which does nothing.

ghost use Rattle.std.specs.Prelude.{◌≡◌, ℕ, ◌<◌, length};
ghost use Rattle.code_isa.specs.Tree.{Tree, IsLinked};
ghost use Rattle.linked_units.specs.Figures.{depth_of, product_of};
ghost use Rattle.linked_units.specs.Paths.{IsGreatest, depth_on, product_on};
ghost use Rattle.linked_units.specs.Units.{Units, AreJoined, AreChecked, IsTreeOf};

/// There is a tree of models below each unit.
pub fn tree_of_each_unit()
    ensures { (units : Units) → AreJoined units → (n : ℕ) → n < length units → (t : Tree) × IsTreeOf t units n }
{}

/// No two trees of models stand below one unit.
pub fn one_tree()
    ensures { (units : Units) (t s : Tree) (n : ℕ) → IsTreeOf t units n → IsTreeOf s units n → t ≡ s }
{}

/// The tree below a unit of checked units is linked.
pub fn trees_are_linked()
    ensures { (units : Units) (t : Tree) (n : ℕ) → AreJoined units → AreChecked units → IsTreeOf t units n → IsLinked t }
{}

/// The depth of a tree is the greatest number of models that stand below the first one of a nesting path.
pub fn depth_by_paths()
    ensures { (t : Tree) → IsGreatest depth_on t (depth_of t) }
{}

/// The product of a tree is the greatest product of a nesting path.
pub fn product_by_paths()
    ensures { (t : Tree) → IsGreatest product_on t (product_of t) }
{}
