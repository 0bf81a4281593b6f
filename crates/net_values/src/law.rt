//! Laws of writes, each the contract of a function that does nothing.

ghost use Rattle.std.specs.Prelude.{◌≡◌, ◌<◌, ◌++◌, ℕ, true, List, length, Some, slice_index};
ghost use Rattle.std.specs.Int.{bit_at};
ghost use Rattle.net_ir.specs.declared.design.Var.{Var};
ghost use Rattle.net_ir.specs.declared.term.Term.{Term};
ghost use Rattle.net_ir.specs.declared.statement.Target.{Target};
ghost use Rattle.net_ir.specs.declared.statement.Stmt.{Stmt};
ghost use Rattle.net_ir.specs.Value.{AreWordsOf, widths_of, val, reads_of};
ghost use Rattle.net_ir.specs.Target.{Write, writes_to, last_bit, overlaid, may_write, target_vars, target_reads};
ghost use Rattle.net_ir.specs.Statement.{bit_after, clocked_writes, effect, targets_of, statement_reads};
ghost use Rattle.net_ir.specs.Drive.{any_may_write};
ghost use Rattle.net_ir.specs.Face.{stands_in};
ghost use Rattle.net_values.specs.Positions.{HasFixedPositions};
ghost use Rattle.net_values.specs.Writes.{AreWithin, AgreeOn};

/// The value of a term depends on the variables that it reads alone.
pub fn terms_by_reads()
    ensures { (ws u v : List ℕ) (t : Term) → AgreeOn (reads_of t) u v → val ws u t ≡ val ws v t }
{}

/// After writes that are within the widths, there are as many words as before, each of its width, and each bit is as its last write gives
/// it, else as it was.
pub fn words_after_writes()
    ensures length { (u : List ℕ) (writes : List Write) → length (overlaid u writes) ≡ length u }
    ensures fits { (ws u : List ℕ) (writes : List Write) → length u ≡ length ws → AreWithin ws writes → AreWordsOf ws u → AreWordsOf ws (overlaid u writes) }
    ensures bits { (ws u : List ℕ) (writes : List Write) (x k : ℕ) → length u ≡ length ws → AreWithin ws writes → x < length u →
        bit_at (slice_index (overlaid u writes) x) k ≡ bit_after writes x k (bit_at (slice_index u x) k) }
    ensures joined { (u : List ℕ) (first second : List Write) → overlaid u (first ++ second) ≡ overlaid (overlaid u first) second }
{}

/// The writes of an assignment to a target are within the widths of the variables, write only what the target may write, and depend on
/// what its positions read alone; a target with constant positions writes each bit that it may write.
pub fn writes_of_targets()
    ensures within { (vars : List Var) (u : List ℕ) (target : Target) (word : ℕ) → AreWithin (widths_of vars) (writes_to vars u target word) }
    ensures may { (vars : List Var) (u : List ℕ) (target : Target) (word x k bit : ℕ) →
        last_bit (writes_to vars u target word) x k ≡ Some bit → may_write vars target x k ≡ true }
    ensures named { (vars : List Var) (target : Target) (x k : ℕ) → may_write vars target x k ≡ true → stands_in x (target_vars target) ≡ true }
    ensures fixed { (vars : List Var) (u : List ℕ) (target : Target) (word x k : ℕ) → HasFixedPositions target →
        may_write vars target x k ≡ true → (bit : ℕ) × (last_bit (writes_to vars u target word) x k ≡ Some bit) }
    ensures reads { (vars : List Var) (u v : List ℕ) (target : Target) (word : ℕ) → AgreeOn (target_reads target) u v →
        writes_to vars u target word ≡ writes_to vars v target word }
    ensures constant { (vars : List Var) (u v : List ℕ) (target : Target) (word : ℕ) → HasFixedPositions target →
        writes_to vars u target word ≡ writes_to vars v target word }
{}

/// The writes of a clocked process stand behind those before it, are within the widths of the variables, write only what its targets may
/// write, and depend on what its expressions read alone.
pub fn clocked_statements()
    ensures behind { (vars : List Var) (u : List ℕ) (body : Stmt) (writes : List Write) →
        effect vars (λ _. u) body writes ≡ writes ++ clocked_writes vars u body }
    ensures within { (vars : List Var) (u : List ℕ) (body : Stmt) → AreWithin (widths_of vars) (clocked_writes vars u body) }
    ensures may { (vars : List Var) (u : List ℕ) (body : Stmt) (x k bit : ℕ) →
        last_bit (clocked_writes vars u body) x k ≡ Some bit → any_may_write vars (targets_of body) x k ≡ true }
    ensures reads { (vars : List Var) (u v : List ℕ) (body : Stmt) → AgreeOn (statement_reads body) u v →
        clocked_writes vars u body ≡ clocked_writes vars v body }
{}
