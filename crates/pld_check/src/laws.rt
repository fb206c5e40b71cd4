//! Laws of the first fault.

ghost use Rattle.std.specs.Prelude.{◌≡◌, List, [], Some, None};
ghost use Rattle.pld_base.specs.declared.fault.SourceFault.{SourceFault};
ghost use Rattle.pld_ast.specs.declared.tree.Operator.{Operator};
ghost use Rattle.pld_check.specs.Uses.{Mention, declarations};
ghost use Rattle.pld_check.specs.Faults.{least, wrong_names, misused_in};
ghost use Rattle.pld_check.specs.Firsts.{IsFirst, IsDeclared};

/// The least wrong name of an operator is one of its wrong names, and none stands before it; there is none exactly where no name
/// is wrong. A use that isn't wrong is of a name that is declared no later, as what it is used as.
pub fn first_wrong_names()
    ensures first { (op : Operator) (f : SourceFault) → least (wrong_names op) ≡ Some f → IsFirst f (wrong_names op) }
    ensures none { (op : Operator) → least (wrong_names op) ≡ None → wrong_names op ≡ [] }
    ensures declared { (op : Operator) (m : Mention) → misused_in (declarations op) m ≡ None → IsDeclared (declarations op) m }
{}
