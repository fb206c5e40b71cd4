//! What a reading says of its text.

ghost use Rattle.std.specs.Prelude.{◌≡◌, ℕ, List};
ghost use Rattle.pld_base.specs.declared.fault.SourceFault.{SourceFault};
ghost use Rattle.pld_ast.specs.declared.tree.Operator.{Operator};
ghost use Rattle.pld_source.specs.Reading.{reading, Faulty, Reads};
ghost use Rattle.pld_source.specs.Faults.{IsReadAs, HasFault};

/// A text is read as an operator exactly where it is a text of the grammar, of this operator, and no name is wrong
/// and no limit passed; and it has a fault exactly where its tokens, its syntax, or its names and limits have it.
pub fn texts_are_read_exactly()
    ensures read { (text : List ℕ) (op : Operator) → IsReadAs text op → reading text ≡ Reads op }
    ensures reads { (text : List ℕ) (op : Operator) → reading text ≡ Reads op → IsReadAs text op }
    ensures fault { (text : List ℕ) (fault : SourceFault) → HasFault text fault → reading text ≡ Faulty fault }
    ensures faults { (text : List ℕ) (fault : SourceFault) → reading text ≡ Faulty fault → HasFault text fault }
{}
