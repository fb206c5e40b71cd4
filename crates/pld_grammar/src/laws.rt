//! What holds of every text.

ghost use Rattle.std.specs.Prelude.{ℕ, ◌≡◌, ◌≤◌, List};
ghost use Rattle.pld_ast.specs.declared.tree.Operator.{Operator};
ghost use Rattle.pld_grammar.specs.Symbols.{Symbol};
ghost use Rattle.pld_grammar.specs.Grammar.{Syntax};
ghost use Rattle.pld_grammar.specs.Fault.{IsNarrow, Kind, IsFault};
ghost use Rattle.pld_grammar.specs.Machine.{verdict, start};
ghost use Rattle.pld_grammar.specs.Verdicts.{Says};

/// A list of tokens is the text of at most one operator.
pub fn one_operator()
    ensures { (ts : List Symbol) (a b : Operator) → Syntax ts a → Syntax ts b → a ≡ b }
{}

/// What a verdict says: fine is a text of the grammar within the limit, and else the fault is of its kind and
/// at its place.
pub fn verdicts_are_exact()
    ensures { (limit : ℕ) (ts : List Symbol) → 1 ≤ limit → Says limit ts (verdict limit ts 0 start) }
{}

/// A text of the grammar within the limit has no fault.
pub fn no_fault()
    ensures { (limit n : ℕ) (k : Kind) (ts : List Symbol) (op : Operator) → IsFault limit ts k n → Syntax ts op → IsNarrow limit 0 ts → ⊥ }
{}

/// A text has at most one fault, of one kind and at one place.
pub fn one_fault()
    ensures { (limit n m : ℕ) (k l : Kind) (ts : List Symbol) → IsFault limit ts k n → IsFault limit ts l m → (k ≡ l) × (n ≡ m) }
{}
