//! Laws of an operator's meaning.

ghost use Rattle.pld_base.specs.Words.{IsWord};
ghost use Rattle.pld_base.specs.Process.{IsProcess, WritesWords};
ghost use Rattle.pld_ast.specs.Program.{Value, Program};
ghost use Rattle.pld_ast.specs.Meaning.{State, value_of, trace};
ghost use Rattle.pld_ast.specs.Resolve.{program_of};
ghost use Rattle.pld_ast.specs.Sound.{IsKnownValue, IsSound};
ghost use Rattle.pld_ast.specs.AreWords.{StateWords};

use crate::Operator;

/// An operator is a process with blocking reads (Kahn 1974): more turns and more words extend its
/// traces, and it reads the first words of each in-port.
pub fn operators_are_processes(op: &Operator)
    ensures { IsProcess (trace (program_of op.now)) }
{
    let _ = op;
}

/// Each value of a sound program is a word where its variables are words; and where it reads words, it writes words.
pub fn words_stay_words()
    ensures value { (g : Program) (e : Value) (st : State) → IsKnownValue g e → StateWords st → IsWord (value_of g.lengths e st) }
    ensures written { (g : Program) → IsSound g → WritesWords (trace g) }
{}
