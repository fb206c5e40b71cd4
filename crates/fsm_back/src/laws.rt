//! What holds of the tables.

ghost use Rattle.pld_base.specs.Process.{WritesWords};
ghost use Rattle.pld_kahn.specs.Realises.{Realises};
ghost use Rattle.pld_ast.specs.Program.{Program};
ghost use Rattle.pld_ast.specs.Sound.{IsSound};
ghost use Rattle.pld_ast.specs.Meaning.{trace};
ghost use Rattle.fsm_core.specs.Process.{hard_process, NeverTraps};
ghost use Rattle.fsm_core.specs.Table.{IsTable};
ghost use Rattle.fsm_back.specs.Table.{gen_hard};

/// The table of a sound program does what the program means: no more, no less, it returns where that
/// returns and starves where that starves. It never traps, and it writes words.
pub fn tables_keep_the_meaning()
    ensures realises { (g : Program) → IsSound g → Realises (hard_process (gen_hard g)) (trace g) }
    ensures never_traps { (g : Program) → IsSound g → NeverTraps (gen_hard g) }
    ensures writes_words { (g : Program) → IsSound g → WritesWords (hard_process (gen_hard g)) }
{}

/// The table of a sound program is in range.
pub fn tables_are_in_range()
    ensures { (g : Program) → IsSound g → IsTable (gen_hard g) }
{}
