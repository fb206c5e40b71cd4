//! What holds of the templates' code.

ghost use Rattle.std.specs.Prelude.{map};
ghost use Rattle.std.specs.List.{AllByRecursion};
ghost use Rattle.pld_base.specs.Process.{WritesWords};
ghost use Rattle.pld_kahn.specs.Realises.{Realises};
ghost use Rattle.pld_ast.specs.Program.{Program};
ghost use Rattle.pld_ast.specs.Sound.{IsSound};
ghost use Rattle.pld_ast.specs.Meaning.{trace};
ghost use Rattle.rv_isa.specs.Spelling.{spelling, IsInstr};
ghost use Rattle.rv_core.specs.Code.{word_process};
ghost use Rattle.rv_core.specs.Process.{soft_process, NeverTraps};
ghost use Rattle.image_form.specs.Spelling.{Soft, IsForm};
ghost use Rattle.pld_image.specs.Traps.{WordsNeverTrap};
ghost use Rattle.rv_back.specs.Code.{soft_code};

/// The code of a sound program does what the program means: no more, no less, it returns where that
/// returns and starves where that starves. It never traps, and it writes words.
pub fn code_keeps_the_meaning()
    ensures realises { (g : Program) → IsSound g → Realises (soft_process (soft_code g) g.ins g.outs) (trace g) }
    ensures never_traps { (g : Program) → IsSound g → NeverTraps (soft_code g) g.ins g.outs }
    ensures writes_words { (g : Program) → IsSound g → WritesWords (soft_process (soft_code g) g.ins g.outs) }
{}

/// The code of a sound program consists of instructions, and its words do what the program means: no more,
/// no less, they return where that returns and starve where that starves. They never trap, they write words,
/// and with the program's ports they are an image in range.
pub fn words_keep_the_meaning()
    ensures instructions { (g : Program) → IsSound g → AllByRecursion IsInstr (soft_code g) }
    ensures in_range { (g : Program) → IsSound g → IsForm (Soft g.ins g.outs (map spelling (soft_code g))) }
    ensures realises { (g : Program) → IsSound g → Realises (word_process (map spelling (soft_code g)) g.ins g.outs) (trace g) }
    ensures never_traps { (g : Program) → IsSound g → WordsNeverTrap (map spelling (soft_code g)) g.ins g.outs }
    ensures writes_words { (g : Program) → IsSound g → WritesWords (word_process (map spelling (soft_code g)) g.ins g.outs) }
{}
