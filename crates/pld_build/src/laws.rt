//! What holds of images and of what their operators mean.

ghost use Rattle.std.specs.Prelude.{◌≡◌, ◌≤◌, List, length, map};
ghost use Rattle.std.specs.List.{All, AllByRecursion};
ghost use Rattle.pld_base.specs.Process.{IsProcess, WritesWords};
ghost use Rattle.pld_kahn.specs.Realises.{Realises};
ghost use Rattle.pld_ast.specs.Resolve.{program_of};
ghost use Rattle.pld_ast.specs.Sound.{IsSound};
ghost use Rattle.image_form.specs.Spelling.{IsForm};
ghost use Rattle.pld_image.specs.Ports.{ins_of, outs_of};
ghost use Rattle.pld_image.specs.Processes.{process_of};
ghost use Rattle.build_cache.specs.Pairs.{Pair};
ghost use Rattle.pld_draft.specs.declared.parts.Source.{Source};
ghost use Rattle.pld_build.specs.Images.{image_of, meaning_of, compiles};

use build_cache::misses_are_few;
use fsm_back::{tables_are_in_range, tables_keep_the_meaning};
use pld_ast::operators_are_processes;
use pld_draft::Source;
use rv_back::words_keep_the_meaning;

/// The image of a sound operator does what the operator means, whichever kind of page it is compiled for: no more, no less, it
/// returns where that returns and starves where that starves. It writes words.
pub fn images_keep_the_meaning()
    ensures realises { (s : Source) → IsSound (program_of s.operator) → Realises (process_of (image_of s)) (meaning_of s) }
    ensures writes_words { (s : Source) → IsSound (program_of s.operator) → WritesWords (process_of (image_of s)) }
{
    words_keep_the_meaning();
    tables_keep_the_meaning();
}

/// The image of a sound operator is one in range, with the operator's counts of ports.
pub fn images_are_forms()
    ensures in_range { (s : Source) → IsSound (program_of s.operator) → IsForm (image_of s) }
    ensures ins { (s : Source) → ins_of (image_of s) ≡ (program_of s.operator).ins }
    ensures outs { (s : Source) → outs_of (image_of s) ≡ (program_of s.operator).outs }
{
    words_keep_the_meaning();
    tables_are_in_range();
}

/// What sources mean are processes with blocking reads (Kahn 1974), of sound operators.
pub fn sources_are_processes(sources: &[Source])
    ensures processes { AllByRecursion IsProcess (map meaning_of sources.now) }
    ensures sound { All (λ s. IsSound (program_of s.operator)) sources.now }
{
    match sources {
        [] => {}
        [first, rest @ ..] => {
            operators_are_processes(first.operator.operator());
            sources_are_processes(rest);
        }
    }
}

/// No more pairs are compiled than there are sources.
pub fn pairs_are_few()
    ensures { (kept : List Pair) (sources : List Source) → compiles kept sources ≤ length sources }
{
    misses_are_few();
}
