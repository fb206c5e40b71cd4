//! The words of inputs.

ghost use Rattle.std.specs.Prelude.{◌≡◌, ◌<◌, ◌++◌, [], length, IfSome, MatchResult};
ghost use Rattle.pld_draft.specs.Draft.{words_of};
ghost use Rattle.pld_draft.specs.Edits.{standing, place_from, with_words};

use crate::parts::Feed;
use pld_base::{Name, NoMemory};
use pld_graph::Graph;
use pld_script::WordList;

/// The words of an input; none where there is no such input.
pub fn words_in<'a>(feeds: &'a [Feed], name: &Name) -> &'a [u32]
    ensures { result.now ≡ words_of name.now feeds.now }
{
    match feeds {
        [] => &[],
        [first, rest @ ..] => {
            if first.name.is_same(name) {
                first.words.as_slice()
            } else {
                words_in(rest, name)
            }
        }
    }
}

/// Drops the words of inputs that the design doesn't have.
pub fn drop_lost(feeds: &mut Vec<Feed>, graph: &Graph)
    ensures { feeds.new.items ≡ standing graph.now feeds.old.items }
{
    feeds.retain(|feed| graph.is_input(&feed.name));
}

// The place of an input's feed.
fn place_in(feeds: &[Feed], name: &Name) -> Option<usize>
    ensures place { result ≡ place_from 0 name.now feeds.now }
    ensures within { IfSome result (λ k. k < length feeds.now) }
{
    for (k, feed) in feeds.iter().enumerate() {
        if feed.name.is_same(name) {
            return Some(k);
        }
    }
    None
}

/// Appends words to those of an input.
pub fn append(feeds: &mut Vec<Feed>, name: &Name, words: &WordList) -> Result<(), NoMemory>
    ensures { MatchResult result (λ _d. feeds.new.items ≡ with_words name.now (λ old. old ++ words.now) feeds.old.items) (λ _e. feeds.new.items ≡ feeds.old.items) }
{
    let Some(k) = place_in(feeds.as_slice(), name) else {
        return Ok(());
    };
    feeds[k].words.append(words)
}

/// Takes an input's words away.
pub fn empty(feeds: &mut Vec<Feed>, name: &Name)
    ensures { feeds.new.items ≡ with_words name.now (λ _old. []) feeds.old.items }
{
    if let Some(k) = place_in(feeds.as_slice(), name) {
        feeds[k].words.clear();
    }
}
