//! The words that an operator writes, by its meaning and on a page.

use fsm_back::compile_hard;
use pld_base::{Event, Kind, NoMemory, Permits};
use pld_check::Checked;
use pld_image::{Image, PageCore, TurnEnd};
use pld_mean::run_c;
use rv_back::compile_soft;
use std::alloc::Global;

// The words of a run's writes.
fn written(alloc: Global, events: &[Event]) -> Result<Vec<u32>, NoMemory> {
    let mut words = Vec::new(alloc);
    for event in events {
        if let Event::Write(_, word) = event {
            words.push(*word)?;
        }
    }
    Ok(words)
}

/// The words that the plain meaning writes: none where the operator has no in-port, or more than one.
pub fn meant(alloc: Global, op: &Checked, feed: &[u32]) -> Result<Vec<u32>, NoMemory> {
    let mut ins = Vec::new(alloc);
    ins.push(feed.to_vec(alloc)?)?;
    if op.ins() as usize != ins.len() {
        return Ok(Vec::new(alloc));
    }
    let run = run_c(alloc, op, &ins, 100)?;
    written(alloc, run.events.as_slice())
}

/// The image for a page of this kind, if there is a permit.
pub fn compiled(alloc: Global, kind: Kind, op: &Checked) -> Result<Option<Image>, NoMemory> {
    let Some(permit) = Permits::new().issue(alloc, 1)?.pop() else {
        return Ok(None);
    };
    match kind {
        Kind::Soft => Ok(Some(compile_soft(alloc, permit, op)?)),
        Kind::Hard => Ok(Some(compile_hard(alloc, permit, op)?)),
    }
}

/// The words that a page with this image writes in 1000 turns, up to its end or to a read of more than the feed.
pub fn made(alloc: Global, image: &Image, feed: &[u32]) -> Result<Vec<u32>, NoMemory> {
    let mut core = PageCore::load(alloc, image)?;
    let mut words = Vec::new(alloc);
    let mut read = 0usize;
    for _ in 0..1000 {
        match core.turn() {
            TurnEnd::AtRead(_) => {
                if read >= feed.len() {
                    return Ok(words);
                }
                core.resume_read(feed[read]);
                read += 1;
            }
            TurnEnd::AtWrite(_, word) => {
                words.push(word)?;
                core.resume_write();
            }
            TurnEnd::Ended => return Ok(words),
            TurnEnd::Limit => {}
        }
    }
    words.clear();
    Ok(words)
}
