//! Runs the image on standard input to its end, turn by turn, and writes the last word that it wrote. It is there to be measured.
#![tactic(auto)]

use pld_base::{NoMemory, Permits};
use pld_image::{Image, PageCore, TurnEnd, read_image};
use std::alloc::Global;
use std::io;
use std::io::Read;

// The last word that a core writes. Each write is done at once; at a read the core is left.
fn last_word(core: &mut PageCore) -> u32 {
    let mut last = 0;
    for _ in 0..u64::MAX {
        match core.turn() {
            TurnEnd::AtWrite(_, word) => {
                last = word;
                core.resume_write();
            }
            TurnEnd::Limit => {}
            _ => return last,
        }
    }
    last
}

// The last word that an image writes. Bytes that are no image write none.
fn run(alloc: Global, bytes: &[u8]) -> Result<Option<u32>, NoMemory> {
    let Some(permit) = Permits::new().issue(alloc, 1)?.pop() else {
        return Ok(None);
    };
    let Ok(form) = read_image(alloc, bytes) else {
        return Ok(None);
    };
    let mut core = PageCore::load(alloc, &Image::of(permit, form))?;
    Ok(Some(last_word(&mut core)))
}

fn main(rt: HostRuntime) -> io::Result<()> {
    let mut bytes = Vec::new(rt.alloc());
    rt.reader().read_to_end(&mut bytes)?;
    match run(rt.alloc(), &bytes) {
        Ok(Some(word)) => println!(rt; "{word}"),
        _ => println!(rt; "no image"),
    }
}
