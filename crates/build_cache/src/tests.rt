//! Four pairs, of which one repeats: which are missed, and what is found.

use crate::{Cache, Key};
use pld_base::{Kind, Permits};
use pld_image::{Image, image_bytes, read_image};
use pld_script::Text;
use std::alloc::Global;
use std::test::Fail;

const ONE: &[u8] = b"void f(out b) { write(b, 1); }\n";

const TWO: &[u8] = b"void f(out b) { write(b, 2); }\n";

// Images of one instruction: `jal x0, 0`, and `ebreak`.
const FOR_EVER: &[u8] = b"PLDIS\0\0\0\x01\0\0\0\x6f\0\0\0";

const ENDS: &[u8] = b"PLDIS\0\0\0\x01\0\0\0\x73\0\x10\0";

// The third is as the first.
const KEYS: [Key<'static>; 4] = [
    Key {
        kind: Kind::Soft,
        text: ONE,
    },
    Key {
        kind: Kind::Hard,
        text: ONE,
    },
    Key {
        kind: Kind::Soft,
        text: ONE,
    },
    Key {
        kind: Kind::Soft,
        text: TWO,
    },
];

fn image(alloc: Global, bytes: &[u8]) -> Result<Image, Fail> {
    let permit = Permits::new().issue(alloc, 1)?.pop().ok_or("no permit")?;
    let Ok(form) = read_image(alloc, bytes) else {
        return Err("no image".into());
    };
    Ok(Image::of(permit, form))
}

// Keeps the image with these bytes under a pair that has none.
fn keep(alloc: Global, cache: &mut Cache, key: Key<'_>, bytes: &[u8]) -> Result<(), Fail> {
    let text = Text::of(Vec::from_slice(alloc, key.text)?);
    if cache.find(key.kind, key.text).is_some() {
        return Err("kept already".into());
    }
    cache.put(key.kind, text, image(alloc, bytes)?)?;
    Ok(())
}

// Whether the image with these bytes is found.
fn is_found(alloc: Global, cache: &Cache, key: Key<'_>, bytes: &[u8]) -> Result<bool, Fail> {
    let Some(image) = cache.find(key.kind, key.text) else {
        return Ok(false);
    };
    Ok(image_bytes(alloc, image)?.as_slice() == bytes)
}

#[test]
fn each_pair_is_missed_until_it_is_kept(rt: HostRuntime) -> Result<(), Fail> {
    let alloc = rt.alloc();
    let mut cache = Cache::new(alloc);
    assert!(rt; cache.misses(alloc, &KEYS)?.as_slice() == [0, 1, 3].as_slice());
    keep(alloc, &mut cache, KEYS[0], FOR_EVER)?;
    assert!(rt; cache.misses(alloc, &KEYS)?.as_slice() == [1, 3].as_slice());
    keep(alloc, &mut cache, KEYS[1], ENDS)?;
    assert!(rt; cache.misses(alloc, &KEYS)?.as_slice() == [3].as_slice());
    assert!(rt; is_found(alloc, &cache, KEYS[0], FOR_EVER)?);
    assert!(rt; is_found(alloc, &cache, KEYS[1], ENDS)?);
    assert!(rt; is_found(alloc, &cache, KEYS[2], FOR_EVER)?);
    assert!(rt; cache.find(Kind::Soft, TWO).is_none());
    Ok(())
}
