//! Reading images.

ghost use Rattle.std.specs.Prelude.{◌≡◌, List, [], Ok, IfOk};
ghost use Rattle.image_form.specs.Spelling.{Form, form_in, IsForm, HasWords, bytes_of};
ghost use Rattle.image_form.specs.Reading.{Tells, Gives, Reads, header_at, many, code_at, soft_at};
ghost use Rattle.image_form.specs.Whole.{body_at, all_of, read};
ghost use Rattle.image_form.specs.Views.{header_in};

use crate::fields::{bad, byte_in, code_word, kind, word_in};
use crate::form::{BadImage, ImageForm};
use crate::stop::{Bad, Stop};
use crate::tables::table;
use pld_base::{Kind, Refused};
use std::alloc::Global;

// `PLDI`, the lowest byte first.
const MAGIC: u32 = 0x4944_4c50;

// The most ports on a side.
const MOST_PORTS: u8 = 8;

// The most words of code.
const MOST_WORDS: u32 = 32_767;

struct Header {
    kind: Kind,
    ins: u8,
    outs: u8,
}

#[tactic(auto, unfolding(crate::specs::Reading::header_at))]
fn read_header(bytes: &[u8]) -> Result<(Header, &[u8]), Bad>
    ensures { Tells (λ x. (header_in x.0, x.1.now)) result (header_at bytes.now) }
{
    let (_, rest) = word_in(MAGIC, MAGIC, bytes)?;
    let (kind, rest) = kind(rest)?;
    let (ins, rest) = byte_in(0, MOST_PORTS, rest)?;
    let (outs, rest) = byte_in(0, MOST_PORTS, rest)?;
    let (_, rest) = byte_in(0, 0, rest)?;
    Ok((Header { kind, ins, outs }, rest))
}

// So many words of code.
fn code_words(alloc: Global, count: u32, bytes: &[u8]) -> Result<(Vec<u32>, &[u8]), Stop>
    ensures { Gives (λ x. (x.0.items, x.1.now)) result (many (λ before. code_at) count [] bytes.now) }
{
    let mut words = Vec::new(alloc);
    let mut rest = bytes;
    for _ in 0..count {
        let (word, after) = code_word(rest)?;
        words.push(word)?;
        rest = after;
    }
    Ok((words, rest))
}

// The code of a soft image.
#[tactic(auto, unfolding(crate::specs::Reading::soft_at))]
fn soft(alloc: Global, bytes: &[u8]) -> Result<(Vec<u32>, &[u8]), Stop>
    ensures { Gives (λ x. (x.0.items, x.1.now)) result (soft_at bytes.now) }
{
    let (count, rest) = word_in(1, MOST_WORDS, bytes)?;
    code_words(alloc, count, rest)
}

// What stands behind the header.
#[tactic(auto, unfolding(crate::specs::Whole::body_at))]
fn body(alloc: Global, header: Header, bytes: &[u8]) -> Result<(ImageForm, &[u8]), Stop>
    ensures { Gives (λ x. (form_in x.0, x.1.now)) result (body_at (header_in header) bytes.now) }
{
    let Header { kind, ins, outs } = header;
    match kind {
        Kind::Soft => {
            let (code, rest) = soft(alloc, bytes)?;
            Ok((ImageForm::Soft { ins, outs, code }, rest))
        }
        Kind::Hard => {
            let (table, rest) = table(alloc, ins, outs, bytes)?;
            Ok((ImageForm::Hard { table }, rest))
        }
    }
}

// All of the bytes.
#[tactic(auto, unfolding(crate::specs::Whole::all_of))]
fn all(alloc: Global, bytes: &[u8]) -> Result<ImageForm, Stop>
    ensures { Gives form_in result (all_of bytes.now) }
{
    let (header, rest) = read_header(bytes)?;
    let (form, rest) = body(alloc, header, rest)?;
    if !rest.is_empty() {
        return Err(Stop::BadField(bad(rest)));
    }
    Ok(form)
}

/// The image that these bytes spell. `Fault` comes exactly where they spell none, and tells the offset
/// of the first field that is cut short or out of range; the fields are read in order.
pub fn read_image(alloc: Global, bytes: &[u8]) -> Result<ImageForm, Refused<BadImage>>
    // What is read is in range and is spelled so.
    ensures found { IfOk result (λ f. IsForm (form_in f) × (bytes_of (form_in f) ≡ bytes.now)) }
    // What is in range and spelled so is read.
    ensures only { (f : Form) → IsForm f → HasWords f → bytes_of f ≡ bytes.now → Reads form_in result (Ok f) }
    // Which field is the first bad one.
    ensures exact { Reads form_in result (read bytes.now) }
{
    match all(alloc, bytes) {
        Ok(form) => Ok(form),
        Err(Stop::BadField(bad)) => Err(Refused::Fault(BadImage {
            place: bytes.len().saturating_sub(bad.left),
        })),
        Err(Stop::Memory) => Err(Refused::NoMemory),
    }
}
