//! Runs a chain of pages over a tree of 64 leaves, each of which adds one to every word. The input has three numbers: how many pages,
//! how many words (0, 1, 2 and so on are sent), and how many rounds are allowed. What is written: how the run ended, its counts, how
//! many entries its journal has, and how many words came, with the last one.
#![tactic(auto)]

ghost use Rattle.std.specs.List.{All};
ghost use Rattle.std.specs.Prelude.{◌≡◌, ◌+◌, ◌*◌, ◌^◌, ◌<◌, ◌≤◌, true, length, IfOk, IfSome};

use chain_plans::{image, plan};
use fabric_core::{Fabric, run_plain};
use pld_base::NoMemory;
use std::alloc::Global;
use std::io;
use std::io::Read;

// Code of five words, with one in-port and one out-port: lui x9, 0x80000; lw x5, 0(x9); addi x5, x5, 1; sw x5, 256(x9);
// jal x0, -12.
const IMAGE: [u8; 32] = [
    b'P', b'L', b'D', b'I', b'S', 1, 1, 0, 5, 0, 0, 0, 0xb7, 0x04, 0, 0x80, 0x83, 0xa2, 0x04, 0,
    0x93, 0x82, 0x12, 0, 0x23, 0xa0, 0x54, 0x10, 0x6f, 0xf0, 0x5f, 0xff,
];

// The three numbers of a text.
fn numbers_in(text: &str) -> Option<(u8, u32, u64)> {
    let mut numbers = text.split_whitespace();
    let pages = numbers.next()?.parse::<u8>().ok()?;
    let words = numbers.next()?.parse::<u32>().ok()?;
    let rounds = numbers.next()?.parse::<u64>().ok()?;
    Some((pages, words, rounds))
}

// Whether a plan may have so many pages, words and rounds.
fn is_in_range(pages: u8, words: u32, rounds: u64) -> bool
    ensures a_page { result ≡ true → 1 ≤ pages }
    ensures pages { result ≡ true → pages < 64 }
    ensures words { result ≡ true → words ≤ 65536 }
    ensures a_round { result ≡ true → 1 ≤ rounds }
    ensures entries { result ≡ true → rounds * (8 * pages + 1) ≤ 40000000 }
{
    if pages < 1 || pages > 63 || words > 65_536 || rounds < 1 || rounds > 40_000_000 {
        return false;
    }
    rounds * (8 * pages as u64 + 1) <= 40_000_000
}

// The words 0, 1, 2 and so on.
fn counted(alloc: Global, n: u32) -> Result<Vec<u32>, NoMemory>
    ensures many { IfOk result (λ words. length words.items ≡ n) }
    ensures each { IfOk result (λ words. All (λ word. word < 2 ^ 32) words.items) }
{
    let mut words = Vec::with_capacity(alloc, n as usize)?;
    for word in 0..n {
        words.push(word)?;
    }
    Ok(words)
}

// The run of a chain of so many pages. None where that is out of range.
fn run(alloc: Global, pages: u8, words: u32, rounds: u64) -> Result<Option<Fabric>, NoMemory>
    ensures { IfOk result (λ run. IfSome run (λ fabric. fabric.plan.outs ≡ 1)) }
{
    if !is_in_range(pages, words, rounds) {
        return Ok(None);
    }
    let Some(image) = image(alloc, &IMAGE)? else {
        return Ok(None);
    };
    let plan = plan(alloc, pages, &image, counted(alloc, words)?, rounds)?;
    Ok(Some(run_plain(Fabric::prepare(alloc, plan)?)))
}

// Tells what a run shows.
fn tell(rt: HostRuntime, fabric: &Fabric) -> io::Result<()>
    requires { fabric.now.plan.outs ≡ 1 }
{
    let counts = fabric.counts();
    let entries = fabric.journal().len();
    let out = fabric.out(0);
    let (many, last) = (out.len(), out.last().copied().unwrap_or(0));
    let over = fabric.over();
    println!(rt; "{over:?}")?;
    println!(rt; "rounds {}", counts.rounds)?;
    println!(rt; "packets {}", counts.packets)?;
    println!(rt; "deflected {}", counts.deflected)?;
    println!(rt; "configs {}", counts.configs)?;
    println!(rt; "entries {entries}")?;
    println!(rt; "words {many} last {last}")
}

fn main(rt: HostRuntime) -> io::Result<()> {
    let mut text = String::new(rt.alloc());
    rt.reader().read_to_string(&mut text)?;
    let Some((pages, words, rounds)) = numbers_in(&text) else {
        return println!(rt; "no numbers");
    };
    match run(rt.alloc(), pages, words, rounds) {
        Ok(Some(fabric)) => tell(rt, &fabric),
        Ok(None) => println!(rt; "out of range"),
        Err(_) => println!(rt; "no memory"),
    }
}
