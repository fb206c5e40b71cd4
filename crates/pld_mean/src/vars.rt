//! The variables of a run.

ghost use Rattle.std.specs.Prelude.{◌≡◌, ℕ, ◌<◌, ◌≤◌, List, [], ◌∷◌, ◌++◌, map, length, get_or, drop, replicate, slice_index, OnOk, IfOk};
ghost use Rattle.pld_base.specs.Lists.{port};
ghost use Rattle.pld_ast.specs.Meaning.{start, set_scalar, set_element, and_event};
ghost use Rattle.pld_ast.specs.Resolve.{program_of};
ghost use Rattle.pld_mean.specs.Vars.{rows_of, state_of, sizes_of, sizes_in, IsSpot, set_spot, left_with, Took};

use pld_ast::{Array, Operator, count_ports};
use pld_base::{Event, NoMemory, PortNo, Side};
use std::alloc::Global;

/// How a run ends.
#[derive(Clone, Copy, PartialEq, Eq, Debug)]
pub enum CEnd {
    /// It ran to a `return`, or to the end of the text.
    Returned,
    /// It reads at this in-port, which has no more words.
    Starved(PortNo),
    /// A loop wants more turns than it may make.
    Cut,
}

/// What a statement comes to: the run goes on, or it is over.
#[derive(Clone, Copy, PartialEq, Eq, Debug)]
pub enum Flow {
    Goes,
    Over(CEnd),
}

/// A variable: a scalar by its number, or an element by its array's number and its index.
#[derive(Clone, Copy, PartialEq, Eq, Debug)]
pub enum Spot {
    Scalar(usize),
    Element(usize, usize),
}

/// The variables of a run, how many words of each in-port's list are read, and the events so far.
#[derive(Drop)]
pub struct Vars {
    scalars: Vec<u32>,
    arrays: Vec<Vec<u32>>,
    read: Vec<usize>,
    events: Vec<Event>,
}

// So many words, all 0.
fn zeros(alloc: Global, n: usize) -> Result<Vec<u32>, NoMemory>
    ensures { IfOk result (λ words. words.items ≡ replicate n 0) }
{
    let words = vec![in alloc; 0; n]?;
    Ok(words)
}

// Nothing is read of so many lists.
fn unread(alloc: Global, n: usize) -> Result<Vec<usize>, NoMemory>
    ensures { IfOk result (λ counts. counts.items ≡ replicate n 0) }
{
    let counts = vec![in alloc; 0; n]?;
    Ok(counts)
}

// The words of each array, all 0.
fn rows(alloc: Global, arrays: &[Array]) -> Result<Vec<Vec<u32>>, NoMemory>
    ensures words { IfOk result (λ rows. map (λ row. row.items) rows.items ≡ map (λ a. replicate a.len 0) arrays.now) }
    ensures lengths { IfOk result (λ rows. map (λ row. length row.items) rows.items ≡ map (λ a. a.len) arrays.now) }
{
    let mut rows = Vec::new(alloc);
    for array in arrays {
        let row = zeros(alloc, array.len as usize)?;
        rows.push(row)?;
    }
    Ok(rows)
}

impl Vars {
    /// The variables of an operator, all 0, before anything is read.
    pub fn new(alloc: Global, op: &Operator) -> Result<Vars, NoMemory>
        ensures state { (ins : List (List ℕ)) → IfOk result (λ vars. state_of ins vars ≡ start (λ p. get_or ins p [])) }
        ensures sizes { IfOk result (λ vars. sizes_of vars ≡ sizes_in (program_of op.now)) }
    {
        let scalars = zeros(alloc, op.scalars.len())?;
        let arrays = rows(alloc, op.arrays.as_slice())?;
        let read = unread(alloc, count_ports(op.ports.as_slice(), Side::In))?;
        Ok(Vars {
            scalars,
            arrays,
            read,
            events: Vec::new(alloc),
        })
    }

    /// The events.
    pub fn into_events(self) -> Vec<Event>
        ensures { result ≡ self.events }
    {
        self.events
    }

    /// The value of a scalar.
    pub fn scalar(&self, s: usize) -> u32
        ensures { result ≡ slice_index self.now.scalars.items s }
    {
        match self.scalars.get(s) {
            None => 0,
            Some(v) => *v,
        }
    }

    /// The value of an array's element.
    pub fn element(&self, t: usize, i: usize) -> u32
        ensures { result ≡ slice_index (get_or (rows_of self.now) t []) i }
    {
        match self.arrays.get(t) {
            None => 0,
            Some(row) => match row.get(i) {
                None => 0,
                Some(v) => *v,
            },
        }
    }

    // Gives a scalar a value.
    fn set_scalar(&mut self, s: usize, v: u32)
        ensures state { (ins : List (List ℕ)) → s < length self.old.scalars.items → state_of ins self.new ≡ set_scalar (state_of ins self.old) s v }
        ensures sizes { sizes_of self.new ≡ sizes_of self.old }
    {
        if s < self.scalars.len() {
            self.scalars[s] = v;
        }
    }

    // Gives an array's element a value.
    fn set_element(&mut self, t: usize, i: usize, v: u32)
        ensures state { (ins : List (List ℕ)) → t < length (sizes_of self.old).lengths → i < slice_index (sizes_of self.old).lengths t → state_of ins self.new ≡ set_element (state_of ins self.old) t i v }
        ensures sizes { sizes_of self.new ≡ sizes_of self.old }
    {
        if t < self.arrays.len() && i < self.arrays[t].len() {
            self.arrays[t][i] = v;
        }
    }

    /// Gives a variable a value.
    pub fn put(&mut self, spot: Spot, v: u32)
        ensures state { (ins : List (List ℕ)) → IsSpot (sizes_of self.old) spot → state_of ins self.new ≡ set_spot (state_of ins self.old) spot v }
        ensures sizes { sizes_of self.new ≡ sizes_of self.old }
    {
        match spot {
            Spot::Scalar(s) => self.set_scalar(s, v),
            Spot::Element(t, i) => self.set_element(t, i, v),
        }
    }

    /// One more event.
    pub fn note(&mut self, event: Event) -> Result<(), NoMemory>
        ensures state { OnOk result ((ins : List (List ℕ)) → state_of ins self.new ≡ and_event (state_of ins self.old) event) }
        ensures sizes { OnOk result (sizes_of self.new ≡ sizes_of self.old) }
    {
        self.events.push(event)?;
        Ok(())
    }

    // How many words of an in-port's list are read.
    fn read_at(&self, p: usize) -> usize
        ensures { result ≡ slice_index self.now.read.items p }
    {
        match self.read.get(p) {
            None => 0,
            Some(r) => *r,
        }
    }

    // So many words of an in-port's list are read now.
    fn read_to(&mut self, p: usize, r: usize)
        ensures state { (ins : List (List ℕ)) → p < length self.old.read.items → state_of ins self.new ≡ left_with (state_of ins self.old) p (drop r (get_or ins p [])) }
        ensures sizes { sizes_of self.new ≡ sizes_of self.old }
    {
        if p < self.read.len() {
            self.read[p] = r;
        }
    }

    /// Takes the next word of an in-port, if it has one.
    pub fn take(&mut self, ins: &[Vec<u32>], p: usize) -> Result<Option<u32>, NoMemory>
        requires { p ≤ 8 }
        ensures took { IfOk result (λ word. p < length self.old.read.items → Took (map (λ v. v.items) ins.now) p self.old word self.new) }
        ensures sizes { OnOk result (sizes_of self.new ≡ sizes_of self.old) }
    {
        let list = list_at(ins, p);
        let r = self.read_at(p);
        if r >= list.len() {
            return Ok(None);
        }
        let word = list[r];
        let after = r + 1;
        self.note(Event::Read(PortNo(p as u8), word))?;
        self.read_to(p, after);
        Ok(Some(word))
    }
}

// The list of words of an in-port; it is empty where there is no such port.
fn list_at(ins: &[Vec<u32>], p: usize) -> &[u32]
    ensures { result.now ≡ get_or (map (λ v. v.items) ins.now) p [] }
{
    match ins.get(p) {
        None => &[],
        Some(list) => list,
    }
}
