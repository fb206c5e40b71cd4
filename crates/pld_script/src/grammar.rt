//! What the words of a line say.

ghost use Rattle.std.specs.Prelude.{◌≡◌, ◌+◌, IfOk, MatchOption, None, ◌∷◌, [], length};
ghost use Rattle.std.specs.Option.{option_map};
ghost use Rattle.pld_script.specs.declared.statement.Statement.TheVariants as says;
ghost use Rattle.pld_script.specs.Words.{words_of};
ghost use Rattle.pld_script.specs.Grammar.{page_kind_in, side_in, port_number_in, port_of as port_at, port_in, page_count_in, window_size_in, has_dot as holds_dot, cut_in, only_in, two_in, only_name_in, connect_in, disconnect_in, input_in, output_in, pin_in, pages_in, pattern_in, window_in, numbers_in, feed_in, alone as alone_in, clear_in, remove_in, unpin_in, dump_in, order_in, edit_in, said_in, statement_in, op_in, replace_in, edit_with, line_statement, text_statement};

use super::line::split_word;
use super::number::{short_number_of, word_of};
use super::{Depth, Edit, Levels, Statement, Text, Window, WordList};
use pld_base::{End, Kind, Name, NoMemory, PortNo, Side};
use pld_graph::Cut;
use std::alloc::Global;

fn page_kind_of(word: &[u8]) -> Option<Kind>
    ensures { result ≡ page_kind_in word.now }
{
    if word == b"soft".as_slice() {
        Some(Kind::Soft)
    } else if word == b"hard".as_slice() {
        Some(Kind::Hard)
    } else {
        None
    }
}

fn side_of(b: u8) -> Option<Side>
    ensures { result ≡ side_in b }
{
    match b {
        b'i' => Some(Side::In),
        b'o' => Some(Side::Out),
        _ => None,
    }
}

fn port_number_of(b: u8) -> Option<PortNo>
    ensures { result ≡ port_number_in b }
{
    match b {
        b'0'..=b'7' => Some(PortNo(b - b'0')),
        _ => None,
    }
}

/// The port behind this name.
fn port_behind(name: &[u8], tail: &[u8]) -> Option<End>
    ensures { result ≡ port_at name.now tail.now }
{
    match tail {
        [b'.', side, number] => Some(End {
            op: Name::of(name)?,
            side: side_of(*side)?,
            port: port_number_of(*number)?,
        }),
        _ => None,
    }
}

/// A port: a name, a dot, `i` or `o`, and a digit from 0 to 7.
fn port_of(word: &[u8]) -> Option<End>
    ensures { result ≡ port_in word.now }
{
    let (name, tail) = word.split_at(word.len().saturating_sub(3));
    port_behind(name, tail)
}

/// The depth of a tree, from 1 to 6.
fn page_count_of(word: &[u8]) -> Option<Depth>
    ensures { result ≡ page_count_in word.now }
{
    Depth::of(short_number_of(word)?)
}

/// The window of a channel, from 1 to 64 words.
fn window_size_of(word: &[u8]) -> Option<Window>
    ensures { result ≡ window_size_in word.now }
{
    Window::of(short_number_of(word)?)
}

fn has_dot(word: &[u8]) -> bool
    ensures { result ≡ holds_dot word.now }
{
    word.iter().any(|b| *b == b'.')
}

/// What is to be disconnected: a word with a dot has to be a port, any other one a name.
fn cut_of(word: &[u8]) -> Option<Cut>
    ensures { result ≡ cut_in word.now }
{
    if has_dot(word) {
        Some(Cut::Port(port_of(word)?))
    } else {
        Some(Cut::Host(Name::of(word)?))
    }
}

/// The word of the line, where there is one.
fn only_word(line: &[u8]) -> Option<&[u8]>
    ensures { MatchOption result (only_in (words_of line.now) ≡ None) (λ word. words_of line.now ≡ word.now ∷ []) }
{
    let (word, behind) = split_word(line)?;
    match split_word(behind) {
        None => Some(word),
        Some(_) => None,
    }
}

/// The words of the line, where there are two.
fn two_words(line: &[u8]) -> Option<(&[u8], &[u8])>
    ensures { MatchOption result (two_in (words_of line.now) ≡ None) (λ found. words_of line.now ≡ found.0.now ∷ found.1.now ∷ []) }
{
    let (first, rest) = split_word(line)?;
    let (second, behind) = split_word(rest)?;
    match split_word(behind) {
        None => Some((first, second)),
        Some(_) => None,
    }
}

/// The name, where the line has one word, and it is one.
fn only_name(line: &[u8]) -> Option<Name>
    ensures { result ≡ only_name_in (words_of line.now) }
{
    Name::of(only_word(line)?)
}

fn remove_of(line: &[u8]) -> Option<Edit>
    ensures { result ≡ remove_in (words_of line.now) }
{
    Some(Edit::Remove(only_name(line)?))
}

fn connect_of(line: &[u8]) -> Option<Edit>
    ensures { result ≡ connect_in (words_of line.now) }
{
    let (from, to) = two_words(line)?;
    Some(Edit::Connect(port_of(from)?, port_of(to)?))
}

fn disconnect_of(line: &[u8]) -> Option<Edit>
    ensures { result ≡ disconnect_in (words_of line.now) }
{
    Some(Edit::Disconnect(cut_of(only_word(line)?)?))
}

fn input_of(line: &[u8]) -> Option<Edit>
    ensures { result ≡ input_in (words_of line.now) }
{
    let (name, port) = two_words(line)?;
    Some(Edit::Input(Name::of(name)?, port_of(port)?))
}

fn output_of(line: &[u8]) -> Option<Edit>
    ensures { result ≡ output_in (words_of line.now) }
{
    let (port, name) = two_words(line)?;
    Some(Edit::Output(port_of(port)?, Name::of(name)?))
}

fn pin_of(line: &[u8]) -> Option<Edit>
    ensures { result ≡ pin_in (words_of line.now) }
{
    let (name, leaf) = two_words(line)?;
    Some(Edit::Pin(Name::of(name)?, short_number_of(leaf)?))
}

fn unpin_of(line: &[u8]) -> Option<Edit>
    ensures { result ≡ unpin_in (words_of line.now) }
{
    Some(Edit::Unpin(only_name(line)?))
}

fn pages_of(line: &[u8]) -> Option<Edit>
    ensures { result ≡ pages_in (words_of line.now) }
{
    Some(Edit::Pages(page_count_of(only_word(line)?)?))
}

fn pattern_of(line: &[u8]) -> Option<Edit>
    ensures { result ≡ pattern_in (words_of line.now) }
{
    Some(Edit::Levels(Levels::of(only_word(line)?)?))
}

fn window_of(line: &[u8]) -> Option<Edit>
    ensures { result ≡ window_in (words_of line.now) }
{
    Some(Edit::Window(window_size_of(only_word(line)?)?))
}

/// The values of the words of the line. None where one is no number.
fn numbers_of(alloc: Global, line: &[u8]) -> Result<Option<WordList>, NoMemory>
    ensures { IfOk result (λ numbers. numbers ≡ numbers_in (words_of line.now)) }
{
    let mut numbers = Vec::new(alloc);
    let mut rest = line;
    while let Some((word, behind)) = split_word(rest) {
        match word_of(word) {
            None => return Ok(None),
            Some(number) => numbers.push(number)?,
        }
        rest = behind;
    }
    Ok(Some(WordList::of(numbers)))
}

fn feed_of(alloc: Global, line: &[u8]) -> Result<Option<Edit>, NoMemory>
    ensures { IfOk result (λ said. said ≡ feed_in (words_of line.now)) }
{
    let Some((word, rest)) = split_word(line) else {
        return Ok(None);
    };
    let Some(name) = Name::of(word) else {
        return Ok(None);
    };
    match numbers_of(alloc, rest)? {
        None => Ok(None),
        Some(numbers) => Ok(Some(Edit::Feed(name, numbers))),
    }
}

fn clear_of(line: &[u8]) -> Option<Edit>
    ensures { result ≡ clear_in (words_of line.now) }
{
    Some(Edit::Clear(only_name(line)?))
}

/// The statement, where no word stands in the line.
fn alone(statement: Statement, line: &[u8]) -> Option<Statement>
    ensures { result ≡ alone_in statement (words_of line.now) }
{
    match split_word(line) {
        None => Some(statement),
        Some(_) => None,
    }
}

fn dump_of(line: &[u8]) -> Option<Statement>
    ensures { result ≡ dump_in (words_of line.now) }
{
    let (what, rest) = split_word(line)?;
    if what == b"image".as_slice() {
        Some(Statement::DumpImage(only_name(rest)?))
    } else if what == b"tables".as_slice() {
        alone(Statement::DumpTables, rest)
    } else {
        None
    }
}

/// An order to the host whose first word is this one, with this behind it.
fn order_of(first: &[u8], rest: &[u8]) -> Option<Statement>
    ensures { result ≡ order_in first.now (words_of rest.now) }
{
    if first == b"build".as_slice() {
        alone(Statement::Build, rest)
    } else if first == b"run".as_slice() {
        alone(Statement::Run, rest)
    } else if first == b"dump".as_slice() {
        dump_of(rest)
    } else if first == b"stats".as_slice() {
        alone(Statement::Stats, rest)
    } else if first == b"quit".as_slice() {
        alone(Statement::Quit, rest)
    } else {
        None
    }
}

/// An edit whose first word is this one, with this behind it.
fn edit_of(first: &[u8], rest: &[u8]) -> Option<Edit>
    ensures { result ≡ edit_in first.now (words_of rest.now) }
{
    if first == b"remove".as_slice() {
        remove_of(rest)
    } else if first == b"connect".as_slice() {
        connect_of(rest)
    } else if first == b"disconnect".as_slice() {
        disconnect_of(rest)
    } else if first == b"input".as_slice() {
        input_of(rest)
    } else if first == b"output".as_slice() {
        output_of(rest)
    } else if first == b"pin".as_slice() {
        pin_of(rest)
    } else if first == b"unpin".as_slice() {
        unpin_of(rest)
    } else if first == b"pages".as_slice() {
        pages_of(rest)
    } else if first == b"pattern".as_slice() {
        pattern_of(rest)
    } else if first == b"window".as_slice() {
        window_of(rest)
    } else if first == b"clear".as_slice() {
        clear_of(rest)
    } else {
        None
    }
}

/// The edit, as a statement.
fn edited(edit: Option<Edit>) -> Option<Statement>
    ensures { result ≡ option_map says.Edit edit }
{
    Some(Statement::Edit(edit?))
}

/// What a line says whose first word is this one, with this behind it.
fn said_behind(alloc: Global, first: &[u8], rest: &[u8]) -> Result<Option<Statement>, NoMemory>
    ensures { IfOk result (λ said. said ≡ said_in first.now (words_of rest.now)) }
{
    if first == b"feed".as_slice() {
        return Ok(edited(feed_of(alloc, rest)?));
    }
    match edit_of(first, rest) {
        Some(edit) => Ok(Some(Statement::Edit(edit))),
        None => Ok(order_of(first, rest)),
    }
}

/// What a line says that opens no text. None where it is in no statement's grammar.
pub fn said_by(alloc: Global, line: &[u8]) -> Result<Option<Statement>, NoMemory>
    ensures { IfOk result (λ said. said ≡ line_statement line.now) }
{
    match split_word(line) {
        None => Ok(None),
        Some((first, rest)) => said_behind(alloc, first, rest),
    }
}

fn op_of(line: &[u8], text: Vec<u8>) -> Option<Edit>
    ensures { result ≡ op_in (words_of line.now) text.items }
{
    let (name, kind) = two_words(line)?;
    Some(Edit::Op(Name::of(name)?, page_kind_of(kind)?, Text::of(text)))
}

fn replace_of(line: &[u8], text: Vec<u8>) -> Option<Edit>
    ensures { result ≡ replace_in (words_of line.now) text.items }
{
    let (name, kind) = two_words(line)?;
    Some(Edit::Replace(Name::of(name)?, page_kind_of(kind)?, Text::of(text)))
}

fn edit_with_text(first: &[u8], rest: &[u8], text: Vec<u8>) -> Option<Edit>
    ensures { result ≡ edit_with first.now (words_of rest.now) text.items }
{
    if first == b"op".as_slice() {
        op_of(rest, text)
    } else if first == b"replace".as_slice() {
        replace_of(rest, text)
    } else {
        None
    }
}

/// What a line that opens a text says, with its text. None where it is in no statement's grammar.
pub fn said_with(head: &[u8], text: Vec<u8>) -> Option<Statement>
    ensures { result ≡ text_statement head.now text.items }
{
    let (first, rest) = split_word(head)?;
    edited(edit_with_text(first, rest, text))
}
