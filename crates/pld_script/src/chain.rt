//! The text of a large session: a chain of operators.

ghost use Rattle.std.specs.Prelude.{◌≡◌, ◌≤◌, ◌++◌, OnOk, IfOk, decimal, string_bytes};
ghost use Rattle.pld_script.specs.Chain.{line_of, kind_word, op_line, before_number, behind_number, operator_text, operators_text, connect_line, channels_text, output_line, sevens, feed_line, design_text, script_of};

use pld_base::NoMemory;
use std::alloc::{AllocError, Global};
use std::fmt::Write;

/// Which kind the k-th operator has, as a word.
fn kind_of_operator(k: u64) -> &'static str
    ensures { result.now ≡ kind_word k }
{
    if k % 2 == 1 { "soft" } else { "hard" }
}

/// An operator's text up to the number that it adds.
#[tactic(auto, unfolding(crate::specs::Chain::before_number))]
fn up_to_number() -> &'static str
    ensures { result.now ≡ before_number }
{
    "void add(in a, out b) {
  uint32_t x;
  uint32_t i;
  for (i = 0; i < 256; i++) {
    x = read(a);
    write(b, x + "
}

/// An operator's text behind that number.
#[tactic(auto, unfolding(crate::specs::Chain::behind_number))]
fn from_number_on() -> &'static str
    ensures { result.now ≡ behind_number }
{
    ");
  }
}
end
"
}

/// Writes a line.
fn put_line(text: &mut String, line: &str) -> Result<(), AllocError>
    ensures { OnOk result (string_bytes text.new ≡ string_bytes text.old ++ line_of line.now) }
{
    writeln!(text, "{line}")?;
    Ok(())
}

/// Writes the line that opens the k-th operator.
fn put_op(text: &mut String, k: u64) -> Result<(), AllocError>
    ensures { OnOk result (string_bytes text.new ≡ string_bytes text.old ++ op_line k) }
{
    let kind = kind_of_operator(k);
    writeln!(text, "op g{k} {kind}")?;
    Ok(())
}

/// Writes a number in decimal digits.
fn put_number(text: &mut String, number: u64) -> Result<(), AllocError>
    ensures { OnOk result (string_bytes text.new ≡ string_bytes text.old ++ decimal number) }
{
    write!(text, "{number}")?;
    Ok(())
}

/// Writes the k-th operator.
fn put_operator(text: &mut String, k: u64) -> Result<(), AllocError>
    ensures { OnOk result (string_bytes text.new ≡ string_bytes text.old ++ operator_text k) }
{
    put_op(text, k)?;
    text.push_str(up_to_number())?;
    put_number(text, k)?;
    text.push_str(from_number_on())?;
    Ok(())
}

/// Writes the first `n` operators.
fn put_operators(text: &mut String, n: u64) -> Result<(), AllocError>
    requires { n ≤ 60 }
    ensures { OnOk result (string_bytes text.new ≡ string_bytes text.old ++ operators_text n) }
{
    for i in 0..n {
        put_operator(text, i + 1)?;
    }
    Ok(())
}

/// Writes the channel from the k-th operator to the next one.
fn put_channel(text: &mut String, k: u64) -> Result<(), AllocError>
    requires { k ≤ 60 }
    ensures { OnOk result (string_bytes text.new ≡ string_bytes text.old ++ connect_line k) }
{
    let next = k + 1;
    writeln!(text, "connect g{k}.o0 g{next}.i0")?;
    Ok(())
}

/// Writes the channels between the first `n` operators.
fn put_channels(text: &mut String, n: u64) -> Result<(), AllocError>
    requires some { 1 ≤ n }
    requires few { n ≤ 60 }
    ensures { OnOk result (string_bytes text.new ≡ string_bytes text.old ++ channels_text n) }
{
    for i in 0..n - 1 {
        put_channel(text, i + 1)?;
    }
    Ok(())
}

/// Writes the line of the output.
fn put_output(text: &mut String, n: u64) -> Result<(), AllocError>
    ensures { OnOk result (string_bytes text.new ≡ string_bytes text.old ++ output_line n) }
{
    writeln!(text, "output g{n}.o0 y")?;
    Ok(())
}

/// Writes the first `n` multiples of 7, each behind a space.
#[tactic(auto, unfolding(crate::specs::Chain::sevens))]
fn put_sevens(text: &mut String, n: u64) -> Result<(), AllocError>
    requires { n ≤ 256 }
    ensures { OnOk result (string_bytes text.new ≡ string_bytes text.old ++ sevens n) }
{
    for i in 0..n {
        let word = 7 * i;
        write!(text, " {word}")?;
    }
    Ok(())
}

/// Writes the line of the words that are fed.
fn put_feed(text: &mut String) -> Result<(), AllocError>
    ensures { OnOk result (string_bytes text.new ≡ string_bytes text.old ++ feed_line) }
{
    text.push_str("feed s")?;
    put_sevens(text, 256)?;
    text.push_str("\n")?;
    Ok(())
}

/// The design: a chain of `n` operators, with its input and its output.
fn design(alloc: Global, n: u64) -> Result<String, AllocError>
    requires some { 1 ≤ n }
    requires few { n ≤ 60 }
    ensures { IfOk result (λ text. string_bytes text ≡ design_text n) }
{
    let mut text = String::new(alloc);
    put_line(&mut text, "pages 6")?;
    put_operators(&mut text, n)?;
    put_line(&mut text, "input s g1.i0")?;
    put_channels(&mut text, n)?;
    put_output(&mut text, n)?;
    Ok(text)
}

/// The text of a session with a chain of `n` operators, each of which adds its own number to each of 256 words. The operators
/// are `g1` to `gN`, those with odd numbers on softcores and the others in hardware; the words are the multiples of 7 from 0
/// to 1,785, and the session builds and runs the design once. `n` is 1 to 60.
#[tactic(auto, unfolding(crate::specs::Chain::script_of))]
pub fn gen_script(alloc: Global, n: u64) -> Result<Vec<u8>, NoMemory>
    requires { (1 ≤ n) × (n ≤ 60) }
    ensures { IfOk result (λ text. text.items ≡ script_of n) }
{
    let mut text = design(alloc, n)?;
    put_feed(&mut text)?;
    text.push_str("build\nrun\n")?;
    Ok(text.into_bytes())
}
