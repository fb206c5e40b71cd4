//! The text of a large session, beside one that is written by hand.

use pld_script::{Next, gen_script, next_statement};
use std::test::Fail;

/// A session with a chain of two operators, up to its feed.
const UP_TO_FEED: &str = "pages 6
op g1 soft
void add(in a, out b) {
  uint32_t x;
  uint32_t i;
  for (i = 0; i < 256; i++) {
    x = read(a);
    write(b, x + 1);
  }
}
end
op g2 hard
void add(in a, out b) {
  uint32_t x;
  uint32_t i;
  for (i = 0; i < 256; i++) {
    x = read(a);
    write(b, x + 2);
  }
}
end
input s g1.i0
connect g1.o0 g2.i0
output g2.o0 y
feed s";

#[test]
fn a_chain_of_two(rt: HostRuntime) -> Result<(), Fail> {
    let alloc = rt.alloc();
    let mut want = Vec::from_slice(alloc, UP_TO_FEED.as_bytes())?;
    for i in 0..256u32 {
        let word = 7 * i;
        let said = format!(in alloc; " {word}")?;
        want.extend_from_slice(said.as_bytes())?;
    }
    want.extend_from_slice(b"\nbuild\nrun\n")?;
    let text = gen_script(alloc, 2)?;
    assert_eq!(rt; text.as_slice(), want.as_slice());
    Ok(())
}

#[test]
fn all_statements_of_sixty_are_read(rt: HostRuntime) -> Result<(), Fail> {
    let text = gen_script(rt.alloc(), 60)?;
    let mut rest = text.as_slice();
    for _ in 0..125 {
        match next_statement(rt.alloc(), rest, true)? {
            Next::Statement(found) => {
                assert!(rt; found.used <= rest.len());
                rest = &rest[found.used..];
            }
            _ => assert!(rt; false),
        }
    }
    assert!(rt; rest.is_empty());
    Ok(())
}
