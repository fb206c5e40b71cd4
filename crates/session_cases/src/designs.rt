//! Sessions at the limits of designs, with the replies worked out by hand. The text of `pld_some_refused` has sessions of many designs.

use crate::answers::run;
use pld_base::NoMemory;
use pld_session::Status;
use std::alloc::Global;
use std::test::Fail;

/// The text with another word in the place of each `KIND`.
fn of_kind(alloc: Global, text: &[u8], kind: &[u8]) -> Result<Vec<u8>, NoMemory> {
    let mut out = Vec::new(alloc);
    let mut passed = 0usize;
    for (k, byte) in text.iter().enumerate() {
        if k >= passed {
            if text[k..].starts_with(b"KIND") {
                out.extend_from_slice(kind)?;
                passed = k.saturating_add(4);
            } else {
                out.push(*byte)?;
            }
        }
    }
    Ok(out)
}

// So many copies of a line.
fn put_lines(out: &mut Vec<u8>, line: &[u8], count: usize) -> Result<(), NoMemory> {
    for _ in 0..count {
        out.extend_from_slice(line)?;
    }
    Ok(())
}

#[test]
fn at_most_65536_words(rt: HostRuntime) -> Result<(), Fail> {
    let mut text = b"op f soft\nvoid f(in a) { }\nend\ninput s f.i0\nfeed s".to_vec(rt.alloc())?;
    put_lines(&mut text, b" 7", 65_536)?;
    text.extend_from_slice(b"\nfeed s 7\nfeed s\nbuild\nrun\nclear s\nfeed s 7\n")?;
    let want: &[u8] = b"ok\nok\nok\nrefused 6 TooManyWords\nok\nbuilt 1 compiled 1\ndone\nok\nok\n";
    let (status, sink, _) = run(&rt, text.as_slice(), 100_000, 4096, (0, 0))?;
    assert_eq!(rt; sink.bytes(), want);
    assert_eq!(rt; status, Status::SomeRefused);
    Ok(())
}

#[test]
fn at_most_1000_nodes(rt: HostRuntime) -> Result<(), Fail> {
    let mut text = b"op f KIND\nvoid f(out b) {\n".to_vec(rt.alloc())?;
    put_lines(&mut text, b"write(b, 1);\n", 500)?;
    let mut over = text.as_slice().to_vec(rt.alloc())?;
    text.extend_from_slice(b"}\nend\noutput f.o0 y\nbuild\nrun\n")?;
    over.extend_from_slice(b"return;\n}\nend\n")?;
    let mut want = b"ok\nok\nbuilt 1 compiled 1\ndone\nout y 500".to_vec(rt.alloc())?;
    put_lines(&mut want, b" 1", 500)?;
    want.push(b'\n')?;
    for kind in [b"soft".as_slice(), b"hard".as_slice()] {
        let text = of_kind(rt.alloc(), text.as_slice(), kind)?;
        let (status, sink, _) = run(&rt, text.as_slice(), 100_000, 4096, (0, 0))?;
        assert_eq!(rt; sink.bytes(), want.as_slice());
        assert_eq!(rt; status, Status::Fine);
        let over = of_kind(rt.alloc(), over.as_slice(), kind)?;
        let (_, sink, _) = run(&rt, over.as_slice(), 100_000, 4096, (0, 0))?;
        let refused: &[u8] = b"refused 1 Source TooLarge(Nodes) 1 6\n";
        assert_eq!(rt; sink.bytes(), refused);
    }
    Ok(())
}

#[test]
fn pages_and_operators(rt: HostRuntime) -> Result<(), Fail> {
    let mut text =
        b"build\npages 1\nop a soft\nvoid f() { }\nend\nop b hard\nvoid f() { }\nend\nbuild\npages 6\n".to_vec(
            rt.alloc(),
        )?;
    let mut want = b"refused 1 Empty\nok\nok\nok\nrefused 9 TooFewPages 2 1\nok\n".to_vec(
        rt.alloc(),
    )?;
    let digits = b"0123456789abcdef";
    for high in 0..4usize {
        for low in 0..16usize {
            if high * 16 + low < 61 {
                text.extend_from_slice(&[b'o', b'p', b' ', b'f', digits[high], digits[low]])?;
                text.extend_from_slice(b" soft\nvoid f() { }\nend\n")?;
                want.extend_from_slice(b"ok\n")?;
            }
        }
    }
    text.extend_from_slice(b"build\nop z soft\nvoid f() {\nend\n")?;
    want.extend_from_slice(b"built 63 compiled 2\nrefused 195 TooMany\n")?;
    let (status, sink, _) = run(&rt, text.as_slice(), 100_000, 4096, (0, 0))?;
    assert_eq!(rt; sink.bytes(), want.as_slice());
    assert_eq!(rt; status, Status::SomeRefused);
    Ok(())
}
