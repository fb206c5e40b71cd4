//! Whole sessions, run over sources and sinks in memory. What the replies must be is written by hand.

ghost use Rattle.std.specs.Prelude.{◌≡◌, ◌≤◌, ◌⊎◌, length, take, vec_len, IfOk};

use pld_io::{MemSink, MemSource, OpenGate};
use pld_session::{Bench, Entry, Options, Status, pld, pld_plain};
use std::test::Fail;

/// Runs a session, whose takes give so many bytes, and in which one take and one put fail (0: none).
/// A session never ends in Usage.
pub(crate) fn run(
    rt: &HostRuntime,
    text: &[u8],
    rounds: u64,
    piece: usize,
    fails: (u64, u64),
) -> Result<(Status, MemSink, u64), Fail>
    ensures { IfOk result (λ ran. ran.0 ≡ Status.Usage → ⊥) }
{
    let options = Options {
        rounds: rounds.min(1_000_000).max(1),
        workers: 1,
    };
    let takes = [fails.0].to_vec(rt.alloc())?;
    let puts = [fails.1].to_vec(rt.alloc())?;
    let mut source = MemSource::new(text.to_vec(rt.alloc())?, takes, piece.max(1));
    let mut sink = MemSink::new(rt.alloc(), puts, 1_048_576)?;
    let mut bench = Bench::new(rt.alloc());
    let status = pld_plain(rt.alloc(), &options, &mut source, &mut sink, &mut bench);
    Ok((status, sink, bench.permits.count()))
}

const ADD_ONE: &[u8] = b"op inc soft
void inc(in a, out b) {
  int32_t x;
  x = read(a); write(b, x + 1);
  x = read(a); write(b, x + 1);
  x = read(a); write(b, x + 1);
}
end
input src inc.i0
output inc.o0 dst
feed src 5 6 4294967295
build
run
";

/// How many bytes its operator has, with the line `end`.
const OP: usize = 151;

const ADDED: &[u8] = b"ok\nok\nok\nok\nbuilt 1 compiled 1\ndone\nout dst 3 6 7 0\n";

#[test]
fn adds_one_in_any_pieces(rt: HostRuntime) -> Result<(), Fail> {
    for piece in 1..ADD_ONE.len() + 1 {
        let (status, sink, permits) = run(&rt, ADD_ONE, 100_000, piece, (0, 0))?;
        assert_eq!(rt; status, Status::Fine);
        assert_eq!(rt; sink.bytes(), ADDED);
        assert_eq!(rt; permits, 1u64);
    }
    Ok(())
}

/// The first lines of a text, so many.
fn first_lines(text: &[u8], count: u64) -> &[u8]
    ensures { result.now ≡ take (length result.now) text.now }
{
    let mut left = count;
    for (i, b) in text.iter().enumerate() {
        if left == 0 {
            return &text[..i];
        }
        if *b == b'\n' {
            left -= 1;
        }
    }
    text
}

/// Each line is put by itself, so put k fails behind k - 1 of the seven lines.
#[test]
fn stops_at_each_put(rt: HostRuntime) -> Result<(), Fail> {
    for put in 1u64..8 {
        let (status, sink, _) = run(&rt, ADD_ONE, 100_000, 4096, (0, put))?;
        assert_eq!(rt; status, Status::WriteFault);
        assert_eq!(rt; sink.bytes(), first_lines(ADDED, put - 1));
    }
    let (status, sink, _) = run(&rt, ADD_ONE, 100_000, 4096, (0, 8))?;
    assert_eq!(rt; status, Status::Fine);
    assert_eq!(rt; sink.bytes(), ADDED);
    Ok(())
}

/// The replies to the first bytes of the session, and how it ends. For each statement stand here how
/// many bytes it has, how many of them are the least that is such a statement, and its replies.
fn replies_to_cut(rt: &HostRuntime, cut: usize) -> Result<(Vec<u8>, Status), Fail>
    ensures { IfOk result (λ said. (said.1 ≡ Status.Fine) ⊎ (said.1 ≡ Status.SomeRefused)) }
{
    let rows: [(usize, usize, &[u8], &[u8]); 6] = [
        (OP, OP - 1, b"ok\n", b"refused 1 BadLine\n"),
        (17, 16, b"ok\n", b"refused 9 BadLine\n"),
        (18, 15, b"ok\n", b"refused 10 BadLine\n"),
        (24, 8, b"ok\n", b"refused 11 BadLine\n"),
        (6, 5, b"built 1 compiled 1\n", b"refused 12 BadLine\n"),
        (4, 3, b"done\nout dst 3 6 7 0\n", b"refused 13 BadLine\n"),
    ];
    let mut replies = Vec::new(rt.alloc());
    let mut left = cut;
    for row in rows {
        if left == 0 {
            return Ok((replies, Status::Fine));
        }
        if left < row.1 {
            // The name of the feed, cut short, is that of no input.
            let unknown: &[u8] = b"refused 11 NotLinked\n";
            replies.extend_from_slice(if row.0 == 24 && left > 5 {
                unknown
            } else {
                row.3
            })?;
            return Ok((replies, Status::SomeRefused));
        }
        replies.extend_from_slice(row.2)?;
        left = left.saturating_sub(row.0);
    }
    Ok((replies, Status::Fine))
}

#[test]
fn answers_what_stands_before_a_cut(rt: HostRuntime) -> Result<(), Fail> {
    for cut in 0..ADD_ONE.len() + 1 {
        let (replies, wanted) = replies_to_cut(&rt, cut)?;
        let (status, sink, _) = run(&rt, &ADD_ONE[..cut], 100_000, 4096, (0, 0))?;
        assert_eq!(rt; sink.bytes(), replies.as_slice());
        assert_eq!(rt; status, wanted);
    }
    Ok(())
}

#[test]
fn ends_at_quit(rt: HostRuntime) -> Result<(), Fail> {
    let rows: [(&[u8], &[u8], Status); 6] = [
        (b"quit\nhello\n", b"", Status::Fine),
        (b"\n \tquit\t\r\nhello", b"", Status::Fine),
        (b"quit", b"", Status::Fine),
        (
            b"hello\nquit\nhello\n",
            b"refused 1 BadLine\n",
            Status::SomeRefused,
        ),
        (
            b"quit now\n# quit\nhello\n",
            b"refused 1 BadLine\nrefused 3 BadLine\n",
            Status::SomeRefused,
        ),
        (
            b"op f soft\nquit\nend\nquit\nhello\n",
            b"refused 1 Source Syntax 1 1\n",
            Status::SomeRefused,
        ),
    ];
    for row in rows {
        for piece in [1usize, 3, 4096] {
            let (status, sink, _) = run(&rt, row.0, 100_000, piece, (0, 0))?;
            assert_eq!(rt; sink.bytes(), row.1);
            assert_eq!(rt; status, row.2);
        }
    }
    Ok(())
}

#[test]
fn refuses_a_line_of_bytes_255(rt: HostRuntime) -> Result<(), Fail> {
    let mut text = vec![in rt.alloc(); 255u8; 10_000]?;
    let (status, sink, _) = run(&rt, text.as_slice(), 1, 4096, (0, 0))?;
    assert_eq!(rt; status, Status::SomeRefused);
    assert_eq!(rt; sink.bytes(), b"refused 1 BadLine\n".as_slice());
    text.extend_from_slice(b"\n\nquit\n")?;
    let (status, sink, _) = run(&rt, text.as_slice(), 1, 1, (0, 0))?;
    assert_eq!(rt; status, Status::SomeRefused);
    assert_eq!(rt; sink.bytes(), b"refused 1 BadLine\n".as_slice());
    Ok(())
}

#[test]
fn answers_each_statement(rt: HostRuntime) -> Result<(), Fail> {
    let rows: [(&[u8], &[u8], Status); 8] = [
        (b"", b"", Status::Fine),
        (b"\n# nothing\n", b"", Status::Fine),
        (b"hello", b"refused 1 BadLine\n", Status::SomeRefused),
        (
            b"build\nop f soft\nvoid f(in a, out b) { if (1) { } }\nend\n",
            b"refused 1 Empty\nok\n",
            Status::SomeRefused,
        ),
        (
            b"op f soft\nvoid f(in a) { write(a, 1); }\nend\nop f soft\n\nvoid f() {\nend\nop f soft\nvoid f() { }\nend\nop g soft\nvoid f(in a, out b) { x = 70000; }\nend\n",
            b"refused 1 Source WrongDirection 1 22\nrefused 4 Source Syntax 3 1\nok\nrefused 11 Source UnknownName 1 23\n",
            Status::SomeRefused,
        ),
        (
            b"op f soft\nvoid f(in a, out b) { int32_t x; x = read(a);\n",
            b"refused 1 BadLine\n",
            Status::SomeRefused,
        ),
        (
            b"op f soft\r\nvoid g(in a, out b) { int32_t x; x = read(a); write(b, (x - 3) + 4); x = read(a); }\r\nend\r\ninput f f.i0\r\ninput s f.i0\r\noutput f.o0 y\r\nfeed y 1\r\nfeed s -3\r\nbuild\r\nbuild\r\nrun\r\nrun\r\n",
            b"ok\nrefused 4 NameTaken\nok\nok\nrefused 7 NotLinked\nok\nbuilt 1 compiled 1\nbuilt 1 compiled 0\nstalled\nat f.i0 empty\nout y 1 4294967294\nstalled\nat f.i0 empty\nout y 1 4294967294\n",
            Status::SomeRefused,
        ),
        (
            b"op f soft\nvoid f(in a, out b) { }\nend\ninput s f.i0\noutput f.o0 y\nfeed s\nbuild\nrun\n",
            b"ok\nok\nok\nok\nbuilt 1 compiled 1\ndone\nout y 0\n",
            Status::Fine,
        ),
    ];
    for row in rows {
        let (status, sink, _) = run(&rt, row.0, 100_000, 4096, (0, 0))?;
        assert_eq!(rt; sink.bytes(), row.1);
        assert_eq!(rt; status, row.2);
    }
    Ok(())
}

/// The words of three reads and writes come out in rounds 12, 14 and 16, and two rounds later nothing is under way. A run that comes to
/// rest in its last allowed round is done.
#[test]
fn spends_its_rounds(rt: HostRuntime) -> Result<(), Fail> {
    let rows: [(u64, &[u8]); 4] = [
        (
            11,
            b"ok\nok\nok\nok\nbuilt 1 compiled 1\nspent 11\nout dst 0\n",
        ),
        (
            14,
            b"ok\nok\nok\nok\nbuilt 1 compiled 1\nspent 14\nout dst 2 6 7\n",
        ),
        (
            17,
            b"ok\nok\nok\nok\nbuilt 1 compiled 1\nspent 17\nout dst 3 6 7 0\n",
        ),
        (18, ADDED),
    ];
    for (rounds, want) in rows {
        let (status, sink, _) = run(&rt, ADD_ONE, rounds, 4096, (0, 0))?;
        assert_eq!(rt; status, Status::Fine);
        assert_eq!(rt; sink.bytes(), want);
    }
    Ok(())
}

/// As many rounds as are enough by the rule: with M links, D = 2 d + 2 and Q = M D + 1 they are 42 Q, for the 12 events, two entries and
/// one page of this run; in a tree of depth 4 with one upward link a switch M = 60, and in one of depth 3 with two M = 48.
#[test]
fn enough_rounds_are_enough(rt: HostRuntime) -> Result<(), Fail> {
    let (status, sink, _) = run(&rt, ADD_ONE, 25_242, 4096, (0, 0))?;
    assert_eq!(rt; status, Status::Fine);
    assert_eq!(rt; sink.bytes(), ADDED);
    let mut text = b"pages 3\npattern pp\n".to_vec(rt.alloc())?;
    text.extend_from_slice(ADD_ONE)?;
    let mut want = b"ok\nok\n".to_vec(rt.alloc())?;
    want.extend_from_slice(ADDED)?;
    let (status, sink, _) = run(&rt, text.as_slice(), 16_170, 4096, (0, 0))?;
    assert_eq!(rt; status, Status::Fine);
    assert_eq!(rt; sink.bytes(), want.as_slice());
    Ok(())
}

/// A loop that goes on for ever is spent after the allowed rounds, which its journal has, one by one.
#[test]
fn makes_all_allowed_rounds(rt: HostRuntime) -> Result<(), Fail> {
    let text =
        b"op f soft\nvoid f(in a, out b) { while (1) { } }\nend\ninput s f.i0\noutput f.o0 y\nfeed s 7\nbuild\nrun\n";
    let options = Options {
        rounds: 50,
        workers: 1,
    };
    let mut source = MemSource::new(text.to_vec(rt.alloc())?, Vec::new(rt.alloc()), 4096);
    let mut sink = MemSink::new(rt.alloc(), Vec::new(rt.alloc()), 1024)?;
    let mut bench = Bench::new(rt.alloc());
    let status = pld_plain(rt.alloc(), &options, &mut source, &mut sink, &mut bench);
    assert_eq!(rt; status, Status::Fine);
    let want: &[u8] = b"ok\nok\nok\nok\nbuilt 1 compiled 1\nspent 50\nout y 0\n";
    assert_eq!(rt; sink.bytes(), want);
    let record = bench.records.pop().ok_or("no record")?;
    let mut nets = 0u64;
    for k in 0..record.journal.len() {
        if let Some(Entry::Net(_)) = record.journal.get(k) {
            nets = nets.saturating_add(1);
        }
    }
    assert_eq!(rt; nets, 50u64);
    // The two entries of configuration are accepted in rounds 3 and 4, and from then on a Take and a Give stand before each Net.
    assert_eq!(rt; record.journal.len(), 142usize);
    assert_eq!(rt; bench.records.len(), 0usize);
    Ok(())
}

/// At a fault of the source all whole statements before were answered. Behind `quit` nothing is taken.
#[test]
fn adds_one_in_a_loop(rt: HostRuntime) -> Result<(), Fail> {
    let text = b"op inc soft
void inc(in a, out b) {
  int32_t i;
  int32_t x;
  while (i < 3) { x = read(a); write(b, x + 1); i = i + 1; }
}
end
input src inc.i0
output inc.o0 dst
feed src 5 6 4294967295
build
run
";
    let (status, sink, _) = run(&rt, text, 100_000, 4096, (0, 0))?;
    assert_eq!(rt; status, Status::Fine);
    assert_eq!(rt; sink.bytes(), ADDED);
    Ok(())
}

#[test]
fn waits_for_a_word(rt: HostRuntime) -> Result<(), Fail> {
    let text = b"op f soft
void f(in a, out b) { int32_t x; while (1) { x = read(a); write(b, x); } }
end
input s f.i0
output f.o0 y
feed s
build
run
";
    let (status, sink, _) = run(&rt, text, 100_000, 4096, (0, 0))?;
    assert_eq!(rt; status, Status::Fine);
    let replies: &[u8] = b"ok\nok\nok\nok\nbuilt 1 compiled 1\nstalled\nat f.i0 empty\nout y 0\n";
    assert_eq!(rt; sink.bytes(), replies);
    Ok(())
}

#[test]
fn stops_at_each_take(rt: HostRuntime) -> Result<(), Fail> {
    let rows: [(&[u8], usize, u64, &[u8], Status); 5] = [
        (ADD_ONE, 4096, 1, b"", Status::ReadFault),
        (ADD_ONE, 4096, 2, ADDED, Status::ReadFault),
        (ADD_ONE, 4096, 3, ADDED, Status::Fine),
        (ADD_ONE, OP + 20, 2, b"ok\nok\n", Status::ReadFault),
        (
            b"hello\nquit\nhello",
            12,
            2,
            b"refused 1 BadLine\n",
            Status::SomeRefused,
        ),
    ];
    for row in rows {
        let (status, sink, _) = run(&rt, row.0, 100_000, row.1, (row.2, 0))?;
        assert_eq!(rt; status, row.4);
        assert_eq!(rt; sink.bytes(), row.3);
    }
    Ok(())
}

/// A text of so many bytes: first this, then bytes `a`.
fn long_text(rt: &HostRuntime, first: &[u8], length: usize) -> Result<Vec<u8>, Fail>
    ensures { IfOk result (λ text. length ≤ vec_len text) }
{
    let mut text = first.to_vec(rt.alloc())?;
    let rest = vec![in rt.alloc(); b'a'; length]?;
    text.extend_from_slice(&rest[..length.saturating_sub(first.len())])?;
    Ok(text)
}

#[test]
fn ends_where_a_text_is_too_long(rt: HostRuntime) -> Result<(), Fail> {
    let rows: [(&[u8], usize, &[u8], Status); 5] = [
        (b"#", 16_777_216, b"", Status::Fine),
        (b"#", 16_777_217, b"", Status::TooLong),
        (
            b"hello\n#",
            16_777_217,
            b"refused 1 BadLine\n",
            Status::TooLong,
        ),
        (b"quit\n", 16_777_217, b"", Status::Fine),
        (
            b"hello\nquit\n",
            16_777_300,
            b"refused 1 BadLine\n",
            Status::SomeRefused,
        ),
    ];
    for row in rows {
        let text = long_text(&rt, row.0, row.1)?;
        let (status, sink, _) = run(&rt, text.as_slice(), 1, 4096, (0, 0))?;
        assert_eq!(rt; status, row.3);
        assert_eq!(rt; sink.bytes(), row.2);
    }
    Ok(())
}

/// A `quit` counts only where its line end is among the first 16,777,216 bytes.
#[test]
fn takes_a_quit_within_the_text(rt: HostRuntime) -> Result<(), Fail> {
    let rows: [(usize, Status); 2] = [(16_777_210, Status::Fine), (16_777_211, Status::TooLong)];
    for row in rows {
        let mut text = long_text(&rt, b"#", row.0)?;
        text.extend_from_slice(b"\nquit\n\n")?;
        let (status, sink, _) = run(&rt, text.as_slice(), 1, 4096, (0, 0))?;
        assert_eq!(rt; status, row.1);
        assert_eq!(rt; sink.bytes(), b"".as_slice());
    }
    Ok(())
}

#[test]
fn takes_one_command(rt: HostRuntime) -> Result<(), Fail> {
    let rows: [(&[&str], Status); 5] = [
        (&["plain"], Status::SomeRefused),
        (&[], Status::Usage),
        (&["work"], Status::Usage),
        (&["plain", "5"], Status::Usage),
        (&["plain", "--rounds", "0"], Status::Usage),
    ];
    for row in rows {
        let mut words = Vec::new(rt.alloc());
        for word in row.0 {
            words.push(String::from_str(rt.alloc(), word)?)?;
        }
        let no_fails = [0u64].to_vec(rt.alloc())?;
        let mut source = MemSource::new(b"hello".to_vec(rt.alloc())?, no_fails, 4096);
        let mut sink = MemSink::new(rt.alloc(), Vec::new(rt.alloc()), 1000)?;
        let mut bench = Bench::new(rt.alloc());
        let status = pld(
            &rt,
            rt.alloc(),
            words.as_slice(),
            &mut source,
            &mut sink,
            &OpenGate,
            &mut bench,
        );
        assert_eq!(rt; status, row.1);
        assert_eq!(rt; sink.bytes().is_empty(), status == Status::Usage);
    }
    Ok(())
}
