//! The texts of the replies, written by hand.

use crate::{
    PlacedPage, Refusal, put_built, put_image, put_ok, put_refused, put_stats, put_tables,
};
use fabric_core::Counts;
use net_switch::Row;
use pld_base::{End, FaultKind, Kind, Limit, Name, PageId, PortNo, Side, SourceFault};
use pld_graph::{GraphFault, OpenPort};
use std::alloc::Global;
use std::test::Fail;

fn text_of(alloc: Global, number: u64, refusal: &Refusal) -> Option<Vec<u8>> {
    let mut reply = Vec::new(alloc);
    match put_refused(&mut reply, number, refusal) {
        Ok(()) => Some(reply),
        Err(_) => None,
    }
}

#[test]
fn faults_of_texts(rt: HostRuntime) -> Result<(), Fail> {
    let alloc = rt.alloc();
    for (kind, want) in [
        (FaultKind::BadToken, "refused 7 Source BadToken 3 14\n"),
        (
            FaultKind::LiteralTooLarge,
            "refused 7 Source LiteralTooLarge 3 14\n",
        ),
        (FaultKind::Syntax, "refused 7 Source Syntax 3 14\n"),
        (
            FaultKind::UnknownName,
            "refused 7 Source UnknownName 3 14\n",
        ),
        (FaultKind::NameTwice, "refused 7 Source NameTwice 3 14\n"),
        (FaultKind::WrongKind, "refused 7 Source WrongKind 3 14\n"),
        (
            FaultKind::WrongDirection,
            "refused 7 Source WrongDirection 3 14\n",
        ),
        (
            FaultKind::TooLarge(Limit::Text),
            "refused 7 Source TooLarge(Text) 3 14\n",
        ),
        (
            FaultKind::TooLarge(Limit::Ident),
            "refused 7 Source TooLarge(Ident) 3 14\n",
        ),
        (
            FaultKind::TooLarge(Limit::Tokens),
            "refused 7 Source TooLarge(Tokens) 3 14\n",
        ),
        (
            FaultKind::TooLarge(Limit::Nesting),
            "refused 7 Source TooLarge(Nesting) 3 14\n",
        ),
        (
            FaultKind::TooLarge(Limit::Nodes),
            "refused 7 Source TooLarge(Nodes) 3 14\n",
        ),
        (
            FaultKind::TooLarge(Limit::Scalars),
            "refused 7 Source TooLarge(Scalars) 3 14\n",
        ),
        (
            FaultKind::TooLarge(Limit::Arrays),
            "refused 7 Source TooLarge(Arrays) 3 14\n",
        ),
        (
            FaultKind::TooLarge(Limit::ArrayWords),
            "refused 7 Source TooLarge(ArrayWords) 3 14\n",
        ),
        (
            FaultKind::TooLarge(Limit::InPorts),
            "refused 7 Source TooLarge(InPorts) 3 14\n",
        ),
        (
            FaultKind::TooLarge(Limit::OutPorts),
            "refused 7 Source TooLarge(OutPorts) 3 14\n",
        ),
    ] {
        let fault = SourceFault {
            kind,
            line: 3,
            column: 14,
        };
        let Some(text) = text_of(alloc, 7, &Refusal::Source(fault)) else {
            return Err("no memory".into());
        };
        assert_eq!(rt; text.as_slice(), want.as_bytes());
    }
    Ok(())
}

#[test]
fn faults_of_designs(rt: HostRuntime) -> Result<(), Fail> {
    let alloc = rt.alloc();
    for (fault, want) in [
        (GraphFault::UnknownOperator, "refused 12 UnknownOperator\n"),
        (GraphFault::UnknownPort, "refused 12 UnknownPort\n"),
        (GraphFault::WrongDirection, "refused 12 WrongDirection\n"),
        (GraphFault::PortTaken, "refused 12 PortTaken\n"),
        (GraphFault::NameTaken, "refused 12 NameTaken\n"),
        (GraphFault::LeafTaken, "refused 12 LeafTaken\n"),
        (GraphFault::LeafRange, "refused 12 LeafRange\n"),
        (GraphFault::NotLinked, "refused 12 NotLinked\n"),
        (GraphFault::TooMany, "refused 12 TooMany\n"),
        (GraphFault::LevelCount, "refused 12 LevelCount\n"),
    ] {
        let Some(text) = text_of(alloc, 12, &Refusal::Graph(fault)) else {
            return Err("no memory".into());
        };
        assert_eq!(rt; text.as_slice(), want.as_bytes());
    }
    Ok(())
}

#[test]
fn other_refusals(rt: HostRuntime) -> Result<(), Fail> {
    let alloc = rt.alloc();
    let Some(op) = Name::of(b"inc") else {
        return Err("no name".into());
    };
    let open = |side, port| Refusal::OpenPort(OpenPort {
        end: End {
            op,
            side,
            port: PortNo(port),
        },
    });
    for (refusal, want) in [
        (Refusal::BadLine, "refused 1 BadLine\n"),
        (Refusal::TooManyWords, "refused 1 TooManyWords\n"),
        (Refusal::TooManyRuns, "refused 1 TooManyRuns\n"),
        (Refusal::Empty, "refused 1 Empty\n"),
        (open(Side::In, 0), "refused 1 OpenPort inc.i0\n"),
        (open(Side::Out, 7), "refused 1 OpenPort inc.o7\n"),
        (
            Refusal::TooFewPages {
                operators: 9,
                pages: 7,
            },
            "refused 1 TooFewPages 9 7\n",
        ),
        (Refusal::NotBuilt, "refused 1 NotBuilt\n"),
        (Refusal::NotRun, "refused 1 NotRun\n"),
    ] {
        let Some(text) = text_of(alloc, 1, &refusal) else {
            return Err("no memory".into());
        };
        assert_eq!(rt; text.as_slice(), want.as_bytes());
    }
    Ok(())
}

#[test]
fn replies_append(rt: HostRuntime) -> Result<(), Fail> {
    let alloc = rt.alloc();
    let Some(name) = Name::of(b"inc") else {
        return Err("no name".into());
    };
    let mut reply = Vec::new(alloc);
    let written = put_ok(&mut reply).is_ok()
        && put_built(&mut reply, 3, 2).is_ok()
        && put_image(&mut reply, &name, &[0x5a, 0x0f]).is_ok()
        && put_image(&mut reply, &name, &[]).is_ok();
    assert!(rt; written);
    assert_eq!(rt;
        reply.as_slice(),
        b"ok\nbuilt 3 compiled 2\nimage inc 2 5a0f\nimage inc 0 \n".as_slice()
    );
    Ok(())
}

#[test]
fn counts_of_a_run(rt: HostRuntime) -> Result<(), Fail> {
    let counts = Counts {
        rounds: 120,
        packets: 3400,
        deflected: 18446744073709551615,
        configs: 0,
    };
    let mut reply = Vec::new(rt.alloc());
    assert!(rt; put_stats(&mut reply, counts).is_ok());
    assert_eq!(rt;
        reply.as_slice(),
        b"stats rounds 120 packets 3400 deflected 18446744073709551615 configs 0\n".as_slice()
    );
    Ok(())
}

const TABLES: &str = "page 5 inc soft
page 63 dec hard
row 0 o0 5 i1
row 5 o2 63 i7
row 5 i1 0 o0
row 63 i7 5 o2
";

#[test]
fn tables_of_two_pages(rt: HostRuntime) -> Result<(), Fail> {
    let alloc = rt.alloc();
    let (Some(inc), Some(dec)) = (Name::of(b"inc"), Name::of(b"dec")) else {
        return Err("no name".into());
    };
    let page = |leaf, name, kind| PlacedPage {
        leaf: PageId(leaf),
        name,
        kind,
    };
    let row = |leaf, port| Some(Row {
        leaf: PageId(leaf),
        port: PortNo(port),
    });
    let pages = [page(63, dec, Kind::Hard), page(5, inc, Kind::Soft)];
    let mut rows = vec![in alloc; None; 1024]?;
    rows[0] = row(5, 1);
    rows[82] = row(63, 7);
    rows[89] = row(0, 0);
    rows[1023] = row(5, 2);
    let mut reply = Vec::new(alloc);
    assert!(rt; put_tables(&mut reply, &pages, &rows).is_ok());
    assert_eq!(rt; reply.as_slice(), TABLES.as_bytes());
    Ok(())
}

// The bytes 0x00 to 0xff.
const ROWS: [&str; 16] = [
    "000102030405060708090a0b0c0d0e0f",
    "101112131415161718191a1b1c1d1e1f",
    "202122232425262728292a2b2c2d2e2f",
    "303132333435363738393a3b3c3d3e3f",
    "404142434445464748494a4b4c4d4e4f",
    "505152535455565758595a5b5c5d5e5f",
    "606162636465666768696a6b6c6d6e6f",
    "707172737475767778797a7b7c7d7e7f",
    "808182838485868788898a8b8c8d8e8f",
    "909192939495969798999a9b9c9d9e9f",
    "a0a1a2a3a4a5a6a7a8a9aaabacadaeaf",
    "b0b1b2b3b4b5b6b7b8b9babbbcbdbebf",
    "c0c1c2c3c4c5c6c7c8c9cacbcccdcecf",
    "d0d1d2d3d4d5d6d7d8d9dadbdcdddedf",
    "e0e1e2e3e4e5e6e7e8e9eaebecedeeef",
    "f0f1f2f3f4f5f6f7f8f9fafbfcfdfeff",
];

#[test]
fn all_bytes(rt: HostRuntime) -> Result<(), Fail> {
    let alloc = rt.alloc();
    let Some(name) = Name::of(b"all") else {
        return Err("no name".into());
    };
    let mut bytes = Vec::new(alloc);
    for byte in 0..=255u8 {
        bytes.push(byte)?;
    }
    let mut want = Vec::from_slice(alloc, b"image all 256 ")?;
    for row in ROWS {
        want.extend_from_slice(row.as_bytes())?;
    }
    want.push(b'\n')?;
    let mut reply = Vec::new(alloc);
    assert!(rt; put_image(&mut reply, &name, &bytes).is_ok());
    assert_eq!(rt; reply.as_slice(), want.as_slice());
    Ok(())
}
