//! A leaf's words, out of order.

ghost use Rattle.std.specs.Prelude.{◌≡◌, ◌+◌};
ghost use Rattle.net_switch.specs.declared.packet.Body.TheVariants.{Data};

use crate::Leaf;
use net_switch::{Body, Packet, Row, Stamp};
use pld_base::{PageId, PortNo, RoundNo};
use std::test::Fail;

// A packet for in-port 0 of leaf 1. The word is 100 more than its number.
fn word(number: u8) -> Packet
    ensures to { result.to.0 ≡ 1 }
    ensures body { result.body ≡ Data (record { 0 = 0 }) number (100 + number) }
{
    Packet {
        stamp: Stamp {
            round: RoundNo(3),
            source: PageId(0),
        },
        to: PageId(1),
        body: Body::Data(PortNo(0), number, 100 + number as u32),
    }
}

#[test]
fn reads_in_the_order_of_numbers(rt: HostRuntime) -> Result<(), Fail> {
    let port = PortNo(0);
    let mut leaf = Leaf::new(rt.alloc(), PageId(1), 16)?;
    let row = Row {
        leaf: PageId(0),
        port,
    };
    leaf.set_row(8, Some(row));
    for number in 1..16u8 {
        leaf.accept(word(number));
        assert_eq!(rt; leaf.read(port), None);
    }
    leaf.accept(word(0));
    for number in 0..16u32 {
        assert_eq!(rt; leaf.read(port), Some(100 + number));
    }
    assert_eq!(rt; leaf.read(port), None);
    Ok(())
}
