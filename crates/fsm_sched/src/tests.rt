//! A block's states, worked out by hand.

use super::*;
use fsm_core::{Micro, MicroOp};
use std::test::Fail;

fn three(op: MicroOp, t: u16, a: u16, b: u16) -> Micro {
    Micro {
        op,
        unit: 0,
        t,
        a,
        b,
        value: 0,
    }
}

fn set(t: u16, value: u32) -> Micro {
    Micro {
        op: MicroOp::Set,
        unit: 0,
        t,
        a: 0,
        b: 0,
        value,
    }
}

// write(b, (x + 1) * (x + 2)); with x in register 0
#[test]
fn a_product_of_sums(rt: HostRuntime) -> Result<(), Fail> {
    let one = set(64, 1);
    let first = three(MicroOp::Add, 65, 0, 64);
    let two = set(66, 2);
    let second = three(MicroOp::Add, 67, 0, 66);
    let product = three(MicroOp::Mul, 68, 65, 67);
    let write = three(MicroOp::Write, 0, 68, 0);
    let block = [one, first, two, second, product, write];
    let states = schedule(rt.alloc(), &block)?;
    assert_eq!(rt; states.len(), 4);
    let sets: &[Micro] = &[one, two];
    let sums: &[Micro] = &[first, second];
    let products: &[Micro] = &[product];
    let writes: &[Micro] = &[write];
    assert_eq!(rt; states[0].as_slice(), sets);
    assert_eq!(rt; states[1].as_slice(), sums);
    assert_eq!(rt; states[2].as_slice(), products);
    assert_eq!(rt; states[3].as_slice(), writes);
    Ok(())
}

// A block without micros has one empty state.
#[test]
fn an_empty_block(rt: HostRuntime) -> Result<(), Fail> {
    let states = schedule(rt.alloc(), &[])?;
    assert_eq!(rt; states.len(), 1);
    assert_eq!(rt; states[0].is_empty(), true);
    Ok(())
}
