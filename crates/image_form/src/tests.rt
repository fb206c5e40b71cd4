//! Images written by hand, and bytes that are none.

use crate::{BadImage, ImageForm, image_bytes, read_image};
use pld_base::Refused;
use std::alloc::Global;
use std::test::Fail;

// `void f() { }`, compiled for the softcore.
const SOFT: [u8; 32] = [
    0x50, 0x4c, 0x44, 0x49, 0x53, 0, 0, 0, 5, 0, 0, 0, 0x37, 0x04, 0x02, 0, 0xb7, 0x04, 0, 0x80,
    0x37, 0x81, 0x02, 0, 0x13, 0x01, 0x01, 0x10, 0x73, 0, 0x10, 0,
];

// `void f() { }`, as a hardware page: 64 registers, and one state without micros that ends.
const HARD: [u8; 32] = [
    0x50, 0x4c, 0x44, 0x49, 0x48, 0, 0, 0, 0, 0, 0, 0, 0x40, 0, 0, 0, 1, 0, 0, 0, 0, 2, 0, 0, 0, 0,
    0, 0, 0, 0, 0, 0,
];

fn place(alloc: Global, bytes: &[u8]) -> Option<usize> {
    match read_image(alloc, bytes) {
        Err(Refused::Fault(BadImage { place })) => Some(place),
        Err(Refused::NoMemory) => None,
        Ok(_) => None,
    }
}

#[test]
fn reads_and_writes(rt: HostRuntime) -> Result<(), Fail> {
    let alloc = rt.alloc();
    let Ok(form) = read_image(alloc, &SOFT) else {
        return Err("no image".into());
    };
    match &form {
        ImageForm::Soft { ins, outs, code } => {
            assert_eq!(rt; *ins, 0);
            assert_eq!(rt; *outs, 0);
            assert_eq!(rt; code.len(), 5);
            assert_eq!(rt; code.get(4), Some(&0x0010_0073));
        }
        ImageForm::Hard { .. } => return Err("a table".into()),
    }
    let Ok(bytes) = image_bytes(alloc, &form) else {
        return Err("no memory".into());
    };
    assert_eq!(rt; bytes.as_slice(), SOFT.as_slice());
    Ok(())
}

#[test]
fn tells_the_first_bad_field(rt: HostRuntime) -> Result<(), Fail> {
    let alloc = rt.alloc();
    let mut bytes = Vec::from_slice(alloc, &SOFT)?;
    assert_eq!(rt; place(alloc, &bytes[..30]), Some(28));
    bytes.push(0)?;
    assert_eq!(rt; place(alloc, &bytes), Some(32));
    bytes[4] = 0x54;
    assert_eq!(rt; place(alloc, &bytes), Some(4));
    Ok(())
}

#[test]
fn reads_and_writes_a_table(rt: HostRuntime) -> Result<(), Fail> {
    let alloc = rt.alloc();
    let Ok(form) = read_image(alloc, &HARD) else {
        return Err("no image".into());
    };
    match &form {
        ImageForm::Hard { table } => {
            assert_eq!(rt; table.registers, 64);
            assert_eq!(rt; table.states.len(), 1);
        }
        ImageForm::Soft { .. } => return Err("code".into()),
    }
    let Ok(bytes) = image_bytes(alloc, &form) else {
        return Err("no memory".into());
    };
    assert_eq!(rt; bytes.as_slice(), HARD.as_slice());
    Ok(())
}
