use crate::{Appended, Log, append_by_two};
use fabric_lock::Told;
use std::test::Fail;

#[test]
fn two_threads_append_in_order(rt: HostRuntime) -> Result<(), Fail> {
    let log = Log {
        base: 7,
        entries: Vec::with_capacity(rt.alloc(), 200)?,
    };
    let Ok(all) = append_by_two(&rt, rt.alloc(), log) else {
        panic!(rt; "no memory")
    };
    assert_eq!(rt; *all.log.base(), 7);
    assert_eq!(rt; (all.by_first, all.by_second), (100, 100));
    assert_eq!(rt; all.log.told().len(), 200);
    for number in 0..2u16 {
        let mut count = 0u16;
        for entry in all.log.told() {
            if *entry / 256 == number {
                assert_eq!(rt; *entry % 256, count);
                count = count.wrapping_add(1);
            }
        }
        assert_eq!(rt; count, 100);
    }
    Ok(())
}
