use crate::Pool;
use dms_block::{Block, BlockId};

fn id(block: u32) -> BlockId {
    BlockId { file: 1, block }
}

/// Holds a block where there is room.
fn hold(pool: &mut Pool, block: u32, dirty: bool) -> bool {
    pool.room() && pool.put(id(block), &Block([7; 1024]), dirty).is_ok()
}

#[test]
fn holds_at_most_its_frames(rt: HostRuntime) {
    let mut pool = Pool::new(rt.alloc(), 2).expect(&rt, "memory");
    assert!(rt; hold(&mut pool, 1, true));
    assert!(rt; hold(&mut pool, 2, false));
    assert!(rt; !hold(&mut pool, 3, false));
    assert!(rt; pool.get(id(1)).is_some());
    assert!(rt; pool.get(id(3)).is_none());
    assert_eq!(rt; pool.dirty(), Some(id(1)));
    pool.clean(id(1));
    assert_eq!(rt; pool.dirty(), None);
    let (out, block, dirty) = pool.evict().expect(&rt, "one");
    assert_eq!(rt; out, id(2));
    assert_eq!(rt; block.0[0], 7);
    assert!(rt; !dirty);
    assert!(rt; pool.room());
}
