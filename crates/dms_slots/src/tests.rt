use crate::{free_slot, per_block, read_slot, take_least, write_slot};
use dms_base::{ItemKind, Name, StructureKind, Value};
use dms_block::{BlockId, Blocks, Overlay};
use dms_desc::{
    Cond, Groups, Item, Items, KeyParts, Record, Structure, Values, file_of, values_fit,
};
use dms_layout::{Slot, slot_width};
use dms_memblocks::MemBlocks;
use std::alloc::Global;
use std::process::Abort;

// `D DATA SET (X NUMBER(4);) POPULATION 2;`
fn data_set(rt: &(impl AllocGlobal + Abort)) -> Structure {
    let mut items = Items::new(rt.alloc());
    items
        .push(Item {
            name: Name::read(b"X").expect(rt, "name"),
            kind: ItemKind::Number(4, 0, false),
            required: false,
            initial: Value::Null,
        })
        .expect(rt, "memory");
    Structure {
        number: 1,
        kind: StructureKind::DataSet,
        name: Name::read(b"D").expect(rt, "name"),
        owner: 0,
        population: 2,
        items,
        groups: Groups::new(rt.alloc()),
        cond: Cond::Nothing,
        set: 0,
        form: None,
        duplicates: false,
        parts: KeyParts::new(rt.alloc()),
    }
}

fn record(rt: &(impl AllocGlobal + Abort), x: i64) -> Slot {
    let mut values = Values::new(rt.alloc());
    values.push(Value::Number(x)).expect(rt, "memory");
    Slot {
        rec: Record { owner: 0, values },
        counted: 0,
        owned: 0,
    }
}

// Writes the slot of a record, or frees it; false where that fails or the blocks have no place for it.
fn put(
    b: &mut Overlay<MemBlocks>,
    alloc: Global,
    s: &Structure,
    number: u64,
    slot: Option<&Slot>,
) -> bool {
    let items = s.items.as_slice();
    if items.len() > 60 || slot_width(items) > 1024 || number == 0 || number > 1_000_000 {
        return false;
    }
    if s.number == 0 || s.number as usize > b.below.files.len() {
        return false;
    }
    if (number - 1) / per_block(s) as u64 > u64::from(b.count(file_of(s.number))) {
        return false;
    }
    match slot {
        None => free_slot(b, alloc, s, number).is_ok(),
        Some(slot) => {
            if !values_fit(items, slot.rec.values.as_slice()) {
                return false;
            }
            write_slot(b, alloc, s, number, slot).is_ok()
        }
    }
}

// The least free number, 0 for none.
fn least(rt: &(impl AllocGlobal + Abort), b: &mut Overlay<MemBlocks>, s: &Structure) -> u64 {
    let items = s.items.as_slice();
    assert!(rt; items.len() <= 60);
    assert!(rt; slot_width(items) <= 1024);
    match take_least(b, rt.alloc(), s) {
        Ok(Some(number)) => number,
        Ok(None) => 0,
        Err(_) => 99,
    }
}

// The value in the slot of a record, -1 where it is free.
fn value(
    rt: &(impl AllocGlobal + Abort),
    b: &mut Overlay<MemBlocks>,
    s: &Structure,
    number: u64,
) -> i64 {
    let items = s.items.as_slice();
    assert!(rt; items.len() <= 60);
    assert!(rt; slot_width(items) <= 1024);
    assert!(rt; number >= 1);
    match read_slot(b, rt.alloc(), s, number) {
        Ok(Some(slot)) => match slot.rec.values.as_slice() {
            [Value::Number(n)] => *n,
            _ => -2,
        },
        Ok(None) => -1,
        Err(_) => -3,
    }
}

#[test]
fn stores_frees_and_counts(rt: HostRuntime) {
    let alloc = rt.alloc();
    let blocks = MemBlocks::new(alloc, 1).expect(&rt, "memory");
    let mut b = Overlay::new(alloc, blocks);
    let s = data_set(&rt);
    assert_eq!(rt; least(&rt, &mut b, &s), 1);
    assert!(rt; put(&mut b, alloc, &s, 1, Some(&record(&rt, 7))));
    assert_eq!(rt; b.count(30_001), 1);
    let id = BlockId {
        file: 30_001,
        block: 0,
    };
    if id.block < b.count(id.file) {
        let block = b.read(alloc, id).expect(&rt, "block");
        assert_eq!(rt;
            &block.0[..22],
            [
                1, 0, 0, 0, 0, 0, 0, 0, 0, 0, 0, 0, 0, 1, 0x80, 0, 0, 0, 0, 0, 0, 7
            ]
            .as_slice()
        );
        assert!(rt; block.0[22..].iter().all(|byte| *byte == 0));
    }
    assert_eq!(rt; value(&rt, &mut b, &s, 1), 7);
    assert_eq!(rt; value(&rt, &mut b, &s, 2), -1);
    assert_eq!(rt; least(&rt, &mut b, &s), 2);
    assert!(rt; put(&mut b, alloc, &s, 2, Some(&record(&rt, 9))));
    assert_eq!(rt; least(&rt, &mut b, &s), 0);
    assert!(rt; put(&mut b, alloc, &s, 1, None));
    assert_eq!(rt; value(&rt, &mut b, &s, 1), -1);
    assert_eq!(rt; value(&rt, &mut b, &s, 2), 9);
    assert_eq!(rt; least(&rt, &mut b, &s), 1);
}
