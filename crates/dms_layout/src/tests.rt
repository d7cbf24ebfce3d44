use crate::{Slot, SlotRead, from_slot, to_slot};
use dms_base::{ItemKind, Name, StructureKind, Text, Value};
use dms_desc::{Cond, Groups, Item, Items, KeyParts, Record, Structure, Values};
use std::process::Abort;

fn add(rt: &impl Abort, items: &mut Items, kind: ItemKind) {
    let name = Name::read(b"X").expect(rt, "name");
    let initial = Value::Null;
    items
        .push(Item {
            name,
            kind,
            required: false,
            initial,
        })
        .expect(rt, "memory");
}

// A data set with these items, in the data set with the number of its owner.
fn data_set(rt: &(impl AllocGlobal + Abort), owner: u16, items: Items) -> Structure {
    Structure {
        number: 2,
        kind: StructureKind::DataSet,
        name: Name::read(b"D").expect(rt, "name"),
        owner,
        population: 100,
        items,
        groups: Groups::new(rt.alloc()),
        cond: Cond::Nothing,
        set: 0,
        form: None,
        duplicates: false,
        parts: KeyParts::new(rt.alloc()),
    }
}

fn numbers(rt: &(impl AllocGlobal + Abort)) -> Structure {
    let mut items = Items::new(rt.alloc());
    add(rt, &mut items, ItemKind::Number(4, 0, false));
    data_set(rt, 0, items)
}

fn spells(rt: &(impl AllocGlobal + Abort), desc: &Structure, slot: &Slot, want: &[u8]) {
    let bytes = to_slot(rt.alloc(), desc, slot).expect(rt, "memory");
    assert_eq!(rt; bytes.as_slice(), want);
}

// What the bytes of a slot of a number say: free, the number, or bad.
fn word(rt: &(impl AllocGlobal + Abort), bytes: &[u8]) -> i64 {
    match from_slot(rt.alloc(), &numbers(rt), bytes).expect(rt, "memory") {
        SlotRead::Free => -1,
        SlotRead::Bad => -2,
        SlotRead::Used(slot) => match slot.rec.values.as_slice() {
            [Value::Number(n)] => *n,
            _ => -3,
        },
    }
}

#[test]
fn slots_as_the_format_has_them(rt: HostRuntime) {
    let mut values = Values::new(rt.alloc());
    values.push(Value::Number(7)).expect(&rt, "memory");
    let slot = Slot {
        rec: Record { owner: 0, values },
        counted: 0,
        owned: 0,
    };
    let seven = [
        1, 0, 0, 0, 0, 0, 0, 0, 0, 0, 0, 0, 0, 1, 0x80, 0, 0, 0, 0, 0, 0, 7u8,
    ];
    spells(&rt, &numbers(&rt), &slot, &seven);
    assert!(rt; word(&rt, &seven) == 7);
    let mut items = Items::new(rt.alloc());
    add(&rt, &mut items, ItemKind::Alpha(3));
    add(&rt, &mut items, ItemKind::Bool);
    add(&rt, &mut items, ItemKind::Link(1, true));
    let text = Text::read(rt.alloc(), b"A")
        .expect(&rt, "memory")
        .expect(&rt, "text");
    let mut values = Values::new(rt.alloc());
    values.push(Value::Text(text)).expect(&rt, "memory");
    values.push(Value::Null).expect(&rt, "memory");
    values.push(Value::Link(258)).expect(&rt, "memory");
    let slot = Slot {
        rec: Record { owner: 5, values },
        counted: 1,
        owned: 2,
    };
    let want = [
        1, 0, 0, 0, 5, 0, 0, 0, 1, 0, 0, 0, 2, 1, 0x41, 0x20, 0x20, 0xff, 0xff, 1, 0, 0, 1, 2u8,
    ];
    spells(&rt, &data_set(&rt, 1, items), &slot, &want);
}

#[test]
fn what_is_free_and_what_is_bad(rt: HostRuntime) {
    assert!(rt; word(&rt, &[0; 22]) == -1);
    assert!(rt; word(&rt, &[0; 21]) == -2);
    // no byte for the state
    assert!(rt;
        word(
            &rt,
            &[
                0, 0, 0, 0, 0, 0, 0, 0, 0, 0, 0, 0, 0, 1, 0x80, 0, 0, 0, 0, 0, 0, 7
            ]
        ) == -2
    );
    // an owner of a record that has none
    assert!(rt;
        word(
            &rt,
            &[
                1, 0, 0, 0, 1, 0, 0, 0, 0, 0, 0, 0, 0, 1, 0x80, 0, 0, 0, 0, 0, 0, 7
            ]
        ) == -2
    );
    // a number of five digits in an item of four
    assert!(rt;
        word(
            &rt,
            &[
                1, 0, 0, 0, 0, 0, 0, 0, 0, 0, 0, 0, 0, 1, 0x80, 0, 0, 0, 0, 0, 0x27, 0x10
            ]
        ) == -2
    );
    // a null with another byte than 255
    assert!(rt;
        word(
            &rt,
            &[
                1, 0, 0, 0, 0, 0, 0, 0, 0, 0, 0, 0, 0, 255, 255, 255, 255, 255, 255, 255, 255, 0
            ]
        ) == -2
    );
}
