use crate::{key_bytes, max_key};
use dms_base::{ItemKind, Text, Value};
use dms_desc::KeyPart;
use std::process::Abort;

const NUMBER: ItemKind = ItemKind::Number(8, 0, true);

// What a key of one part has as bytes.
fn spells(
    rt: &(impl AllocGlobal + Abort),
    kind: ItemKind,
    descending: bool,
    value: Value,
    want: &[u8],
) {
    let parts = [KeyPart {
        item: 1,
        descending,
    }];
    let values = [value];
    let key = key_bytes(rt.alloc(), &parts, &[kind], &values).expect(rt, "memory");
    assert_eq!(rt; key.as_slice(), want);
}

fn text(rt: &(impl AllocGlobal + Abort), bytes: &[u8]) -> Value {
    Value::Text(
        Text::read(rt.alloc(), bytes)
            .expect(rt, "memory")
            .expect(rt, "text"),
    )
}

#[test]
fn keys_as_the_format_has_them(rt: HostRuntime) {
    spells(
        &rt,
        NUMBER,
        false,
        Value::Number(7),
        &[0x01, 0x80, 0, 0, 0, 0, 0, 0, 0x07],
    );
    spells(
        &rt,
        NUMBER,
        true,
        Value::Number(7),
        &[0xfe, 0x7f, 0xff, 0xff, 0xff, 0xff, 0xff, 0xff, 0xf8],
    );
    spells(
        &rt,
        NUMBER,
        false,
        Value::Number(-1),
        &[0x01, 0x7f, 0xff, 0xff, 0xff, 0xff, 0xff, 0xff, 0xff],
    );
    spells(
        &rt,
        ItemKind::Alpha(3),
        false,
        text(&rt, b"A"),
        &[0x01, 0x41, 0x20, 0x20],
    );
    spells(
        &rt,
        ItemKind::Alpha(2),
        false,
        Value::Null,
        &[0xff, 0xff, 0xff],
    );
    spells(&rt, ItemKind::Alpha(2), true, Value::Null, &[0, 0, 0]);
    spells(&rt, ItemKind::Bool, false, Value::Bool(true), &[0x01, 0x01]);
    spells(
        &rt,
        ItemKind::Field(9),
        false,
        Value::Bits(258),
        &[0x01, 0, 0, 0, 0, 0, 0, 0x01, 0x02],
    );
    spells(
        &rt,
        ItemKind::Link(1, true),
        false,
        Value::Link(258),
        &[0x01, 0, 0, 0x01, 0x02],
    );
}

#[test]
fn the_first_values_begin_a_key(rt: HostRuntime) {
    let parts = [
        KeyPart {
            item: 2,
            descending: true,
        },
        KeyPart {
            item: 1,
            descending: false,
        },
    ];
    let kinds = [NUMBER, ItemKind::Alpha(2)];
    let first = [text(&rt, b"AB")];
    let key = key_bytes(rt.alloc(), &parts, &kinds, &first).expect(&rt, "memory");
    assert_eq!(rt; key.as_slice(), [0xfe, 0xbe, 0xbd].as_slice());
    assert_eq!(rt; max_key(&parts, &kinds), 12);
}
