ghost use Rattle.std.specs.Prelude.{[], ⊤, false, true};
ghost use Rattle.std.proofs.lemmas.Bool.{false≢true};

use dms_base::{ItemKind, Name, Op, SetForm, StructureKind, Text, Value};
use dms_desc::{
    Bound, Cond, Description, Groups, Item, Items, KeyPart, KeyParts, Record, Structure,
    Structures, Values,
};
use dms_model::{Put, Spot, Store, has_structure, is_data_set, is_numbered, record_fits};
use dms_plain::PlainStore;
use dms_site::{Failed, Site};
use std::alloc::Global;
use std::process::Abort;

/// A site without files that keeps its text.
#[derive(Drop)]
struct Paper {
    text: Vec<u8>,
    say_faults: u64,
}

impl Site for Paper {
    ghost tells = { false };

    ghost tells_said = { true };

    ghost files = { λ s f. [] };

    ghost said = { λ s. s.text.items };

    ghost clock = { λ s. record { now = 0; left = λ t x. ⊥ } };

    ghost same_site = { λ a b. ⊤ };

    ghost same_again = { λ s. tt };

    ghost same_then = { λ r s t one two. tt };

    ghost disk_faults = { λ s. 0 };

    ghost say_faults = { λ s. s.say_faults };

    ghost may_stay = { λ s tells. absurd (false≢true tells) };

    ghost now_said = { λ s x tells now. absurd now };

    ghost counts_now = { λ s t x le now. now };

    fn length(&mut self, _file: u32) -> Result<u64, Failed> {
        Ok(0)
    }

    fn last_present(&mut self, _from: u32, _upto: u32) -> Result<u32, Failed> {
        Ok(0)
    }

    fn read(&mut self, _file: u32, _at: u64, _into: &mut [u8]) -> Result<usize, Failed> {
        Ok(0)
    }

    fn write_at(&mut self, _file: u32, _at: u64, _bytes: &[u8]) -> Result<(), Failed> {
        Ok(())
    }

    fn cut(&mut self, _file: u32, _len: u64) -> Result<(), Failed> {
        Ok(())
    }

    fn sync(&mut self) -> Result<(), Failed> {
        Ok(())
    }

    fn say(&mut self, bytes: &[u8]) -> Result<(), Failed> {
        if self.text.extend_from_slice(bytes).is_err() {
            self.say_faults = self.say_faults.saturating_add(1);
            return Err(Failed);
        }
        Ok(())
    }

    fn show(&mut self, _done: u64, _of: u64) {}
}

fn items(rt: &(impl AllocGlobal + Abort)) -> Items {
    let mut items = Items::new(rt.alloc());
    for (name, kind) in [
        (b"A", ItemKind::Number(5, 0, true)),
        (b"B", ItemKind::Alpha(10)),
        (b"L", ItemKind::Link(1, false)),
    ] {
        let item = Item {
            name: Name::read(name).expect(rt, "name"),
            kind,
            required: false,
            initial: Value::Null,
        };
        assert!(rt; items.push(item).is_ok());
    }
    items
}

fn structure(
    rt: &(impl AllocGlobal + Abort),
    number: u16,
    kind: StructureKind,
    cond: Cond,
    duplicates: bool,
    keys: &[(u8, bool)],
) -> Structure {
    let mut parts = KeyParts::new(rt.alloc());
    for (item, descending) in keys {
        let part = KeyPart {
            item: *item,
            descending: *descending,
        };
        assert!(rt; parts.push(part).is_ok());
    }
    Structure {
        number,
        kind,
        name: Name::read(b"D").expect(rt, "name"),
        owner: 0,
        population: 3,
        items: items(rt),
        groups: Groups::new(rt.alloc()),
        cond,
        set: 1,
        form: Some(SetForm::IndexSequential),
        duplicates,
        parts,
    }
}

/// A data set of items A and B and a link L, a set by A with no duplicates, and the subset of A above 100 by B
/// descending and A.
fn description(rt: &(impl AllocGlobal + Abort)) -> Description {
    let mut structures = Structures::new(rt.alloc());
    let over = Cond::Compare(1, Op::Greater, Value::Number(100));
    for made in [
        structure(rt, 1, StructureKind::DataSet, Cond::Nothing, true, &[]),
        structure(
            rt,
            2,
            StructureKind::Set,
            Cond::Nothing,
            false,
            &[(1, false)],
        ),
        structure(
            rt,
            3,
            StructureKind::AutomaticSubset,
            over,
            true,
            &[(2, true), (1, false)],
        ),
    ] {
        assert!(rt; structures.push(made).is_ok());
    }
    Description {
        syncpoint: 1,
        controlpoint: 1,
        buffers: 8,
        blocks: 8,
        files: 2,
        structures,
    }
}

fn store(rt: &(impl AllocGlobal + Abort)) -> PlainStore<Paper> {
    let site = Paper {
        text: Vec::new(rt.alloc()),
        say_faults: 0,
    };
    match PlainStore::new(rt.alloc(), &description(rt), site) {
        Ok(store) => store,
        Err(_) => panic!(rt; "store"),
    }
}

fn record(rt: &(impl AllocGlobal + Abort), a: Value, b: &[u8]) -> Record {
    let mut values = Values::new(rt.alloc());
    let text = Text::read(rt.alloc(), b).expect(rt, "memory");
    assert!(rt; values.push(a).is_ok());
    assert!(rt; values.push(Value::Text(text.expect(rt, "text"))).is_ok());
    assert!(rt; values.push(Value::Link(9)).is_ok());
    Record { owner: 0, values }
}

fn put(
    rt: &(impl AllocGlobal + Abort),
    store: &mut PlainStore<Paper>,
    number: Option<u64>,
    a: Value,
    b: &[u8],
) -> Put {
    let rec = record(rt, a, b);
    assert!(rt; is_data_set(store.description(), 1));
    assert!(rt; is_numbered(store.description(), 1, number));
    assert!(rt; record_fits(store.description(), 1, &rec));
    store.put(rt.alloc(), 1, number, &rec).expect(rt, "put")
}

fn number_of(spot: Option<Spot>) -> u64 {
    match spot {
        None => 0,
        Some(spot) => spot.number,
    }
}

fn first(
    rt: &(impl AllocGlobal + Abort),
    store: &mut PlainStore<Paper>,
    path: u16,
    from: &Bound,
) -> u64 {
    assert!(rt; has_structure(store.description(), path));
    number_of(
        store
            .first_from(rt.alloc(), path, 0, from)
            .expect(rt, "first"),
    )
}

fn last(
    rt: &(impl AllocGlobal + Abort),
    store: &mut PlainStore<Paper>,
    path: u16,
    upto: &Bound,
) -> u64 {
    assert!(rt; has_structure(store.description(), path));
    number_of(store.last_to(rt.alloc(), path, 0, upto).expect(rt, "last"))
}

/// Records 1 and 2 stand at the last quiet point, record 3 came since.
fn filled(rt: &(impl AllocGlobal + Abort)) -> PlainStore<Paper> {
    let mut store = store(rt);
    assert_eq!(rt;
        put(rt, &mut store, None, Value::Number(200), b"x"),
        Put::Stored(1)
    );
    assert_eq!(rt;
        put(rt, &mut store, None, Value::Number(50), b"y"),
        Put::Stored(2)
    );
    assert_eq!(rt; store.quiet().expect(rt, "quiet"), 1);
    assert_eq!(rt;
        put(rt, &mut store, None, Value::Number(300), b"z"),
        Put::Stored(3)
    );
    store
}

#[test]
fn refuses_duplicates_before_a_full_data_set(rt: HostRuntime) {
    let mut store = filled(&rt);
    assert_eq!(rt;
        put(&rt, &mut store, None, Value::Number(200), b"z"),
        Put::Duplicate(2)
    );
    assert_eq!(rt;
        put(&rt, &mut store, None, Value::Number(400), b"z"),
        Put::Full
    );
    assert_eq!(rt;
        put(&rt, &mut store, Some(2), Value::Number(50), b"w"),
        Put::Stored(2)
    );
}

#[test]
fn finds_by_key_and_condition(rt: HostRuntime) {
    let mut store = filled(&rt);
    assert_eq!(rt; first(&rt, &mut store, 2, &Bound::Start), 2);
    assert_eq!(rt; last(&rt, &mut store, 2, &Bound::End), 3);
    assert_eq!(rt; first(&rt, &mut store, 3, &Bound::Start), 3);
    assert_eq!(rt; last(&rt, &mut store, 3, &Bound::End), 1);
}

#[test]
fn null_stands_above_every_value_and_equals_null(rt: HostRuntime) {
    let mut store = store(&rt);
    assert_eq!(rt;
        put(&rt, &mut store, None, Value::Null, b"x"),
        Put::Stored(1)
    );
    assert_eq!(rt;
        put(&rt, &mut store, None, Value::Number(-5), b"y"),
        Put::Stored(2)
    );
    assert_eq!(rt;
        put(&rt, &mut store, None, Value::Null, b"z"),
        Put::Duplicate(2)
    );
    assert_eq!(rt; last(&rt, &mut store, 2, &Bound::End), 1);
    assert_eq!(rt; first(&rt, &mut store, 3, &Bound::Start), 0);
}

#[test]
fn goes_on_from_a_bound(rt: HostRuntime) {
    let mut store = filled(&rt);
    assert!(rt; has_structure(store.description(), 3));
    let spot = store
        .first_from(rt.alloc(), 3, 0, &Bound::Start)
        .expect(&rt, "first")
        .expect(&rt, "one");
    let after = Bound::At(spot.key, spot.number);
    assert_eq!(rt; first(&rt, &mut store, 3, &after), 1);
    assert_eq!(rt; last(&rt, &mut store, 3, &after), 0);
    let mut key = Values::new(rt.alloc());
    assert!(rt; key.push(Value::Number(60)).is_ok());
    assert_eq!(rt; first(&rt, &mut store, 2, &Bound::From(key)), 1);
}

/// The number A of a record whose link is null; 0 where there is none.
fn shown(rt: &(impl AllocGlobal + Abort), store: &mut PlainStore<Paper>, number: u64) -> i64 {
    assert!(rt; is_data_set(store.description(), 1));
    match store.get(rt.alloc(), 1, number).expect(rt, "get") {
        None => 0,
        Some(kept) => match kept.values.as_slice() {
            [Value::Number(a), _, Value::Null] => *a,
            _ => -1,
        },
    }
}

#[test]
fn goes_back_to_the_last_quiet_point(rt: HostRuntime) {
    let mut store = filled(&rt);
    assert_eq!(rt;
        put(&rt, &mut store, Some(1), Value::Number(10), b"q"),
        Put::Stored(1)
    );
    assert_eq!(rt; shown(&rt, &mut store, 1), 10);
    assert!(rt; store.back_out(rt.alloc()).is_ok());
    assert_eq!(rt; shown(&rt, &mut store, 1), 200);
    assert_eq!(rt; shown(&rt, &mut store, 3), 0);
    assert_eq!(rt; shown(&rt, &mut store, 0), 0);
    assert_eq!(rt; shown(&rt, &mut store, 4), 0);
    assert_eq!(rt; store.quiet().expect(&rt, "quiet"), 2);
}

#[test]
fn prints_on_its_site(rt: HostRuntime) {
    let mut store = store(&rt);
    assert!(rt; store.say(b"text").is_ok());
    assert!(rt; store.sync().is_ok());
    assert_eq!(rt; store.into_site().text.as_slice(), b"text".as_slice());
}
