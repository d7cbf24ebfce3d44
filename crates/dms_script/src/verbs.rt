ghost use Rattle.dms_desc.specs.Shape.{shape_of, as_described};
ghost use Rattle.dms_script.specs.Reads.{LineTakes, LinePasses};
ghost use Rattle.dms_script.specs.Verbs.{open_at, close_at, first_at, last_at, next_at, prior_at, current_at, via_at, member_at, onward_at, path_at, find_at, lock_at, modify_at, free_at, record_at, create_at, store_at, delete_at, insert_at, remove_at, referent_at, assign_at, put_at, all_shown_at, get_at, mode_at, begin_at, sync_at, finish_at, abort_at, transaction_at, change_at, area_at, verb_at, close_line_at};

use crate::expect::{expect_end, expect_sign, expect_word, read_link, read_structure};
use crate::fault::Fault;
use crate::look::{Wanted, push_numbers, whole_run};
use crate::shown::{key_literals, settings, shown_items};
use dms_desc::{Description, Structure};
use dms_model::{ItemNumbers, Path, Verb};
use dms_tokens::Cursor;

/// OPEN UPDATE, OPEN INQUIRY
#[tactic(auto, unfolding(crate::specs::Verbs::open_at))]
fn open(cursor: &mut Cursor<'_>) -> Result<Verb, Fault>
    ensures { LineTakes result cursor.new (open_at cursor.old) }
{
    expect_word(cursor, b"OPEN")?;
    if cursor.starts_word(b"UPDATE") {
        expect_word(cursor, b"UPDATE")?;
        return Ok(Verb::OpenUpdate);
    }
    expect_word(cursor, b"INQUIRY")?;
    Ok(Verb::OpenInquiry)
}

#[tactic(auto, unfolding(crate::specs::Verbs::close_at))]
fn close(cursor: &mut Cursor<'_>) -> Result<Verb, Fault>
    ensures { LineTakes result cursor.new (close_at cursor.old) }
{
    expect_word(cursor, b"CLOSE")?;
    Ok(Verb::Close)
}

/// FIRST x
#[tactic(auto, unfolding(crate::specs::Verbs::first_at))]
fn first(cursor: &mut Cursor<'_>, desc: &Description) -> Result<Path, Fault>
    ensures { LineTakes result cursor.new (first_at (as_described desc.now) cursor.old) }
{
    expect_word(cursor, b"FIRST")?;
    let path = read_structure(cursor, Wanted::Path, desc)?;
    Ok(Path::First(path.number))
}

/// LAST x
#[tactic(auto, unfolding(crate::specs::Verbs::last_at))]
fn last(cursor: &mut Cursor<'_>, desc: &Description) -> Result<Path, Fault>
    ensures { LineTakes result cursor.new (last_at (as_described desc.now) cursor.old) }
{
    expect_word(cursor, b"LAST")?;
    let path = read_structure(cursor, Wanted::Path, desc)?;
    Ok(Path::Last(path.number))
}

/// NEXT x
#[tactic(auto, unfolding(crate::specs::Verbs::next_at))]
fn next(cursor: &mut Cursor<'_>, desc: &Description) -> Result<Path, Fault>
    ensures { LineTakes result cursor.new (next_at (as_described desc.now) cursor.old) }
{
    expect_word(cursor, b"NEXT")?;
    let path = read_structure(cursor, Wanted::Path, desc)?;
    Ok(Path::Next(path.number))
}

/// PRIOR x
#[tactic(auto, unfolding(crate::specs::Verbs::prior_at))]
fn prior(cursor: &mut Cursor<'_>, desc: &Description) -> Result<Path, Fault>
    ensures { LineTakes result cursor.new (prior_at (as_described desc.now) cursor.old) }
{
    expect_word(cursor, b"PRIOR")?;
    let path = read_structure(cursor, Wanted::Path, desc)?;
    Ok(Path::Prior(path.number))
}

/// CURRENT D
#[tactic(auto, unfolding(crate::specs::Verbs::current_at))]
fn current(cursor: &mut Cursor<'_>, desc: &Description) -> Result<Path, Fault>
    ensures { LineTakes result cursor.new (current_at (as_described desc.now) cursor.old) }
{
    expect_word(cursor, b"CURRENT")?;
    let set = read_structure(cursor, Wanted::DataSet, desc)?;
    Ok(Path::Current(set.number))
}

/// VIA L OF D
#[tactic(auto, unfolding(crate::specs::Verbs::via_at))]
fn via(cursor: &mut Cursor<'_>, desc: &Description) -> Result<Path, Fault>
    ensures { LineTakes result cursor.new (via_at (as_described desc.now) cursor.old) }
{
    expect_word(cursor, b"VIA")?;
    let link = read_link(cursor, desc, None)?;
    Ok(Path::Via(link.set, link.item))
}

/// x AT item = literal {AND item = literal}
#[tactic(auto, unfolding(crate::specs::Verbs::member_at))]
fn member(cursor: &mut Cursor<'_>, desc: &Description) -> Result<Path, Fault>
    ensures { LineTakes result cursor.new (member_at (as_described desc.now) cursor.old) }
{
    let path = read_structure(cursor, Wanted::Path, desc)?;
    expect_word(cursor, b"AT")?;
    let literals = key_literals(cursor, desc, path)?;
    Ok(Path::At(path.number, literals))
}

#[tactic(auto, unfolding(crate::specs::Verbs::onward_at))]
fn onward(cursor: &mut Cursor<'_>, desc: &Description) -> Result<Path, Fault>
    ensures { LineTakes result cursor.new (onward_at (as_described desc.now) cursor.old) }
{
    if cursor.starts_word(b"NEXT") {
        return next(cursor, desc);
    }
    if cursor.starts_word(b"PRIOR") {
        return prior(cursor, desc);
    }
    if cursor.starts_word(b"CURRENT") {
        return current(cursor, desc);
    }
    if cursor.starts_word(b"VIA") {
        return via(cursor, desc);
    }
    member(cursor, desc)
}

#[tactic(auto, unfolding(crate::specs::Verbs::path_at))]
fn path(cursor: &mut Cursor<'_>, desc: &Description) -> Result<Path, Fault>
    ensures { LineTakes result cursor.new (path_at (as_described desc.now) cursor.old) }
{
    if cursor.starts_word(b"FIRST") {
        return first(cursor, desc);
    }
    if cursor.starts_word(b"LAST") {
        return last(cursor, desc);
    }
    onward(cursor, desc)
}

/// FIND path
#[tactic(auto, unfolding(crate::specs::Verbs::find_at))]
fn find(cursor: &mut Cursor<'_>, desc: &Description) -> Result<Verb, Fault>
    ensures { LineTakes result cursor.new (find_at (as_described desc.now) cursor.old) }
{
    expect_word(cursor, b"FIND")?;
    let path = path(cursor, desc)?;
    Ok(Verb::Find(path))
}

/// LOCK path
#[tactic(auto, unfolding(crate::specs::Verbs::lock_at))]
fn lock(cursor: &mut Cursor<'_>, desc: &Description) -> Result<Verb, Fault>
    ensures { LineTakes result cursor.new (lock_at (as_described desc.now) cursor.old) }
{
    expect_word(cursor, b"LOCK")?;
    let path = path(cursor, desc)?;
    Ok(Verb::Lock(path))
}

/// MODIFY path: it is LOCK.
#[tactic(auto, unfolding(crate::specs::Verbs::modify_at))]
fn modify(cursor: &mut Cursor<'_>, desc: &Description) -> Result<Verb, Fault>
    ensures { LineTakes result cursor.new (modify_at (as_described desc.now) cursor.old) }
{
    expect_word(cursor, b"MODIFY")?;
    let path = path(cursor, desc)?;
    Ok(Verb::Lock(path))
}

/// FREE D
#[tactic(auto, unfolding(crate::specs::Verbs::free_at))]
fn free(cursor: &mut Cursor<'_>, desc: &Description) -> Result<Verb, Fault>
    ensures { LineTakes result cursor.new (free_at (as_described desc.now) cursor.old) }
{
    expect_word(cursor, b"FREE")?;
    let set = read_structure(cursor, Wanted::DataSet, desc)?;
    Ok(Verb::Free(set.number))
}

/// CREATE D
#[tactic(auto, unfolding(crate::specs::Verbs::create_at))]
fn create(cursor: &mut Cursor<'_>, desc: &Description) -> Result<Verb, Fault>
    ensures { LineTakes result cursor.new (create_at (as_described desc.now) cursor.old) }
{
    expect_word(cursor, b"CREATE")?;
    let set = read_structure(cursor, Wanted::DataSet, desc)?;
    Ok(Verb::Create(set.number))
}

/// STORE D
#[tactic(auto, unfolding(crate::specs::Verbs::store_at))]
fn store(cursor: &mut Cursor<'_>, desc: &Description) -> Result<Verb, Fault>
    ensures { LineTakes result cursor.new (store_at (as_described desc.now) cursor.old) }
{
    expect_word(cursor, b"STORE")?;
    let set = read_structure(cursor, Wanted::DataSet, desc)?;
    Ok(Verb::Store(set.number))
}

/// DELETE D
#[tactic(auto, unfolding(crate::specs::Verbs::delete_at))]
fn delete(cursor: &mut Cursor<'_>, desc: &Description) -> Result<Verb, Fault>
    ensures { LineTakes result cursor.new (delete_at (as_described desc.now) cursor.old) }
{
    expect_word(cursor, b"DELETE")?;
    let set = read_structure(cursor, Wanted::DataSet, desc)?;
    Ok(Verb::Delete(set.number))
}

/// INSERT D INTO S
#[tactic(auto, unfolding(crate::specs::Verbs::insert_at))]
fn insert(cursor: &mut Cursor<'_>, desc: &Description) -> Result<Verb, Fault>
    ensures { LineTakes result cursor.new (insert_at (as_described desc.now) cursor.old) }
{
    expect_word(cursor, b"INSERT")?;
    let set = read_structure(cursor, Wanted::DataSet, desc)?;
    expect_word(cursor, b"INTO")?;
    let subset = read_structure(cursor, Wanted::Manual(set.number), desc)?;
    Ok(Verb::Insert(set.number, subset.number))
}

/// REMOVE D FROM S
#[tactic(auto, unfolding(crate::specs::Verbs::remove_at))]
fn remove(cursor: &mut Cursor<'_>, desc: &Description) -> Result<Verb, Fault>
    ensures { LineTakes result cursor.new (remove_at (as_described desc.now) cursor.old) }
{
    expect_word(cursor, b"REMOVE")?;
    let set = read_structure(cursor, Wanted::DataSet, desc)?;
    expect_word(cursor, b"FROM")?;
    let subset = read_structure(cursor, Wanted::Manual(set.number), desc)?;
    Ok(Verb::Remove(set.number, subset.number))
}

/// What a link is to refer to: the current record of a data set, or NULL.
#[tactic(auto, unfolding(crate::specs::Verbs::referent_at, crate::specs::Verbs::set_at))]
fn referent(cursor: &mut Cursor<'_>, desc: &Description) -> Result<Option<u16>, Fault>
    ensures { LineTakes result cursor.new (referent_at (as_described desc.now) cursor.old) }
{
    if cursor.starts_word(b"NULL") {
        expect_word(cursor, b"NULL")?;
        return Ok(None);
    }
    let set = read_structure(cursor, Wanted::DataSet, desc)?;
    Ok(Some(set.number))
}

/// ASSIGN D TO L OF E, ASSIGN NULL TO L OF E
#[tactic(auto, unfolding(crate::specs::Verbs::assign_at))]
fn assign(cursor: &mut Cursor<'_>, desc: &Description) -> Result<Verb, Fault>
    ensures { LineTakes result cursor.new (assign_at (as_described desc.now) cursor.old) }
{
    expect_word(cursor, b"ASSIGN")?;
    let to = referent(cursor, desc)?;
    expect_word(cursor, b"TO")?;
    let link = read_link(cursor, desc, to)?;
    Ok(Verb::Assign(to, link.set, link.item))
}

/// PUT D item = literal {, item = literal}
#[tactic(auto, unfolding(crate::specs::Verbs::put_at))]
fn put(cursor: &mut Cursor<'_>, desc: &Description) -> Result<Verb, Fault>
    ensures { LineTakes result cursor.new (put_at (as_described desc.now) cursor.old) }
{
    expect_word(cursor, b"PUT")?;
    let set = read_structure(cursor, Wanted::DataSet, desc)?;
    let settings = settings(cursor, set.items.as_slice())?;
    Ok(Verb::Put(set.number, settings))
}

/// The items that are shown: those named, or all items and links.
#[tactic(auto, unfolding(crate::specs::Verbs::all_shown_at))]
fn all_shown(cursor: &mut Cursor<'_>, set: &Structure) -> Result<ItemNumbers, Fault>
    ensures { LineTakes result cursor.new (all_shown_at (shape_of set.now) cursor.old) }
{
    if cursor.starts_end() || cursor.starts_sign(b';') {
        let mut all = ItemNumbers::new(cursor.alloc());
        push_numbers(&mut all, whole_run(set))?;
        return Ok(all);
    }
    shown_items(cursor, set)
}

/// GET D [item {, item}]
#[tactic(auto, unfolding(crate::specs::Verbs::get_at))]
fn get(cursor: &mut Cursor<'_>, desc: &Description) -> Result<Verb, Fault>
    ensures { LineTakes result cursor.new (get_at (as_described desc.now) cursor.old) }
{
    expect_word(cursor, b"GET")?;
    let set = read_structure(cursor, Wanted::DataSet, desc)?;
    let shown = all_shown(cursor, set)?;
    Ok(Verb::Get(set.number, shown))
}

/// AUDIT or NO-AUDIT: whether the restart record is stored.
#[tactic(auto, unfolding(crate::specs::Verbs::mode_at))]
fn mode(cursor: &mut Cursor<'_>) -> Result<bool, Fault>
    ensures { LineTakes result cursor.new (mode_at cursor.old) }
{
    if cursor.starts_word(b"AUDIT") {
        expect_word(cursor, b"AUDIT")?;
        return Ok(true);
    }
    expect_word(cursor, b"NO-AUDIT")?;
    Ok(false)
}

/// BEGIN-TRANSACTION mode R
#[tactic(auto, unfolding(crate::specs::Verbs::begin_at))]
fn begin(cursor: &mut Cursor<'_>, desc: &Description) -> Result<Verb, Fault>
    ensures { LineTakes result cursor.new (begin_at (as_described desc.now) cursor.old) }
{
    expect_word(cursor, b"BEGIN-TRANSACTION")?;
    let audit = mode(cursor)?;
    read_structure(cursor, Wanted::Restart, desc)?;
    Ok(Verb::Begin(audit))
}

/// SYNC, or not.
#[tactic(auto, unfolding(crate::specs::Verbs::sync_at))]
fn sync(cursor: &mut Cursor<'_>) -> Result<bool, Fault>
    ensures { LineTakes result cursor.new (sync_at cursor.old) }
{
    if cursor.starts_word(b"SYNC") {
        expect_word(cursor, b"SYNC")?;
        return Ok(true);
    }
    Ok(false)
}

/// END-TRANSACTION mode R [SYNC]
#[tactic(auto, unfolding(crate::specs::Verbs::finish_at))]
fn finish(cursor: &mut Cursor<'_>, desc: &Description) -> Result<Verb, Fault>
    ensures { LineTakes result cursor.new (finish_at (as_described desc.now) cursor.old) }
{
    expect_word(cursor, b"END-TRANSACTION")?;
    let audit = mode(cursor)?;
    read_structure(cursor, Wanted::Restart, desc)?;
    let sync = sync(cursor)?;
    Ok(Verb::End(audit, sync))
}

/// ABORT-TRANSACTION R
#[tactic(auto, unfolding(crate::specs::Verbs::abort_at))]
fn abort(cursor: &mut Cursor<'_>, desc: &Description) -> Result<Verb, Fault>
    ensures { LineTakes result cursor.new (abort_at (as_described desc.now) cursor.old) }
{
    expect_word(cursor, b"ABORT-TRANSACTION")?;
    read_structure(cursor, Wanted::Restart, desc)?;
    Ok(Verb::Abort)
}

#[tactic(auto, unfolding(crate::specs::Verbs::transaction_at))]
fn transaction(cursor: &mut Cursor<'_>, desc: &Description) -> Result<Verb, Fault>
    ensures { LineTakes result cursor.new (transaction_at (as_described desc.now) cursor.old) }
{
    if cursor.starts_word(b"BEGIN-TRANSACTION") {
        return begin(cursor, desc);
    }
    if cursor.starts_word(b"END-TRANSACTION") {
        return finish(cursor, desc);
    }
    abort(cursor, desc)
}

/// A verb that deletes a record, or changes a manual subset or a link.
#[tactic(auto, unfolding(crate::specs::Verbs::change_at))]
fn change(cursor: &mut Cursor<'_>, desc: &Description) -> Result<Verb, Fault>
    ensures { LineTakes result cursor.new (change_at (as_described desc.now) cursor.old) }
{
    if cursor.starts_word(b"DELETE") {
        return delete(cursor, desc);
    }
    if cursor.starts_word(b"INSERT") {
        return insert(cursor, desc);
    }
    if cursor.starts_word(b"REMOVE") {
        return remove(cursor, desc);
    }
    if cursor.starts_word(b"ASSIGN") {
        return assign(cursor, desc);
    }
    transaction(cursor, desc)
}

#[tactic(auto, unfolding(crate::specs::Verbs::area_at))]
fn area(cursor: &mut Cursor<'_>, desc: &Description) -> Result<Verb, Fault>
    ensures { LineTakes result cursor.new (area_at (as_described desc.now) cursor.old) }
{
    if cursor.starts_word(b"CREATE") {
        return create(cursor, desc);
    }
    if cursor.starts_word(b"PUT") {
        return put(cursor, desc);
    }
    if cursor.starts_word(b"GET") {
        return get(cursor, desc);
    }
    if cursor.starts_word(b"STORE") {
        return store(cursor, desc);
    }
    change(cursor, desc)
}

/// A verb that finds, locks or frees a record.
#[tactic(auto, unfolding(crate::specs::Verbs::record_at))]
fn record(cursor: &mut Cursor<'_>, desc: &Description) -> Result<Verb, Fault>
    ensures { LineTakes result cursor.new (record_at (as_described desc.now) cursor.old) }
{
    if cursor.starts_word(b"FIND") {
        return find(cursor, desc);
    }
    if cursor.starts_word(b"LOCK") {
        return lock(cursor, desc);
    }
    if cursor.starts_word(b"MODIFY") {
        return modify(cursor, desc);
    }
    if cursor.starts_word(b"FREE") {
        return free(cursor, desc);
    }
    area(cursor, desc)
}

/// A verb. Answers Bad with the place of the first token that isn't allowed, or with 0 where no token is left, and
/// Memory.
#[tactic(auto, unfolding(crate::specs::Verbs::verb_at))]
pub fn verb(cursor: &mut Cursor<'_>, desc: &Description) -> Result<Verb, Fault>
    ensures { LineTakes result cursor.new (verb_at (as_described desc.now) cursor.old) }
{
    if cursor.starts_word(b"OPEN") {
        return open(cursor);
    }
    if cursor.starts_word(b"CLOSE") {
        return close(cursor);
    }
    record(cursor, desc)
}

/// A semicolon or none, and the line's end. Answers Bad with the place of the first token that isn't allowed, or with 0
/// where no token is left.
#[tactic(auto, unfolding(crate::specs::Verbs::close_line_at))]
pub fn close_line(cursor: &mut Cursor<'_>) -> Result<(), Fault>
    ensures { LinePasses result cursor.new (close_line_at cursor.old) }
{
    if cursor.starts_sign(b';') {
        expect_sign(cursor, b';')?;
        return expect_end(cursor);
    }
    expect_end(cursor)
}
