ghost use Rattle.std.specs.Prelude.{◌≡◌, ◌<◌, IfOk, true};
ghost use Rattle.dasdl_phrases.specs.Reads.{Takes};
ghost use Rattle.dasdl_phrases.specs.Cursors.{until_close, until_semicolon};
ghost use Rattle.dasdl_parse.specs.Items.{item_option_at, next_item_option_at, item_at, group_item_at, next_group_item_at, group_at, counted_at, link_at};

use crate::declarations::{ItemDecl, LinkDecl};
use crate::lists::ItemDecls;
use dasdl_phrases::expect::{expect_equal, expect_sign, expect_word, fault, read_name};
use dasdl_phrases::{ParseFault, Turns, kind, literal, read_turns, starts_kind};
use dms_base::{Literal, Name};
use dms_tokens::Cursor;

/// The items that a data set may have, links included.
pub const ITEMS: u8 = 60;

/// The COUNTED links that a schema may have.
pub const COUNTED_LINKS: u16 = 4_000;

/// What an item's options have said so far.
#[derive(Drop)]
pub struct ItemOptions {
    pub required: bool,
    pub initial: Option<Literal>,
}

/// The items of a group so far, and how many its data set has.
#[derive(Drop)]
pub struct GroupItems {
    pub items: ItemDecls,
    pub count: u8,
}

#[tactic(auto, unfolding(crate::specs::Items::item_option_at))]
fn item_option(options: ItemOptions, cursor: &mut Cursor<'_>) -> Result<ItemOptions, ParseFault>
    ensures { Takes result cursor.new (item_option_at options cursor.old) }
{
    if cursor.starts_word(b"REQUIRED") && !options.required {
        expect_word(cursor, b"REQUIRED")?;
        return Ok(ItemOptions {
            required: true,
            initial: options.initial,
        });
    }
    if cursor.starts_word(b"INITIALVALUE") && options.initial.is_none() {
        expect_word(cursor, b"INITIALVALUE")?;
        expect_equal(cursor)?;
        let value = literal(cursor)?;
        return Ok(ItemOptions {
            required: options.required,
            initial: Some(value),
        });
    }
    if cursor.starts_word(b"NULL") && options.initial.is_none() {
        expect_word(cursor, b"NULL")?;
        return Ok(ItemOptions {
            required: options.required,
            initial: Some(Literal::Null),
        });
    }
    Err(fault(cursor))
}

impl Turns for ItemOptions {
    ghost done_at = { until_semicolon };

    ghost turn_at = { next_item_option_at };

    fn is_done(&self, cursor: &Cursor<'_>) -> bool {
        cursor.starts_sign(b';')
    }

    #[tactic(auto, unfolding(crate::specs::Items::next_item_option_at, dasdl_phrases::specs::Cursors::comma_at))]
    fn turn(self, cursor: &mut Cursor<'_>) -> Result<ItemOptions, ParseFault> {
        cursor.comma();
        item_option(self, cursor)
    }
}

/// `type {[,] option} ;` behind an item's name. Answers BadCharacter or Expected at the first token that isn't allowed,
/// NumberRange at a number outside its range, and Memory.
#[tactic(auto, unfolding(crate::specs::Items::item_at))]
pub fn item(cursor: &mut Cursor<'_>, place: u32, name: Name) -> Result<ItemDecl, ParseFault>
    ensures { Takes result cursor.new (item_at place name cursor.old) }
{
    let kind = kind(cursor)?;
    let nothing = ItemOptions {
        required: false,
        initial: None,
    };
    let said = read_turns(nothing, cursor)?;
    expect_sign(cursor, b';')?;
    Ok(ItemDecl {
        place,
        name,
        kind,
        required: said.required,
        initial: said.initial,
    })
}

#[tactic(auto, unfolding(crate::specs::Items::group_item_at))]
fn group_item(
    mut group: GroupItems,
    cursor: &mut Cursor<'_>,
    place: u32,
    name: Name,
) -> Result<GroupItems, ParseFault>
    ensures { Takes result cursor.new (group_item_at group place name cursor.old) }
{
    if !starts_kind(cursor) {
        return Err(fault(cursor));
    }
    if group.count >= ITEMS {
        return Err(ParseFault::TooMany(60));
    }
    let item = item(cursor, place, name)?;
    group.items.push(item)?;
    group.count += 1;
    Ok(group)
}

impl Turns for GroupItems {
    ghost done_at = { until_close };

    ghost turn_at = { next_group_item_at };

    fn is_done(&self, cursor: &Cursor<'_>) -> bool {
        cursor.starts_sign(b')')
    }

    #[tactic(auto, unfolding(crate::specs::Items::next_group_item_at))]
    fn turn(self, cursor: &mut Cursor<'_>) -> Result<GroupItems, ParseFault> {
        let place = cursor.place();
        let name = read_name(cursor)?;
        group_item(self, cursor, place, name)
    }
}

/// `GROUP ( item {item} ) ;` behind a group's name, where its data set has so many items. Answers BadCharacter or
/// Expected at the first token that isn't allowed, NumberRange at a number outside its range, TooMany with 30 for a
/// name's bytes or with 60 for the items, and Memory.
#[tactic(auto, unfolding(crate::specs::Items::group_at))]
pub fn group(cursor: &mut Cursor<'_>, count: u8) -> Result<GroupItems, ParseFault>
    ensures { Takes result cursor.new (group_at count cursor.old) }
{
    expect_word(cursor, b"GROUP")?;
    expect_sign(cursor, b'(')?;
    let nothing = GroupItems {
        items: ItemDecls::new(cursor.alloc()),
        count,
    };
    let first = nothing.turn(cursor)?;
    let all = read_turns(first, cursor)?;
    expect_sign(cursor, b')')?;
    expect_sign(cursor, b';')?;
    Ok(all)
}

#[tactic(auto, unfolding(crate::specs::Items::counted_at))]
fn is_counted(cursor: &mut Cursor<'_>, counted_links: u16) -> Result<bool, ParseFault>
    ensures gives { Takes result cursor.new (counted_at counted_links cursor.old) }
    ensures within { IfOk result (λ c. c ≡ true → counted_links < 4000) }
{
    if !cursor.starts_word(b"COUNTED") {
        return Ok(false);
    }
    if counted_links >= COUNTED_LINKS {
        return Err(ParseFault::TooMany(4_000));
    }
    expect_word(cursor, b"COUNTED")?;
    Ok(true)
}

/// `LINK TO name [COUNTED] ;` behind a link's name, where the schema has so many COUNTED links.
#[tactic(auto, unfolding(crate::specs::Items::link_at))]
pub fn link(
    cursor: &mut Cursor<'_>,
    counted_links: u16,
    place: u32,
    name: Name,
) -> Result<LinkDecl, ParseFault>
    ensures gives { Takes result cursor.new (link_at counted_links place name cursor.old) }
    ensures within { IfOk result (λ l. l.counted ≡ true → counted_links < 4000) }
{
    expect_word(cursor, b"LINK")?;
    expect_word(cursor, b"TO")?;
    let target = read_name(cursor)?;
    let counted = is_counted(cursor, counted_links)?;
    expect_sign(cursor, b';')?;
    Ok(LinkDecl {
        place,
        name,
        target,
        counted,
    })
}
