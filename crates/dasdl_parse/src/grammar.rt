ghost use Rattle.std.specs.Prelude.{◌≡◌, ◌<◌, IfOk, true};
ghost use Rattle.dasdl_phrases.specs.Reads.{Takes, Gives};
ghost use Rattle.dasdl_parse.specs.Grammar.{with_items, open_data_set, close_data_set, is_inside, is_deepest, add_declaration, with_pairs, with_audit_pairs, parameters_turn_at, audit_turn_at, item_turn_at, group_turn_at, counted_with, link_turn_at, starts_set, starts_data_set, structure_turn_at, declared_turn_at, end_turn_at, named_turn_at, schema_turn_at, schema_done, schema_at, schema_of};

use crate::data_sets::{data_set, data_set_end};
use crate::declarations::{Declaration, GroupDecl};
use crate::items::{ITEMS, group, item, link};
use crate::lists::Declarations;
use crate::parameters::{AuditPairs, ParameterPairs, audit, parameters};
use crate::schema::{Parameters, Schema};
use crate::sets::set;
use crate::within::Open;
use dasdl_phrases::expect::{expect_sign, expect_word, fault, read_name};
use dasdl_phrases::{ParseFault, Turns, read_turns, starts_kind};
use dms_base::{Memory, Name};
use dms_tokens::{Cursor, Lexeme, tokens};
use std::alloc::Global;

/// The structures that a schema may have.
pub const STRUCTURES: u8 = 200;

/// The bytes that a text may have.
pub const TEXT_BYTES: usize = 1_000_000;

/// A schema so far.
#[derive(Drop)]
pub struct Progress {
    pub parameters: Parameters,
    pub has_parameters: bool,
    pub has_audit: bool,
    pub structures: u8,
    /// Its COUNTED links.
    pub counted: u16,
    pub within: Open,
    /// Whether the innermost data set that is open has no member yet.
    pub fresh: bool,
    pub declarations: Declarations,
}

/// One more declaration stands within what is open.
fn add_declaration(
    mut state: Progress,
    within: Open,
    structures: u8,
    counted: u16,
    fresh: bool,
    declaration: Declaration,
) -> Result<Progress, Memory>
    ensures { IfOk result (λ s. s ≡ add_declaration state within structures counted fresh declaration) }
{
    state.declarations.push(declaration)?;
    state.within = within;
    state.structures = structures;
    state.counted = counted;
    state.fresh = fresh;
    Ok(state)
}

fn with_pairs(parameters: Parameters, said: ParameterPairs) -> Parameters
    ensures { result ≡ with_pairs parameters said }
{
    Parameters {
        syncpoint: said.syncpoint.unwrap_or(100),
        controlpoint: said.controlpoint.unwrap_or(10),
        buffers: said.buffers.unwrap_or(256),
        blocks: parameters.blocks,
        files: parameters.files,
    }
}

fn with_audit_pairs(parameters: Parameters, said: AuditPairs) -> Parameters
    ensures { result ≡ with_audit_pairs parameters said }
{
    Parameters {
        syncpoint: parameters.syncpoint,
        controlpoint: parameters.controlpoint,
        buffers: parameters.buffers,
        blocks: said.blocks.unwrap_or(512),
        files: said.files.unwrap_or(9_999),
    }
}

#[tactic(auto, unfolding(crate::specs::Grammar::parameters_turn_at))]
fn parameters_turn(mut state: Progress, cursor: &mut Cursor<'_>) -> Result<Progress, ParseFault>
    ensures { Takes result cursor.new (parameters_turn_at state cursor.old) }
{
    if state.has_parameters {
        return Err(fault(cursor));
    }
    let said = parameters(cursor)?;
    state.parameters = with_pairs(state.parameters, said);
    state.has_parameters = true;
    Ok(state)
}

#[tactic(auto, unfolding(crate::specs::Grammar::audit_turn_at))]
fn audit_turn(mut state: Progress, cursor: &mut Cursor<'_>) -> Result<Progress, ParseFault>
    ensures { Takes result cursor.new (audit_turn_at state cursor.old) }
{
    if state.has_audit {
        return Err(fault(cursor));
    }
    let said = audit(cursor)?;
    state.parameters = with_audit_pairs(state.parameters, said);
    state.has_audit = true;
    Ok(state)
}

#[tactic(auto, unfolding(crate::specs::Grammar::item_turn_at))]
fn item_turn(
    state: Progress,
    cursor: &mut Cursor<'_>,
    place: u32,
    name: Name,
) -> Result<Progress, ParseFault>
    ensures { Takes result cursor.new (item_turn_at state place name cursor.old) }
{
    let items = state.within.items();
    if items >= ITEMS {
        return Err(ParseFault::TooMany(60));
    }
    let item = item(cursor, place, name)?;
    let within = state.within.with_items(items + 1);
    let structures = state.structures;
    let counted = state.counted;
    let next = add_declaration(
        state,
        within,
        structures,
        counted,
        false,
        Declaration::Item(item),
    )?;
    Ok(next)
}

#[tactic(auto, unfolding(crate::specs::Grammar::group_turn_at))]
fn group_turn(
    state: Progress,
    cursor: &mut Cursor<'_>,
    place: u32,
    name: Name,
) -> Result<Progress, ParseFault>
    ensures { Takes result cursor.new (group_turn_at state place name cursor.old) }
{
    let all = group(cursor, state.within.items())?;
    let within = state.within.with_items(all.count);
    let structures = state.structures;
    let counted = state.counted;
    let group = GroupDecl {
        place,
        name,
        items: all.items,
    };
    let next = add_declaration(
        state,
        within,
        structures,
        counted,
        false,
        Declaration::Group(group),
    )?;
    Ok(next)
}

fn counted_with(counted: u16, is_counted: bool) -> u16
    requires { is_counted ≡ true → counted < 4000 }
    ensures { result ≡ counted_with counted is_counted }
{
    if is_counted { counted + 1 } else { counted }
}

#[tactic(auto, unfolding(crate::specs::Grammar::link_turn_at))]
fn link_turn(
    state: Progress,
    cursor: &mut Cursor<'_>,
    place: u32,
    name: Name,
) -> Result<Progress, ParseFault>
    ensures { Takes result cursor.new (link_turn_at state place name cursor.old) }
{
    if !cursor.starts_word(b"LINK") {
        return Err(fault(cursor));
    }
    let items = state.within.items();
    if items >= ITEMS {
        return Err(ParseFault::TooMany(60));
    }
    let link = link(cursor, state.counted, place, name)?;
    let within = state.within.with_items(items + 1);
    let structures = state.structures;
    let counted = counted_with(state.counted, link.counted);
    let next = add_declaration(
        state,
        within,
        structures,
        counted,
        false,
        Declaration::Link(link),
    )?;
    Ok(next)
}

fn starts_set(cursor: &Cursor<'_>) -> bool
    ensures { result ≡ starts_set cursor.now }
{
    cursor.starts_word(b"SET") || cursor.starts_word(b"SUBSET")
}

fn starts_data_set(cursor: &Cursor<'_>) -> bool
    ensures { result ≡ starts_data_set cursor.now }
{
    cursor.starts_word(b"RESTART") || cursor.starts_word(b"DATA")
}

/// A set, or the head of a data set.
#[tactic(auto, unfolding(crate::specs::Grammar::structure_turn_at))]
fn structure_turn(
    state: Progress,
    cursor: &mut Cursor<'_>,
    place: u32,
    name: Name,
) -> Result<Progress, ParseFault>
    ensures { Takes result cursor.new (structure_turn_at state place name cursor.old) }
{
    if state.structures >= STRUCTURES {
        return Err(ParseFault::TooMany(200));
    }
    if state.within.is_deepest() {
        return Err(ParseFault::TooMany(3));
    }
    let within = state.within;
    let structures = state.structures + 1;
    let counted = state.counted;
    if starts_set(cursor) {
        let set = set(cursor, place, name)?;
        let next = add_declaration(
            state,
            within,
            structures,
            counted,
            false,
            Declaration::SetOf(set),
        )?;
        return Ok(next);
    }
    let head = data_set(cursor, place, name)?;
    let inner = within.open_data_set();
    let next = add_declaration(
        state,
        inner,
        structures,
        counted,
        true,
        Declaration::DataSet(head),
    )?;
    Ok(next)
}

/// What stands behind a name that is declared.
#[tactic(auto, unfolding(crate::specs::Grammar::declared_turn_at))]
fn declared_turn(
    state: Progress,
    cursor: &mut Cursor<'_>,
    place: u32,
    name: Name,
) -> Result<Progress, ParseFault>
    ensures { Takes result cursor.new (declared_turn_at state place name cursor.old) }
{
    if starts_set(cursor) || starts_data_set(cursor) {
        return structure_turn(state, cursor, place, name);
    }
    if !state.within.is_inside() {
        return Err(fault(cursor));
    }
    if starts_kind(cursor) {
        return item_turn(state, cursor, place, name);
    }
    if cursor.starts_word(b"GROUP") {
        return group_turn(state, cursor, place, name);
    }
    link_turn(state, cursor, place, name)
}

#[tactic(auto, unfolding(crate::specs::Grammar::end_turn_at))]
fn end_turn(state: Progress, cursor: &mut Cursor<'_>) -> Result<Progress, ParseFault>
    ensures { Takes result cursor.new (end_turn_at state cursor.old) }
{
    let end = data_set_end(cursor)?;
    let within = state.within.close_data_set();
    let structures = state.structures;
    let counted = state.counted;
    let next = add_declaration(
        state,
        within,
        structures,
        counted,
        false,
        Declaration::End(end),
    )?;
    Ok(next)
}

#[tactic(auto, unfolding(crate::specs::Grammar::named_turn_at))]
fn named_turn(state: Progress, cursor: &mut Cursor<'_>) -> Result<Progress, ParseFault>
    ensures { Takes result cursor.new (named_turn_at state cursor.old) }
{
    let place = cursor.place();
    let name = read_name(cursor)?;
    declared_turn(state, cursor, place, name)
}

impl Turns for Progress {
    ghost done_at = { schema_done };

    ghost turn_at = { schema_turn_at };

    fn is_done(&self, cursor: &Cursor<'_>) -> bool {
        cursor.starts_end() && !self.within.is_inside()
    }

    #[tactic(auto, unfolding(crate::specs::Grammar::schema_turn_at))]
    fn turn(self, cursor: &mut Cursor<'_>) -> Result<Progress, ParseFault> {
        let inside = self.within.is_inside();
        if cursor.starts_word(b"PARAMETERS") && !inside {
            return parameters_turn(self, cursor);
        }
        if cursor.starts_word(b"AUDIT") && !inside {
            return audit_turn(self, cursor);
        }
        if cursor.starts_sign(b')') && (inside && !self.fresh) {
            return end_turn(self, cursor);
        }
        named_turn(self, cursor)
    }
}

/// The schema that tokens spell.
#[tactic(auto, unfolding(crate::specs::Grammar::schema_at))]
fn schema(alloc: Global, lexemes: &[Lexeme]) -> Result<Schema, ParseFault>
    ensures { Gives result (schema_at lexemes.now) }
{
    let nothing = Progress {
        parameters: Parameters {
            syncpoint: 100,
            controlpoint: 10,
            buffers: 256,
            blocks: 512,
            files: 9_999,
        },
        has_parameters: false,
        has_audit: false,
        structures: 0,
        counted: 0,
        within: Open::Outside,
        fresh: false,
        declarations: Declarations::new(alloc),
    };
    let mut cursor = Cursor::new(alloc, lexemes);
    let all = read_turns(nothing, &mut cursor)?;
    Ok(Schema {
        parameters: all.parameters,
        declarations: all.declarations,
    })
}

/// The schema that a text of at most 1,000,000 bytes spells, or its first fault in text order.
#[tactic(auto, unfolding(crate::specs::Grammar::schema_of))]
pub fn parse(alloc: Global, text: &[u8]) -> Result<Schema, ParseFault>
    ensures { Gives result (schema_of text.now) }
{
    if text.len() > TEXT_BYTES {
        return Err(ParseFault::TooMany(1_000_000));
    }
    let lexemes = tokens(alloc, text)?;
    schema(alloc, lexemes.as_slice())
}
