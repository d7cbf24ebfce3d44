ghost use Rattle.std.specs.Prelude.{◌≡◌};
ghost use Rattle.dasdl_phrases.specs.Reads.{Takes};
ghost use Rattle.dasdl_phrases.specs.Cursors.{until_semicolon};
ghost use Rattle.dasdl_parse.specs.Sets.{population_at, duplicates_at, form_at, starts_duplicates, starts_form, plain_option_at, set_option_at, next_set_option_at, set_word_at, set_of, set_at};

use crate::declarations::SetDecl;
use dasdl_phrases::expect::{
    expect_equal, expect_sign, expect_word, fault, read_name, read_number,
};
use dasdl_phrases::{CondDecl, KeyDecl, ParseFault, Turns, cond_decl, key, read_turns};
use dms_base::{Name, SetForm};
use dms_tokens::Cursor;

/// The most entries or records that a structure may have.
pub const POPULATION: u32 = 1_000_000;

/// What a set's options have said so far.
#[derive(Drop)]
pub struct SetOptions {
    pub cond: Option<CondDecl>,
    pub key: Option<KeyDecl>,
    pub duplicates: Option<bool>,
    pub form: Option<SetForm>,
    pub population: Option<u32>,
}

/// `POPULATION = number`. Answers BadCharacter or Expected at the first token that isn't allowed, and NumberRange at a
/// number outside 1 to 1,000,000.
#[tactic(auto, unfolding(crate::specs::Sets::population_at))]
pub fn population(cursor: &mut Cursor<'_>) -> Result<u32, ParseFault>
    ensures { Takes result cursor.new (population_at cursor.old) }
{
    expect_word(cursor, b"POPULATION")?;
    expect_equal(cursor)?;
    let number = read_number(cursor, 1, 1_000_000)?;
    Ok(number as u32)
}

/// `[NO] DUPLICATES`: whether they are allowed.
#[tactic(auto, unfolding(crate::specs::Sets::duplicates_at))]
fn duplicates(cursor: &mut Cursor<'_>) -> Result<bool, ParseFault>
    ensures { Takes result cursor.new (duplicates_at cursor.old) }
{
    if cursor.starts_word(b"DUPLICATES") {
        expect_word(cursor, b"DUPLICATES")?;
        return Ok(true);
    }
    expect_word(cursor, b"NO")?;
    expect_word(cursor, b"DUPLICATES")?;
    Ok(false)
}

/// `INDEX SEQUENTIAL` or `ORDERED LIST`.
#[tactic(auto, unfolding(crate::specs::Sets::form_at))]
fn form(cursor: &mut Cursor<'_>) -> Result<SetForm, ParseFault>
    ensures { Takes result cursor.new (form_at cursor.old) }
{
    if cursor.starts_word(b"INDEX") {
        expect_word(cursor, b"INDEX")?;
        expect_word(cursor, b"SEQUENTIAL")?;
        return Ok(SetForm::IndexSequential);
    }
    expect_word(cursor, b"ORDERED")?;
    expect_word(cursor, b"LIST")?;
    Ok(SetForm::OrderedList)
}

fn starts_duplicates(cursor: &Cursor<'_>) -> bool
    ensures { result ≡ starts_duplicates cursor.now }
{
    cursor.starts_word(b"DUPLICATES") || cursor.starts_word(b"NO")
}

fn starts_form(cursor: &Cursor<'_>) -> bool
    ensures { result ≡ starts_form cursor.now }
{
    cursor.starts_word(b"INDEX") || cursor.starts_word(b"ORDERED")
}

/// An option on duplicates, the form or the population.
#[tactic(auto, unfolding(crate::specs::Sets::plain_option_at))]
fn plain_option(mut options: SetOptions, cursor: &mut Cursor<'_>) -> Result<SetOptions, ParseFault>
    ensures { Takes result cursor.new (plain_option_at options cursor.old) }
{
    if starts_duplicates(cursor) && options.duplicates.is_none() {
        let said = duplicates(cursor)?;
        options.duplicates = Some(said);
        return Ok(options);
    }
    if starts_form(cursor) && options.form.is_none() {
        let said = form(cursor)?;
        options.form = Some(said);
        return Ok(options);
    }
    if cursor.starts_word(b"POPULATION") && options.population.is_none() {
        let said = population(cursor)?;
        options.population = Some(said);
        return Ok(options);
    }
    Err(fault(cursor))
}

/// An option of a set.
#[tactic(auto, unfolding(crate::specs::Sets::set_option_at))]
fn set_option(mut options: SetOptions, cursor: &mut Cursor<'_>) -> Result<SetOptions, ParseFault>
    ensures { Takes result cursor.new (set_option_at options cursor.old) }
{
    if cursor.starts_word(b"WHERE") && options.cond.is_none() {
        let said = cond_decl(cursor, b"WHERE")?;
        options.cond = Some(said);
        return Ok(options);
    }
    if cursor.starts_word(b"KEY") && options.key.is_none() {
        let said = key(cursor)?;
        options.key = Some(said);
        return Ok(options);
    }
    plain_option(options, cursor)
}

impl Turns for SetOptions {
    ghost done_at = { until_semicolon };

    ghost turn_at = { next_set_option_at };

    fn is_done(&self, cursor: &Cursor<'_>) -> bool {
        cursor.starts_sign(b';')
    }

    #[tactic(auto, unfolding(crate::specs::Sets::next_set_option_at, dasdl_phrases::specs::Cursors::comma_at))]
    fn turn(self, cursor: &mut Cursor<'_>) -> Result<SetOptions, ParseFault> {
        cursor.comma();
        set_option(self, cursor)
    }
}

/// SET or SUBSET: whether it is SUBSET.
#[tactic(auto, unfolding(crate::specs::Sets::set_word_at))]
fn set_word(cursor: &mut Cursor<'_>) -> Result<bool, ParseFault>
    ensures { Takes result cursor.new (set_word_at cursor.old) }
{
    if cursor.starts_word(b"SUBSET") {
        expect_word(cursor, b"SUBSET")?;
        return Ok(true);
    }
    expect_word(cursor, b"SET")?;
    Ok(false)
}

/// A set and what its options say.
fn set_of(place: u32, name: Name, subset: bool, of: Name, options: SetOptions) -> SetDecl
    ensures { result ≡ set_of place name subset of options }
{
    SetDecl {
        place,
        name,
        subset,
        of,
        cond: options.cond,
        key: options.key,
        duplicates: options.duplicates.unwrap_or(false),
        form: options.form.unwrap_or(SetForm::IndexSequential),
        population: options.population.unwrap_or(POPULATION),
    }
}

/// `(SET | SUBSET) OF name {[,] option} ;` behind a set's name. Answers BadCharacter or Expected at the first token
/// that isn't allowed, NumberRange at a number outside its range, TooMany with 30 for a name's bytes, with 100 for a
/// condition's nodes or with 16 for a key's parts, and Memory.
#[tactic(auto, unfolding(crate::specs::Sets::set_at))]
pub fn set(cursor: &mut Cursor<'_>, place: u32, name: Name) -> Result<SetDecl, ParseFault>
    ensures { Takes result cursor.new (set_at place name cursor.old) }
{
    let subset = set_word(cursor)?;
    expect_word(cursor, b"OF")?;
    let of = read_name(cursor)?;
    let nothing = SetOptions {
        cond: None,
        key: None,
        duplicates: None,
        form: None,
        population: None,
    };
    let said = read_turns(nothing, cursor)?;
    expect_sign(cursor, b';')?;
    Ok(set_of(place, name, subset, of, said))
}
