ghost use Rattle.dasdl_phrases.specs.Reads.{Takes};
ghost use Rattle.dasdl_phrases.specs.Cursors.{until_semicolon};
ghost use Rattle.dasdl_parse.specs.Grammar.{restart_at, data_set_at, data_set_option_at, next_data_set_option_at, data_set_end_at};

use crate::declarations::{DataSetDecl, DataSetEnd};
use crate::sets::{POPULATION, population};
use dasdl_phrases::expect::{expect_sign, expect_word, fault};
use dasdl_phrases::{CondDecl, ParseFault, Turns, cond_decl, read_turns};
use dms_base::Name;
use dms_tokens::Cursor;

/// What a data set's options have said so far.
#[derive(Drop)]
pub struct DataSetOptions {
    pub verify: Option<CondDecl>,
    pub population: Option<u32>,
}

/// `[RESTART]`: whether it is said.
#[tactic(auto, unfolding(crate::specs::Grammar::restart_at))]
fn restart(cursor: &mut Cursor<'_>) -> Result<bool, ParseFault>
    ensures { Takes result cursor.new (restart_at cursor.old) }
{
    if cursor.starts_word(b"RESTART") {
        expect_word(cursor, b"RESTART")?;
        return Ok(true);
    }
    Ok(false)
}

/// `[RESTART] DATA SET (` behind a data set's name. Answers BadCharacter or Expected at the first token that isn't
/// allowed.
#[tactic(auto, unfolding(crate::specs::Grammar::data_set_at))]
pub fn data_set(cursor: &mut Cursor<'_>, place: u32, name: Name) -> Result<DataSetDecl, ParseFault>
    ensures { Takes result cursor.new (data_set_at place name cursor.old) }
{
    let restart = restart(cursor)?;
    expect_word(cursor, b"DATA")?;
    expect_word(cursor, b"SET")?;
    expect_sign(cursor, b'(')?;
    Ok(DataSetDecl {
        place,
        name,
        restart,
    })
}

#[tactic(auto, unfolding(crate::specs::Grammar::data_set_option_at))]
fn data_set_option(
    mut options: DataSetOptions,
    cursor: &mut Cursor<'_>,
) -> Result<DataSetOptions, ParseFault>
    ensures { Takes result cursor.new (data_set_option_at options cursor.old) }
{
    if cursor.starts_word(b"VERIFY") && options.verify.is_none() {
        let said = cond_decl(cursor, b"VERIFY")?;
        options.verify = Some(said);
        return Ok(options);
    }
    if cursor.starts_word(b"POPULATION") && options.population.is_none() {
        let said = population(cursor)?;
        options.population = Some(said);
        return Ok(options);
    }
    Err(fault(cursor))
}

impl Turns for DataSetOptions {
    ghost done_at = { until_semicolon };

    ghost turn_at = { next_data_set_option_at };

    fn is_done(&self, cursor: &Cursor<'_>) -> bool {
        cursor.starts_sign(b';')
    }

    #[tactic(auto, unfolding(crate::specs::Grammar::next_data_set_option_at, dasdl_phrases::specs::Cursors::comma_at))]
    fn turn(self, cursor: &mut Cursor<'_>) -> Result<DataSetOptions, ParseFault> {
        cursor.comma();
        data_set_option(self, cursor)
    }
}

/// `) {[,] option} ;` behind a data set's members. Answers BadCharacter or Expected at the first token that isn't
/// allowed, NumberRange at a number outside its range, TooMany with 30 for a name's bytes or with 100 for a
/// condition's nodes, and Memory.
#[tactic(auto, unfolding(crate::specs::Grammar::data_set_end_at))]
pub fn data_set_end(cursor: &mut Cursor<'_>) -> Result<DataSetEnd, ParseFault>
    ensures { Takes result cursor.new (data_set_end_at cursor.old) }
{
    expect_sign(cursor, b')')?;
    let nothing = DataSetOptions {
        verify: None,
        population: None,
    };
    let said = read_turns(nothing, cursor)?;
    expect_sign(cursor, b';')?;
    Ok(DataSetEnd {
        verify: said.verify,
        population: said.population.unwrap_or(POPULATION),
    })
}
