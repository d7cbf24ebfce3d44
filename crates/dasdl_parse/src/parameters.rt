ghost use Rattle.dasdl_phrases.specs.Reads.{Takes};
ghost use Rattle.dasdl_phrases.specs.Cursors.{until_close};
ghost use Rattle.dasdl_parse.specs.Parameters.{setting_at, measure_at, pair_at, next_pair_at, parameters_at, audit_pair_at, next_audit_pair_at, audit_at};

use dasdl_phrases::expect::{expect_equal, expect_sign, expect_word, fault, read_number};
use dasdl_phrases::{ParseFault, Turns, read_turns};
use dms_tokens::Cursor;

/// What PARAMETERS has said so far.
#[derive(Clone, Copy)]
pub struct ParameterPairs {
    pub syncpoint: Option<u16>,
    pub controlpoint: Option<u16>,
    pub buffers: Option<u16>,
}

/// What AUDIT TRAIL has said so far.
#[derive(Clone, Copy)]
pub struct AuditPairs {
    pub blocks: Option<u16>,
    pub files: Option<u16>,
}

/// `word = number`.
#[tactic(auto, unfolding(crate::specs::Parameters::setting_at))]
fn setting(cursor: &mut Cursor<'_>, word: &[u8], low: u16, high: u16) -> Result<u16, ParseFault>
    ensures { Takes result cursor.new (setting_at word.now low high cursor.old) }
{
    expect_word(cursor, word)?;
    expect_equal(cursor)?;
    let number = read_number(cursor, u64::from(low), u64::from(high))?;
    Ok(number as u16)
}

/// `word = number unit`.
#[tactic(auto, unfolding(crate::specs::Parameters::measure_at))]
fn measure(
    cursor: &mut Cursor<'_>,
    word: &[u8],
    low: u16,
    high: u16,
    unit: &[u8],
) -> Result<u16, ParseFault>
    ensures { Takes result cursor.new (measure_at word.now low high unit.now cursor.old) }
{
    let number = setting(cursor, word, low, high)?;
    expect_word(cursor, unit)?;
    Ok(number)
}

#[tactic(auto, unfolding(crate::specs::Parameters::pair_at))]
fn pair(pairs: ParameterPairs, cursor: &mut Cursor<'_>) -> Result<ParameterPairs, ParseFault>
    ensures { Takes result cursor.new (pair_at pairs cursor.old) }
{
    if cursor.starts_word(b"SYNCPOINT") && pairs.syncpoint.is_none() {
        let number = measure(cursor, b"SYNCPOINT", 1, 10_000, b"TRANSACTIONS")?;
        return Ok(ParameterPairs {
            syncpoint: Some(number),
            ..pairs
        });
    }
    if cursor.starts_word(b"CONTROLPOINT") && pairs.controlpoint.is_none() {
        let number = measure(cursor, b"CONTROLPOINT", 1, 10_000, b"SYNCPOINTS")?;
        return Ok(ParameterPairs {
            controlpoint: Some(number),
            ..pairs
        });
    }
    if cursor.starts_word(b"BUFFERS") && pairs.buffers.is_none() {
        let number = measure(cursor, b"BUFFERS", 8, 4_096, b"BLOCKS")?;
        return Ok(ParameterPairs {
            buffers: Some(number),
            ..pairs
        });
    }
    Err(fault(cursor))
}

impl Turns for ParameterPairs {
    ghost done_at = { until_close };

    ghost turn_at = { next_pair_at };

    fn is_done(&self, cursor: &Cursor<'_>) -> bool {
        cursor.starts_sign(b')')
    }

    #[tactic(auto, unfolding(crate::specs::Parameters::next_pair_at))]
    fn turn(self, cursor: &mut Cursor<'_>) -> Result<ParameterPairs, ParseFault> {
        expect_sign(cursor, b',')?;
        pair(self, cursor)
    }
}

/// `PARAMETERS ( pair {, pair} ) ;`. Answers BadCharacter or Expected at the first token that isn't allowed, and
/// NumberRange at a number outside its range.
#[tactic(auto, unfolding(crate::specs::Parameters::parameters_at))]
pub fn parameters(cursor: &mut Cursor<'_>) -> Result<ParameterPairs, ParseFault>
    ensures { Takes result cursor.new (parameters_at cursor.old) }
{
    expect_word(cursor, b"PARAMETERS")?;
    expect_sign(cursor, b'(')?;
    let nothing = ParameterPairs {
        syncpoint: None,
        controlpoint: None,
        buffers: None,
    };
    let first = pair(nothing, cursor)?;
    let all = read_turns(first, cursor)?;
    expect_sign(cursor, b')')?;
    expect_sign(cursor, b';')?;
    Ok(all)
}

#[tactic(auto, unfolding(crate::specs::Parameters::audit_pair_at))]
fn audit_pair(pairs: AuditPairs, cursor: &mut Cursor<'_>) -> Result<AuditPairs, ParseFault>
    ensures { Takes result cursor.new (audit_pair_at pairs cursor.old) }
{
    if cursor.starts_word(b"BLOCKS") && pairs.blocks.is_none() {
        let number = setting(cursor, b"BLOCKS", 8, 512)?;
        return Ok(AuditPairs {
            blocks: Some(number),
            ..pairs
        });
    }
    if cursor.starts_word(b"FILES") && pairs.files.is_none() {
        let number = setting(cursor, b"FILES", 2, 9_999)?;
        return Ok(AuditPairs {
            files: Some(number),
            ..pairs
        });
    }
    Err(fault(cursor))
}

impl Turns for AuditPairs {
    ghost done_at = { until_close };

    ghost turn_at = { next_audit_pair_at };

    fn is_done(&self, cursor: &Cursor<'_>) -> bool {
        cursor.starts_sign(b')')
    }

    #[tactic(auto, unfolding(crate::specs::Parameters::next_audit_pair_at))]
    fn turn(self, cursor: &mut Cursor<'_>) -> Result<AuditPairs, ParseFault> {
        expect_sign(cursor, b',')?;
        audit_pair(self, cursor)
    }
}

/// `AUDIT TRAIL ( pair {, pair} ) ;`. Answers BadCharacter or Expected at the first token that isn't allowed, and
/// NumberRange at a number outside its range.
#[tactic(auto, unfolding(crate::specs::Parameters::audit_at))]
pub fn audit(cursor: &mut Cursor<'_>) -> Result<AuditPairs, ParseFault>
    ensures { Takes result cursor.new (audit_at cursor.old) }
{
    expect_word(cursor, b"AUDIT")?;
    expect_word(cursor, b"TRAIL")?;
    expect_sign(cursor, b'(')?;
    let nothing = AuditPairs {
        blocks: None,
        files: None,
    };
    let first = audit_pair(nothing, cursor)?;
    let all = read_turns(first, cursor)?;
    expect_sign(cursor, b')')?;
    expect_sign(cursor, b';')?;
    Ok(all)
}
