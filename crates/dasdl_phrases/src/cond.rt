ghost use Rattle.std.specs.Prelude.{◌≡◌, IfOk};
ghost use Rattle.dasdl_phrases.specs.Reads.{Takes};
ghost use Rattle.dasdl_phrases.specs.Conditions.{close_factor, op_at, compare_at, compare_turn_at, not_turn_at, open_turn_at, factor_turn_at, and_turn_at, or_turn_at, close_turn_at, join_turn_at, cond_turn_at, cond_done, cond_at, cond_decl_at};

use crate::conditions::{Branch, CondDecl};
use crate::expect::{expect_sign, expect_word, fault, read_name, starts_free};
use crate::fault::ParseFault;
use crate::levels::{Level, Levels};
use crate::turns::{Turns, read_turns};
use dms_base::{Memory, Op};
use dms_tokens::{Cursor, Token};
use std::alloc::Global;

/// The nodes that a condition may have: comparisons, NOT, AND and OR.
pub const NODES: u8 = 100;

/// A condition so far.
#[derive(Drop)]
pub struct CondRead {
    /// What stands outside the innermost brackets.
    pub outer: Levels,
    /// What stands within them, before `done`.
    pub level: Level,
    /// What has been read behind the last AND, OR or opening bracket, where that is a whole factor.
    pub done: Option<Branch>,
    pub nodes: u8,
}

/// A factor is read.
#[tactic(auto, unfolding(crate::specs::Conditions::close_factor))]
fn close_factor(
    alloc: Global,
    outer: Levels,
    level: Level,
    nodes: u8,
    factor: Branch,
) -> Result<CondRead, Memory>
    ensures { IfOk result (λ s. s ≡ close_factor outer level nodes factor) }
{
    let Level { either, both, nots } = level;
    let negated = factor.under_nots(alloc, nots)?;
    let done = negated.with_and(alloc, both)?;
    Ok(CondRead {
        outer,
        level: Level {
            either,
            both: None,
            nots: 0,
        },
        done: Some(done),
        nodes,
    })
}

#[tactic(auto, unfolding(crate::specs::Conditions::op_at))]
fn op(cursor: &mut Cursor<'_>) -> Result<Op, ParseFault>
    ensures { Takes result cursor.new (op_at cursor.old) }
{
    let [first, ..] = cursor.rest() else {
        return Err(ParseFault::Expected(0));
    };
    let Token::Compare(op) = &first.token else {
        return Err(fault(cursor));
    };
    cursor.skip();
    Ok(*op)
}

/// `name op literal`.
#[tactic(auto, unfolding(crate::specs::Conditions::compare_at))]
fn compare(cursor: &mut Cursor<'_>) -> Result<Branch, ParseFault>
    ensures { Takes result cursor.new (compare_at cursor.old) }
{
    let name = read_name(cursor)?;
    let op = op(cursor)?;
    let literal = crate::kinds::literal(cursor)?;
    Ok(Branch::compare(name, op, literal))
}

#[tactic(auto, unfolding(crate::specs::Conditions::compare_turn_at))]
fn compare_turn(state: CondRead, cursor: &mut Cursor<'_>) -> Result<CondRead, ParseFault>
    ensures { Takes result cursor.new (compare_turn_at state cursor.old) }
{
    if !starts_free(cursor) {
        return Err(fault(cursor));
    }
    if state.nodes >= NODES {
        return Err(ParseFault::TooMany(100));
    }
    let factor = compare(cursor)?;
    let next = close_factor(
        cursor.alloc(),
        state.outer,
        state.level,
        state.nodes + 1,
        factor,
    )?;
    Ok(next)
}

#[tactic(auto, unfolding(crate::specs::Conditions::not_turn_at))]
fn not_turn(state: CondRead, cursor: &mut Cursor<'_>) -> Result<CondRead, ParseFault>
    ensures { Takes result cursor.new (not_turn_at state cursor.old) }
{
    if state.nodes >= NODES || state.level.nots >= NODES {
        return Err(ParseFault::TooMany(100));
    }
    expect_word(cursor, b"NOT")?;
    let CondRead {
        outer,
        level,
        done: _,
        nodes,
    } = state;
    let Level { either, both, nots } = level;
    Ok(CondRead {
        outer,
        level: Level {
            either,
            both,
            nots: nots + 1,
        },
        done: None,
        nodes: nodes + 1,
    })
}

#[tactic(auto, unfolding(crate::specs::Conditions::open_turn_at))]
fn open_turn(state: CondRead, cursor: &mut Cursor<'_>) -> Result<CondRead, ParseFault>
    ensures { Takes result cursor.new (open_turn_at state cursor.old) }
{
    expect_sign(cursor, b'(')?;
    let mut outer = state.outer;
    outer.push(state.level)?;
    Ok(CondRead {
        outer,
        level: Level {
            either: None,
            both: None,
            nots: 0,
        },
        done: None,
        nodes: state.nodes,
    })
}

/// Where a factor is wanted.
#[tactic(auto, unfolding(crate::specs::Conditions::factor_turn_at))]
fn factor_turn(state: CondRead, cursor: &mut Cursor<'_>) -> Result<CondRead, ParseFault>
    ensures { Takes result cursor.new (factor_turn_at state cursor.old) }
{
    if cursor.starts_word(b"NOT") {
        return not_turn(state, cursor);
    }
    if cursor.starts_sign(b'(') {
        return open_turn(state, cursor);
    }
    compare_turn(state, cursor)
}

#[tactic(auto, unfolding(crate::specs::Conditions::and_turn_at))]
fn and_turn(
    outer: Levels,
    level: Level,
    nodes: u8,
    left: Branch,
    cursor: &mut Cursor<'_>,
) -> Result<CondRead, ParseFault>
    ensures { Takes result cursor.new (and_turn_at outer level nodes left cursor.old) }
{
    if nodes >= NODES {
        return Err(ParseFault::TooMany(100));
    }
    expect_word(cursor, b"AND")?;
    Ok(CondRead {
        outer,
        level: Level {
            either: level.either,
            both: Some(left),
            nots: 0,
        },
        done: None,
        nodes: nodes + 1,
    })
}

#[tactic(auto, unfolding(crate::specs::Conditions::or_turn_at))]
fn or_turn(
    outer: Levels,
    level: Level,
    nodes: u8,
    left: Branch,
    cursor: &mut Cursor<'_>,
) -> Result<CondRead, ParseFault>
    ensures { Takes result cursor.new (or_turn_at outer level nodes left cursor.old) }
{
    if nodes >= NODES {
        return Err(ParseFault::TooMany(100));
    }
    expect_word(cursor, b"OR")?;
    let either = left.with_or(cursor.alloc(), level.either)?;
    Ok(CondRead {
        outer,
        level: Level {
            either: Some(either),
            both: None,
            nots: 0,
        },
        done: None,
        nodes: nodes + 1,
    })
}

/// A closing bracket.
#[tactic(auto, unfolding(crate::specs::Conditions::close_turn_at))]
fn close_turn(
    mut outer: Levels,
    inner: Level,
    nodes: u8,
    left: Branch,
    cursor: &mut Cursor<'_>,
) -> Result<CondRead, ParseFault>
    ensures { Takes result cursor.new (close_turn_at outer inner nodes left cursor.old) }
{
    match outer.pop() {
        None => Err(fault(cursor)),
        Some(level) => {
            expect_sign(cursor, b')')?;
            let factor = left.with_or(cursor.alloc(), inner.either)?;
            let next = close_factor(cursor.alloc(), outer, level, nodes, factor)?;
            Ok(next)
        }
    }
}

/// Where a factor has been read.
#[tactic(auto, unfolding(crate::specs::Conditions::join_turn_at))]
fn join_turn(
    outer: Levels,
    level: Level,
    nodes: u8,
    left: Branch,
    cursor: &mut Cursor<'_>,
) -> Result<CondRead, ParseFault>
    ensures { Takes result cursor.new (join_turn_at outer level nodes left cursor.old) }
{
    if cursor.starts_word(b"AND") {
        return and_turn(outer, level, nodes, left, cursor);
    }
    if cursor.starts_word(b"OR") {
        return or_turn(outer, level, nodes, left, cursor);
    }
    close_turn(outer, level, nodes, left, cursor)
}

impl Turns for CondRead {
    ghost done_at = { cond_done };

    ghost turn_at = { cond_turn_at };

    fn is_done(&self, cursor: &Cursor<'_>) -> bool {
        self.done.is_some()
            && self.outer.is_empty()
            && !(cursor.starts_word(b"AND") || cursor.starts_word(b"OR"))
    }

    #[tactic(auto, unfolding(crate::specs::Conditions::cond_turn_at))]
    fn turn(self, cursor: &mut Cursor<'_>) -> Result<CondRead, ParseFault> {
        let CondRead {
            outer,
            level,
            done,
            nodes,
        } = self;
        match done {
            None => factor_turn(
                CondRead {
                    outer,
                    level,
                    done: None,
                    nodes,
                },
                cursor,
            ),
            Some(left) => join_turn(outer, level, nodes, left, cursor),
        }
    }
}

#[tactic(auto, unfolding(crate::specs::Conditions::cond_at))]
fn cond(cursor: &mut Cursor<'_>) -> Result<Branch, ParseFault>
    ensures { Takes result cursor.new (cond_at cursor.old) }
{
    let nothing = CondRead {
        outer: Levels::new(cursor.alloc()),
        level: Level {
            either: None,
            both: None,
            nots: 0,
        },
        done: None,
        nodes: 0,
    };
    let all = read_turns(nothing, cursor)?;
    let CondRead {
        outer: _,
        level,
        done,
        nodes: _,
    } = all;
    match done {
        None => Err(fault(cursor)),
        Some(left) => {
            let whole = left.with_or(cursor.alloc(), level.either)?;
            Ok(whole)
        }
    }
}

/// This word, VERIFY or WHERE, and a condition, of which more than 100 nodes are TooMany with 100. Answers BadCharacter
/// or Expected at the first token that isn't allowed, NumberRange at a number that is too long, TooMany with 30 at a
/// name that is, and Memory.
#[tactic(auto, unfolding(crate::specs::Conditions::cond_decl_at))]
pub fn cond_decl(cursor: &mut Cursor<'_>, word: &[u8]) -> Result<CondDecl, ParseFault>
    ensures { Takes result cursor.new (cond_decl_at word.now cursor.old) }
{
    let place = cursor.place();
    expect_word(cursor, word)?;
    let tree = cond(cursor)?;
    Ok(tree.declare(place))
}
