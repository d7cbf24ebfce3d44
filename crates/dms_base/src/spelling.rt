ghost use Rattle.std.specs.Prelude.{◌≡◌, IfOk, IsTrue};
ghost use Rattle.dms_base.specs.Fits.{IsKind, IsLiteral};
ghost use Rattle.dms_base.specs.Spelling.{is_kind, is_literal, value_for, text_for};

use crate::{Bytes, ItemKind, Literal, Memory, Value, value_of, value_text};
use std::alloc::Global;

/// Whether a schema can declare this kind.
pub fn is_kind(kind: &ItemKind) -> bool
    ensures value { result ≡ is_kind kind.now }
    ensures kind { IsTrue result → IsKind kind.now }
{
    match kind {
        ItemKind::Alpha(n) => 1 <= *n && *n <= 200,
        ItemKind::Number(n, m, _) => 1 <= *n && *n <= 18 && *m <= *n,
        ItemKind::Bool => true,
        ItemKind::Field(n) => 1 <= *n && *n <= 48,
        ItemKind::Link(_, _) => true,
    }
}

/// Whether a text can spell this literal.
fn is_literal(literal: &Literal) -> bool
    ensures value { result ≡ is_literal literal.now }
    ensures literal { IsTrue result → IsLiteral literal.now }
{
    match literal {
        Literal::Null => true,
        Literal::Text(_) => true,
        Literal::Number(_, digits, places) => {
            *digits < 1_000_000_000_000_000_000 && *places < 18
        }
        Literal::Bool(_) => true,
    }
}

/// The value that a literal spells for a kind, by `value_of`; none where no schema has this kind or no
/// text spells this literal. Answers Err where memory is refused.
pub fn value_for(alloc: Global, kind: &ItemKind, literal: &Literal) -> Result<Option<Value>, Memory>
    ensures { IfOk result (λ v. v ≡ value_for kind.now literal.now) }
{
    if is_kind(kind) && is_literal(literal) {
        return value_of(alloc, kind, literal);
    }
    Ok(None)
}

/// A value as a reply shows it, by `value_text`; nothing where no schema has this kind.
/// Answers Err where memory is refused.
pub fn text_for(alloc: Global, kind: &ItemKind, value: &Value) -> Result<Bytes, Memory>
    ensures { IfOk result (λ t. t ≡ text_for kind.now value.now) }
{
    if is_kind(kind) {
        return value_text(alloc, kind, value);
    }
    Ok(Bytes::new(alloc))
}
