ghost use Rattle.std.specs.Prelude.{◌≡◌, IfOk};
ghost use Rattle.dasdl_compile.specs.Conditions.{value_in};

use dms_base::{ItemKind, Literal, Memory, Value, is_kind, value_of};
use std::alloc::Global;

/// The value that a literal spells for an item of a kind, none where it doesn't fit. Answers Err where memory is
/// refused.
#[tactic(auto, unfolding(crate::specs::Conditions::value_in))]
pub fn value_in(alloc: Global, kind: &ItemKind, literal: &Literal) -> Result<Option<Value>, Memory>
    ensures { IfOk result (λ v. v ≡ value_in kind.now literal.now) }
{
    if is_kind(kind) {
        return value_of(alloc, kind, literal);
    }
    Ok(None)
}
