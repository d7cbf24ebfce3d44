//! What an input asks for.

ghost use Rattle.std.specs.Prelude.{◌≡◌, ℕ, List, Some, IfOk, IfErr, IsErrOf, []};
ghost use Rattle.std.specs.declared.result.Result.TheVariants as answer;
ghost use Rattle.dms_audfile.specs.Counting.{CountedAt};
ghost use Rattle.dms_statements.specs.Statements.{IsFit, statement_of};
ghost use Rattle.dms_utility.specs.Asking.{IsOfText};

use crate::text::{TextFault, statement_text};
use dms_site::Source;
use dms_statements::{Statement, StatementFault, read_statement};
use dms_status::Status;
use std::alloc::Global;

/// The statement that the whole input is. Answers BadStatement with its first bad place, InputFault and Memory.
pub(crate) fn statement_in<I: Source>(alloc: Global, source: &mut I) -> Result<Statement, Status>
    ensures asks { IfOk result (λ s. (all : List ℕ) → I.left source.old ≡ Some all → statement_of all ≡ answer.Ok s) }
    ensures end { IfOk result (λ s. (all : List ℕ) → I.left source.old ≡ Some all → I.left source.new ≡ Some []) }
    ensures bad { IfErr result (λ e. (p : ℕ) → e ≡ Status.BadStatement p → (all : List ℕ) → I.left source.old ≡ Some all → statement_of all ≡ answer.Err p) }
    ensures only { IfErr result IsOfText }
    ensures fit { IfOk result IsFit }
    ensures same { I.same_source source.old source.new }
    ensures counted { CountedAt (IsErrOf result Status.InputFault) (I.faults source.old) (I.faults source.new) }
{
    let text = match statement_text(alloc, source) {
        Ok(text) => text,
        Err(TextFault::Input) => return Err(Status::InputFault),
        Err(TextFault::Memory) => return Err(Status::Memory),
        Err(TextFault::Long) => return Err(Status::BadStatement(10_001)),
    };
    match read_statement(alloc, text.as_slice()) {
        Ok(statement) => Ok(statement),
        Err(StatementFault::Bad(place)) => Err(Status::BadStatement(place)),
        Err(StatementFault::Memory) => Err(Status::Memory),
    }
}
