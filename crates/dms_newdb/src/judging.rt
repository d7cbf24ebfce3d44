ghost use Rattle.std.specs.Prelude.{Ok, Err};
ghost use Rattle.dasdl_compile.specs.Compile.{compile_schema};
ghost use Rattle.dms_newdb.specs.Judging.{compiled_as, judge_schema};
ghost use Rattle.dms_newdb.specs.JudgedSchema.{AnswersJudging};

use dasdl_compile::{CompileFault, compile};
use dasdl_parse::{Schema, parse};
use dasdl_phrases::ParseFault;
use dms_desc::Description;
use dms_status::SchemaFault;
use std::alloc::Global;

/// What a text of the schema language is.
#[derive(Drop)]
pub enum JudgedSchema {
    Description(Description),
    Refused(SchemaFault),
    Memory,
}

fn compile_schema(alloc: Global, schema: &Schema) -> JudgedSchema
    ensures { AnswersJudging result (compiled_as (compile_schema schema.now.parameters schema.now.declarations)) }
{
    match compile(alloc, schema) {
        Ok(desc) => JudgedSchema::Description(desc),
        Err(CompileFault::Memory) => JudgedSchema::Memory,
        Err(fault) => JudgedSchema::Refused(SchemaFault::Compile(fault)),
    }
}

/// The description that a text spells, or its first fault.
#[tactic(auto, unfolding(crate::specs::Judging::judge_schema))]
pub fn judge(alloc: Global, text: &[u8]) -> JudgedSchema
    ensures { AnswersJudging result (judge_schema text.now) }
{
    match parse(alloc, text) {
        Ok(schema) => compile_schema(alloc, &schema),
        Err(ParseFault::Memory) => JudgedSchema::Memory,
        Err(fault) => JudgedSchema::Refused(SchemaFault::Parse(fault)),
    }
}
