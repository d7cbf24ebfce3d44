ghost use Rattle.dasdl_grammar.specs.SchemaSpelling.{IsSchema};
ghost use Rattle.dms_tokens.specs.Tokens.{tokens_of};
ghost use Rattle.dasdl_parse.specs.Grammar.{schema_of};
ghost use Rattle.dasdl_parse.specs.declared.schema.Schema.{Schema};
ghost use Rattle.dasdl_grammar.specs.ReadingLaws.{ReadsGroupsAlone, ReadsEachGroup};
ghost use Rattle.dasdl_grammar.specs.SaidSpelling.{SpellsFirst};
ghost use Rattle.dasdl_grammar.specs.SetSpelling.{IsSet, IsHead, IsEnd};
ghost use Rattle.dasdl_grammar.specs.ParameterSpelling.{AreParameters, IsTrail};
ghost use Rattle.dasdl_parse.specs.Sets.{set_at};
ghost use Rattle.dasdl_parse.specs.Grammar.{data_set_at, data_set_end_at};
ghost use Rattle.dasdl_parse.specs.Parameters.{parameters_at, audit_at};
ghost use Rattle.dasdl_parse.specs.declared.declarations.SetDecl.{SetDecl};
ghost use Rattle.dasdl_parse.specs.declared.declarations.DataSetDecl.{DataSetDecl};
ghost use Rattle.dasdl_parse.specs.declared.declarations.DataSetEnd.{DataSetEnd};
ghost use Rattle.dasdl_parse.specs.declared.parameters.ParameterPairs.{ParameterPairs};
ghost use Rattle.dasdl_parse.specs.declared.parameters.AuditPairs.{AuditPairs};
ghost use Rattle.std.specs.Prelude.{◌≡◌, ◌≤◌, ◌++◌, ℕ, List, map, length};
ghost use Rattle.std.specs.declared.result.Result.TheVariants.{Ok};
ghost use Rattle.dms_tokens.specs.declared.token.Lexeme.{Lexeme};
ghost use Rattle.dasdl_phrases.specs.CondSpelling.{Reads, token_of};

/// What stands behind a group's name is read exactly where it is GROUP and items in brackets, by which its data set has
/// no more than 60.
pub fn group_law()
    ensures sound { ReadsGroupsAlone }
    ensures complete { ReadsEachGroup }
{}

/// What stands behind a set's name is read exactly where it is SET or SUBSET, OF and a name, options in any order, each
/// with a comma before it or without one and each said once at most, and a semicolon.
pub fn set_law()
    ensures sound { (place : ℕ) (name : List ℕ) (ts rest : List Lexeme) (set : SetDecl) → set_at place name ts ≡ Ok (set, rest) → SpellsFirst (IsSet place name) ts set rest }
    ensures complete { (place : ℕ) (name : List ℕ) (us rest : List Lexeme) (set : SetDecl) → IsSet place name set us → set_at place name (us ++ rest) ≡ Ok (set, rest) }
{}

/// What stands behind a data set's name, before its members, is read exactly where it is RESTART or not, DATA SET and a
/// bracket.
pub fn head_law()
    ensures sound { (place : ℕ) (name : List ℕ) (ts rest : List Lexeme) (head : DataSetDecl) → data_set_at place name ts ≡ Ok (head, rest) → Reads (IsHead place name) ts head rest }
    ensures complete { (place : ℕ) (name : List ℕ) (us rest : List Lexeme) (h : DataSetDecl) → IsHead place name h (map token_of us) → data_set_at place name (us ++ rest) ≡ Ok (h, rest) }
{}

/// What stands behind a data set's members is read exactly where it is a bracket, options in any order, each said once
/// at most, and a semicolon.
pub fn end_law()
    ensures sound { (ts rest : List Lexeme) (end : DataSetEnd) → data_set_end_at ts ≡ Ok (end, rest) → SpellsFirst IsEnd ts end rest }
    ensures complete { (us rest : List Lexeme) (end : DataSetEnd) → IsEnd end us → data_set_end_at (us ++ rest) ≡ Ok (end, rest) }
{}

/// PARAMETERS is read exactly where it has pairs in any order, each once at most, with its number in its range.
pub fn parameters_law()
    ensures sound { (ts rest : List Lexeme) (said : ParameterPairs) → parameters_at ts ≡ Ok (said, rest) → Reads AreParameters ts said rest }
    ensures complete { (us rest : List Lexeme) (said : ParameterPairs) → AreParameters said (map token_of us) → parameters_at (us ++ rest) ≡ Ok (said, rest) }
{}

/// AUDIT TRAIL is read exactly where it has pairs in any order, each once at most, with its number in its range.
pub fn audit_law()
    ensures sound { (ts rest : List Lexeme) (said : AuditPairs) → audit_at ts ≡ Ok (said, rest) → Reads IsTrail ts said rest }
    ensures complete { (us rest : List Lexeme) (said : AuditPairs) → IsTrail said (map token_of us) → audit_at (us ++ rest) ≡ Ok (said, rest) }
{}

/// A text is read exactly where it is a schema of the grammar within the limits, and as the declarations that it spells.
pub fn schema_law()
    ensures sound { (text : List ℕ) (schema : Schema) → schema_of text ≡ Ok schema → IsSchema schema (tokens_of text) × (length text ≤ 1000000) }
    ensures complete { (text : List ℕ) (schema : Schema) → IsSchema schema (tokens_of text) → length text ≤ 1000000 → schema_of text ≡ Ok schema }
{}
