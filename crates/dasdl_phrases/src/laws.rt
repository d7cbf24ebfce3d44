ghost use Rattle.std.specs.Prelude.{◌≡◌, ◌≤◌, ◌++◌, List, map, length};
ghost use Rattle.std.specs.declared.result.Result.TheVariants.{Ok};
ghost use Rattle.dms_tokens.specs.declared.token.Lexeme.{Lexeme};
ghost use Rattle.dasdl_phrases.specs.TreeCodes.{WrittenTree};
ghost use Rattle.dasdl_phrases.specs.Conditions.{cond_at};
ghost use Rattle.dasdl_phrases.specs.declared.key_parts.PartDecl.{PartDecl};
ghost use Rattle.dasdl_phrases.specs.KeySpelling.{IsKey};
ghost use Rattle.dasdl_phrases.specs.KindSpelling.{SpellsKind};
ghost use Rattle.dasdl_phrases.specs.Kinds.{kind_at};
ghost use Rattle.dms_base.specs.declared.kind.ItemKind.{ItemKind};
ghost use Rattle.dasdl_phrases.specs.Keys.{parts_at};
ghost use Rattle.dasdl_phrases.specs.CondSpelling.{IsCond, Reads, nodes, token_of};
ghost use Rattle.dasdl_phrases.specs.CondSpelling.CondPart.{Whole};
ghost use Rattle.dasdl_phrases.specs.ReadingLaws.{ReadsEachCondition, ReadsEachKey};

/// A condition is read exactly where it is one of the grammar with at most 100 nodes: OR joins terms, AND joins factors, both from the left, NOT stands
/// before a factor, and brackets hold a whole condition.
pub fn condition_law()
    ensures sound { (ts rest : List Lexeme) (t : WrittenTree) → cond_at ts ≡ Ok (t, rest) → Reads (IsCond Whole) ts t rest × (nodes t ≤ 100) }
    ensures complete { ReadsEachCondition }
{}

/// A key is read exactly where it is one part, or parts in brackets with a comma between two, at most 16, and each
/// part is a name with a direction behind it or without one.
pub fn key_law()
    ensures sound { (ts rest : List Lexeme) (parts : List PartDecl) → parts_at ts ≡ Ok (parts, rest) → Reads IsKey ts parts rest × (length parts ≤ 16) }
    ensures complete { ReadsEachKey }
{}

/// An item's type is read exactly where it is one, with its numbers in their ranges.
pub fn kind_law()
    ensures sound { (ts rest : List Lexeme) (kind : ItemKind) → kind_at ts ≡ Ok (kind, rest) → Reads SpellsKind ts kind rest }
    ensures complete { (us rest : List Lexeme) (kind : ItemKind) → SpellsKind kind (map token_of us) → kind_at (us ++ rest) ≡ Ok (kind, rest) }
{}
