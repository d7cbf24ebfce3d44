ghost use Rattle.std.specs.Prelude.{◌≡◌, ◌++◌, ℕ, List, map};
ghost use Rattle.std.specs.declared.result.Result.TheVariants.{Ok};
ghost use Rattle.dms_tokens.specs.declared.token.Lexeme.{Lexeme};
ghost use Rattle.dasdl_phrases.specs.Cursors.{turns_at, until_semicolon};
ghost use Rattle.dasdl_parse.specs.declared.items.ItemOptions.{ItemOptions};
ghost use Rattle.dasdl_parse.specs.Items.{next_item_option_at, no_options, item_at};
ghost use Rattle.dasdl_parse.specs.ReadingLaws.{ReadsEachOption, ReadsLinksAlone, ReadsEachLink};
ghost use Rattle.dasdl_parse.specs.OptionSpelling.{AreItemOptions};
ghost use Rattle.dasdl_parse.specs.ItemSpelling.{IsItem};
ghost use Rattle.dasdl_parse.specs.declared.declarations.ItemDecl.{ItemDecl};
ghost use Rattle.dasdl_phrases.specs.CondSpelling.{Reads, token_of};

/// The options of an item are read exactly where they are some: in any order, each with a comma before it or without
/// one, REQUIRED once at most, and INITIALVALUE or NULL once at most.
pub fn item_options_law()
    ensures sound { (ts rest : List Lexeme) (said : ItemOptions) → turns_at until_semicolon next_item_option_at no_options ts ≡ Ok (said, rest) → Reads AreItemOptions ts said rest }
    ensures complete { ReadsEachOption }
{}

/// What stands behind an item's name is read exactly where it is a type, options and a semicolon.
pub fn item_law()
    ensures sound { (place : ℕ) (name : List ℕ) (ts rest : List Lexeme) (item : ItemDecl) → item_at place name ts ≡ Ok (item, rest) → Reads (IsItem place name) ts item rest }
    ensures complete { (place : ℕ) (name : List ℕ) (us rest : List Lexeme) (item : ItemDecl) → IsItem place name item (map token_of us) → item_at place name (us ++ rest) ≡ Ok (item, rest) }
{}

/// What stands behind a link's name is read exactly where it is LINK TO, a name, and COUNTED or not, which at most
/// 4,000 links of a schema are.
pub fn link_law()
    ensures sound { ReadsLinksAlone }
    ensures complete { ReadsEachLink }
{}
