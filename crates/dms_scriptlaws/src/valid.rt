ghost use Rattle.std.specs.Prelude.{◌≡◌, ℕ, List};
ghost use Rattle.dms_desc.specs.Shape.{Described};
ghost use Rattle.dms_desc_bytes.specs.WellFormed.{IsWellFormed};
ghost use Rattle.dms_model.specs.declared.verb.Verb.{Verb};
ghost use Rattle.dms_model.specs.Verbs.{IsVerbOf};
ghost use Rattle.dms_script.specs.declared.line.Line.TheVariants.{Verb as Spoken};
ghost use Rattle.dms_script.specs.Lines.{line_of};
ghost use Rattle.dms_model.specs.Db.{Db, empty_db};
ghost use Rattle.dms_model.specs.Valid.{IsValid};
ghost use Rattle.dasdl_laws.specs.Given.{OfEachText};
ghost use Rattle.dms_scriptlaws.specs.Truths.{IsRunnable, StayValid, TellsTrue};

/// Scripts run under each well-formed description: its verbs keep a database valid, its structures and items have names, and
/// it is in order.
pub fn runnable_law()
    ensures { (desc : Described) → IsWellFormed desc → IsRunnable desc }
{}

/// The verb of a line is one that the engine may be called with, under each well-formed description: what it names is there and
/// of its kind.
pub fn verb_law()
    ensures { (desc : Described) → IsWellFormed desc → (line : List ℕ) (name : List ℕ) (verb : Verb) → line_of desc line ≡ Spoken name verb → IsVerbOf desc verb }
{}

/// The database of each quiet point of a script, and the one that it leaves, are valid, where the first one is; their numbers rise one by one.
pub fn quiets_law()
    ensures { (desc : Described) → IsRunnable desc → (db : Db) → IsValid desc db → (first : ℕ) (lines : List (List ℕ)) → StayValid desc db first lines }
{}

/// Every script over the empty database of a compiled schema stays valid, and what it tells is true.
pub fn scripts_stay_valid()
    ensures valid { OfEachText (λ d. (first : ℕ) (lines : List (List ℕ)) → StayValid d empty_db first lines) }
    ensures told { OfEachText (λ d. (first : ℕ) (lines : List (List ℕ)) → TellsTrue d empty_db first lines) }
{}
