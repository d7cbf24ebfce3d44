ghost use Rattle.std.specs.Prelude.{◌≡◌, ◌<◌, ◌^◌, ◌++◌, ◌∷◌, [], ℕ, List};
ghost use Rattle.dms_desc.specs.Shape.{Described};
ghost use Rattle.dms_model.specs.Db.{Db};
ghost use Rattle.dms_model.specs.Valid.{IsValid};
ghost use Rattle.dms_script.specs.Replies.{syncpoint_text};
ghost use Rattle.dms_scriptlaws.specs.Told.{told_line};
ghost use Rattle.dms_scriptlaws.specs.Truths.{IsRunnable, TellsTrue, StopsTold};

/// A line tells the number of the syncpoint whose text it is, with its line feed.
pub fn told_law()
    ensures { (n : ℕ) (line : List ℕ) → n < 2 ^ 64 → line ++ 10 ∷ [] ≡ syncpoint_text n → told_line line ≡ n }
{}

/// Wherever the text of a script breaks off, it tells no quiet point but one that the script made durable before, whatever
/// the programs, their lines and the order in which those are answered.
pub fn truth_law()
    ensures { (desc : Described) → IsRunnable desc → (db : Db) → IsValid desc db → (first : ℕ) (lines : List (List ℕ)) → TellsTrue desc db first lines }
{}

/// A stop within a run leaves the quiet point that the printed text tells, where every earlier quiet point was durable.
pub fn stop_law()
    ensures { (desc : Described) → IsRunnable desc → (db : Db) → IsValid desc db → (first : ℕ) (lines : List (List ℕ)) → StopsTold desc db first lines }
{}
