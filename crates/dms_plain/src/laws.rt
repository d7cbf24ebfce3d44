ghost use Rattle.std.specs.Prelude.{◌≡◌, ◌≤◌, ℕ, None};
ghost use Rattle.std.specs.FinMap.{get};
ghost use Rattle.dms_model.specs.Db.{Records, fresh};

/// A new record's number is at least 1, and no record of its data set has it.
pub fn number_law()
    ensures free { (records : Records) (set : ℕ) → get records (set, fresh records set) ≡ None }
    ensures from_one { (records : Records) (set : ℕ) → 1 ≤ fresh records set }
{}
