ghost use Rattle.std.specs.Prelude.{◌≡◌};
ghost use Rattle.dms_desc.specs.Shape.{Described};
ghost use Rattle.dms_desc_bytes.specs.Spelling.{spelling};
ghost use Rattle.dms_desc_bytes.specs.WellFormed.{IsWellFormed};

/// Two well-formed descriptions that are spelled by the same bytes are one. So what was encoded is decoded
/// again.
pub fn spelling_law()
    ensures { (d e : Described) → IsWellFormed d → IsWellFormed e → spelling d ≡ spelling e → d ≡ e }
{}
