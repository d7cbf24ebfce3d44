ghost use Rattle.dms_flaws.specs.Entries.{EntriesAgree};
ghost use Rattle.dms_flaws.specs.Rules.{RulesAgree};

/// Law: no live entry breaks a rule exactly where the live entries agree, but for what counts as each block.
pub fn rules_law()
    ensures { RulesAgree }
{}

/// Law: no entry disagrees exactly where the entries agree, but for what counts as each block.
pub fn entries_law()
    ensures { EntriesAgree }
{}
