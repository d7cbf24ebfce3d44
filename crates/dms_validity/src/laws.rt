ghost use Rattle.dms_validity.specs.Validity.{SpelledIsValid};

/// Law: a database that a content spells is valid where REQUIRED, VERIFY, POPULATION and own keys are kept beside.
pub fn validity_law()
    ensures { SpelledIsValid }
{}
