ghost use Rattle.std.specs.Prelude.{length, nat_le, not, ◌||◌, IsTrue};
ghost use Rattle.std.specs.List.{list_all, list_any};
ghost use Rattle.dms_desc.specs.Shape.{Shape};
ghost use Rattle.dms_desc_bytes.specs.Lists.{apart, is_within, total};
ghost use Rattle.dms_desc_bytes.specs.Spelling.{spelling, is_data_set};
ghost use Rattle.dms_desc.specs.Kinds.{is_restart};
ghost use Rattle.dms_desc_bytes.specs.WellFormed.{has_parameters, stand_in_order, names_differ, is_placed, has_member, not_both_restart, counted_in, is_owned_well, is_shallow, IsWellFormed};
ghost use Rattle.dasdl_laws.specs.Alone.{is_sound_alone};
ghost use Rattle.dasdl_laws.specs.Given.{OfEachText};
ghost use Rattle.dasdl_laws.specs.Together.{is_sound_together, is_within_earlier};

/// Each parameter of a description that a text gives is in its range.
pub fn parameters_law()
    ensures { OfEachText (λ d. IsTrue (has_parameters d)) }
{}

/// A description that a text gives has at most 200 structures, numbered in their order from 1, of kinds 1 to 5, no two
/// with one name, exactly one restart data set among them, which stands in no other and in which no structure stands, and
/// at most 4,000 counted links. Each structure is sound by itself and with those that it names, and each data set has a
/// member. Each structure stands in none, or in a data set before it, and there are at most three levels, the outer one
/// counted. The description has at most 65,535 bytes.
pub fn structures_law()
    ensures few { OfEachText (λ d. IsTrue (nat_le (length d.structures) 200)) }
    ensures numbers { OfEachText (λ d. IsTrue (stand_in_order 1 d.structures)) }
    ensures names { OfEachText (λ d. IsTrue (apart names_differ d.structures)) }
    ensures restart { OfEachText (λ d. IsTrue (list_any is_restart d.structures)) }
    ensures one_restart { OfEachText (λ d. IsTrue (apart not_both_restart d.structures)) }
    ensures counted { OfEachText (λ d. IsTrue (nat_le (total counted_in d.structures) 4000)) }
    ensures kinds { OfEachText (λ d. IsTrue (list_all (λ (x : Shape). is_within 1 5 x.kind) d.structures)) }
    ensures alone { OfEachText (λ d. IsTrue (list_all is_sound_alone d.structures)) }
    ensures together { OfEachText (λ d. IsTrue (list_all (is_sound_together d.structures) d.structures)) }
    ensures placed { OfEachText (λ d. IsTrue (list_all is_placed d.structures)) }
    ensures members { OfEachText (λ d. IsTrue (list_all (λ (x : Shape). not (is_data_set x.kind) || has_member d.structures x) d.structures)) }
    ensures earlier { OfEachText (λ d. IsTrue (list_all (is_within_earlier d.structures) d.structures)) }
    ensures owned { OfEachText (λ d. IsTrue (list_all (is_owned_well d.structures) d.structures)) }
    ensures shallow { OfEachText (λ d. IsTrue (list_all (is_shallow d.structures) d.structures)) }
    ensures short { OfEachText (λ d. IsTrue (nat_le (length (spelling d)) 65535)) }
{}

/// A description that a text gives is well-formed: each parameter is in its range, each structure is sound, and the
/// whole has at most 65,535 bytes.
pub fn well_formed_law()
    ensures { OfEachText IsWellFormed }
{}
