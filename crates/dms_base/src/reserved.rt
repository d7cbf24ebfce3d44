ghost use Rattle.std.specs.Prelude.{◌≡◌};
ghost use Rattle.dms_base.specs.Reserved.{is_reserved, is_item_word, is_structure_word, is_key_word, is_option_word, is_condition_word, is_path_word, is_script_word};

/// Whether a word belongs to items and links.
fn is_item_word(word: &[u8]) -> bool
    ensures { result ≡ is_item_word word.now }
{
    word == b"ALPHA".as_slice()
        || word == b"NUMBER".as_slice()
        || word == b"BOOLEAN".as_slice()
        || word == b"FIELD".as_slice()
        || word == b"GROUP".as_slice()
        || word == b"LINK".as_slice()
        || word == b"TO".as_slice()
}

/// Whether a word belongs to data sets, sets and subsets.
fn is_structure_word(word: &[u8]) -> bool
    ensures { result ≡ is_structure_word word.now }
{
    word == b"COUNTED".as_slice()
        || word == b"DATA".as_slice()
        || word == b"SET".as_slice()
        || word == b"SUBSET".as_slice()
        || word == b"RESTART".as_slice()
        || word == b"OF".as_slice()
        || word == b"WHERE".as_slice()
}

/// Whether a word belongs to keys and to a data set's options.
fn is_key_word(word: &[u8]) -> bool
    ensures { result ≡ is_key_word word.now }
{
    word == b"VERIFY".as_slice()
        || word == b"POPULATION".as_slice()
        || word == b"KEY".as_slice()
        || word == b"IS".as_slice()
        || word == b"ASCENDING".as_slice()
        || word == b"DESCENDING".as_slice()
        || word == b"DUPLICATES".as_slice()
}

/// Whether a word belongs to a set's form and to an item's options.
fn is_option_word(word: &[u8]) -> bool
    ensures { result ≡ is_option_word word.now }
{
    word == b"NO".as_slice()
        || word == b"INDEX".as_slice()
        || word == b"SEQUENTIAL".as_slice()
        || word == b"ORDERED".as_slice()
        || word == b"LIST".as_slice()
        || word == b"REQUIRED".as_slice()
        || word == b"INITIALVALUE".as_slice()
}

/// Whether a word belongs to literals, conditions or parameters.
fn is_condition_word(word: &[u8]) -> bool
    ensures { result ≡ is_condition_word word.now }
{
    word == b"NULL".as_slice()
        || word == b"TRUE".as_slice()
        || word == b"FALSE".as_slice()
        || word == b"AND".as_slice()
        || word == b"OR".as_slice()
        || word == b"NOT".as_slice()
        || word == b"PARAMETERS".as_slice()
}

/// Whether a word belongs to the audit trail or to the ways to move along a path.
fn is_path_word(word: &[u8]) -> bool
    ensures { result ≡ is_path_word word.now }
{
    word == b"AUDIT".as_slice()
        || word == b"NO-AUDIT".as_slice()
        || word == b"TRAIL".as_slice()
        || word == b"FIRST".as_slice()
        || word == b"LAST".as_slice()
        || word == b"NEXT".as_slice()
        || word == b"PRIOR".as_slice()
}

/// Whether a word is another one of script lines.
fn is_script_word(word: &[u8]) -> bool
    ensures { result ≡ is_script_word word.now }
{
    word == b"CURRENT".as_slice()
        || word == b"AT".as_slice()
        || word == b"VIA".as_slice()
        || word == b"INTO".as_slice()
        || word == b"FROM".as_slice()
        || word == b"SYNC".as_slice()
        || word == b"SCRIPT".as_slice()
}

/// Whether a word is reserved, so that no name may be it: the words of schemas and of script lines.
#[tactic(auto, unfolding(crate::specs::Reserved::is_reserved))]
pub fn is_reserved(word: &[u8]) -> bool
    ensures { result ≡ is_reserved word.now }
{
    is_item_word(word)
        || is_structure_word(word)
        || is_key_word(word)
        || is_option_word(word)
        || is_condition_word(word)
        || is_path_word(word)
        || is_script_word(word)
}
