ghost use Rattle.std.specs.Prelude.{◌≡◌, ◌≤◌, ◌++◌, List, false, length, take, drop};
ghost use Rattle.std.specs.declared.cmp.Ordering.TheVariants.{Less};
ghost use Rattle.dms_base.specs.declared.kind.ItemKind.{ItemKind};
ghost use Rattle.dms_base.specs.declared.value.Value.{Value};
ghost use Rattle.dms_base.specs.declared.value.Value.TheVariants.{Null};
ghost use Rattle.dms_base.specs.Orders.{value_cmp};
ghost use Rattle.dms_desc.specs.declared.structure.KeyPart.{KeyPart};
ghost use Rattle.dms_desc.specs.Conds.{is_null};
ghost use Rattle.dms_desc.specs.Plain.{FitsKind};
ghost use Rattle.dms_desc.specs.Keys.{key_cmp};
ghost use Rattle.dms_key.specs.KeyBytes.{bytes_cmp, field_bytes, key_bytes, key_bytes_cmp, key_width, KeyHasKinds};

/// A law: the order of bytes is that of the values of one kind, with null above all others, that of whole keys, in
/// each direction of each part, and that of the first values of keys.
pub fn order_law()
    ensures keys { (kinds : List ItemKind) (ps : List KeyPart) (a b : List Value) → KeyHasKinds kinds ps a → KeyHasKinds kinds ps b
        → length a ≡ length ps → length b ≡ length ps
        → key_bytes_cmp kinds ps a b ≡ key_cmp ps a b }
    ensures first_values { (kinds : List ItemKind) (ps : List KeyPart) (a b : List Value) → KeyHasKinds kinds ps a → KeyHasKinds kinds ps b
        → length a ≡ length b
        → key_bytes_cmp kinds ps a b ≡ key_cmp (take (length a) ps) a b }
    ensures values { (k : ItemKind) (v w : Value) → FitsKind k v → FitsKind k w
        → bytes_cmp (field_bytes k v) (field_bytes k w) ≡ value_cmp v w }
    ensures null_highest { (k : ItemKind) (v : Value) → FitsKind k v → is_null v ≡ false
        → bytes_cmp (field_bytes k v) (field_bytes k Null) ≡ Less }
{}

/// A law: whole keys have one length, `max_key`, the first values of keys as many bytes as their parts say, and no
/// key has more than `max_key`.
pub fn width_law()
    ensures whole { (kinds : List ItemKind) (ps : List KeyPart) (a : List Value) → KeyHasKinds kinds ps a → length a ≡ length ps
        → length (key_bytes kinds ps a) ≡ key_width kinds ps }
    ensures first_values { (kinds : List ItemKind) (ps : List KeyPart) (a : List Value) → KeyHasKinds kinds ps a
        → length (key_bytes kinds ps a) ≡ key_width kinds (take (length a) ps) }
    ensures most { (kinds : List ItemKind) (ps : List KeyPart) (a : List Value) → KeyHasKinds kinds ps a
        → length (key_bytes kinds ps a) ≤ key_width kinds ps }
{}

/// A law: the bytes of a key's first values are the first bytes of the key.
pub fn prefix_law()
    ensures { (kinds : List ItemKind) (ps : List KeyPart) (a b : List Value) → length a ≤ length ps
        → key_bytes kinds ps (a ++ b) ≡ key_bytes kinds ps a ++ key_bytes kinds (drop (length a) ps) b }
{}
