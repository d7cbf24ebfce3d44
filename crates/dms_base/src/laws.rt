ghost use Rattle.std.specs.Prelude.{IfSome, IsTrue};
ghost use Rattle.std.specs.Cmp.{IsTotalOrder};
ghost use Rattle.dms_base.specs.Fits.{fits, value_of};
ghost use Rattle.dms_base.specs.Orders.{value_cmp};
ghost use Rattle.dms_base.specs.declared.kind.ItemKind.{ItemKind};
ghost use Rattle.dms_base.specs.declared.kind.Literal.{Literal};

/// What a literal spells for a kind fits the kind.
pub fn value_law()
    ensures { (k : ItemKind) (l : Literal) → IfSome (value_of k l) (λ v. IsTrue (fits k v)) }
{}

/// The order of values is total: of two values each is below, equal to or above the other as the other is above,
/// equal to or below it, and what is below a value is below all that is above it.
pub fn order_law()
    ensures { IsTotalOrder value_cmp }
{}
