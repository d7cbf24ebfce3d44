ghost use Rattle.std.specs.Prelude.{◌≡◌};
ghost use Rattle.dms_model.specs.Members.{names};
ghost use Rattle.dms_model.specs.Uses.{entry_of};
ghost use Rattle.dms_model.specs.Valid.{entry_cmp};

use std::cmp::Ordering;
use std::marker::Model;

/// An entry of a manual subset: the subset, the number of the owner's record (0 where the subset is disjoint), and that of the record.
#[derive(Drop)]
pub struct Entry {
    subset: u16,
    owner: u64,
    number: u64,
}

impl Model for Entry {
    ghost use Rattle.dms_model.specs.Db.{SubsetEntry};

    ghost Value = { SubsetEntry };

    ghost view = { λ e. record { subset = e.subset; owner = e.owner; number = e.number } };
}

impl Entry {
    pub fn new(subset: u16, owner: u64, number: u64) -> Entry
        ensures { result ≡ entry_of subset owner number }
    {
        Entry {
            subset,
            owner,
            number,
        }
    }

    pub fn subset(&self) -> u16
        ensures { result ≡ self.now.subset }
    {
        self.subset
    }

    pub fn owner(&self) -> u64
        ensures { result ≡ self.now.owner }
    {
        self.owner
    }

    pub fn number(&self) -> u64
        ensures { result ≡ self.now.number }
    {
        self.number
    }

    /// Whether it is the entry of this record for this owner in this subset.
    pub fn names(&self, subset: u16, owner: u64, number: u64) -> bool
        ensures { result ≡ names subset owner number self.now }
    {
        self.subset == subset && self.owner == owner && self.number == number
    }

    /// How it stands to the entry of this record for this owner in this subset: by subset, then by owner, then by record.
    pub fn order(&self, subset: u16, owner: u64, number: u64) -> Ordering
        ensures { result ≡ entry_cmp self.now (entry_of subset owner number) }
    {
        self.subset
            .cmp(&subset)
            .then(self.owner.cmp(&owner).then(self.number.cmp(&number)))
    }
}
