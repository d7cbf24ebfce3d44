use dms_desc::Values;
use std::marker::Model;

/// Of which kind an area is.
#[derive(Debug, Drop)]
pub enum AreaKind {
    /// Of a record that is to be stored: its values, and the number of its owner's record.
    New(Values, u64),
    /// A copy of the current record's values.
    Old(Values),
}

/// A program's working area of a data set.
#[derive(Debug, Drop)]
pub struct Area {
    /// Of a record that is to be stored, or a copy, with its values.
    pub kind: AreaKind,
}

impl Model for Area {
    ghost use Rattle.dms_model.specs.Programs.{Area as AreaSeen};
    ghost use Rattle.dms_paths.specs.Areas.{area_seen};

    ghost Value = { AreaSeen };

    ghost view = { λ a. area_seen a.kind };
}
