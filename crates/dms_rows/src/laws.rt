ghost use Rattle.dms_rows.specs.Rows.{RowsAgree};

/// Law: a file's blocks are those of a data set where each is in the format and each value fits; its slots then are its rows.
pub fn rows_law()
    ensures { RowsAgree }
{}
