//! A law of the definitions. It stands on a function that only calls other laws, so that the check proves it.

ghost use Rattle.dasdl_text.specs.Schemas.{HasOwnSchema};

use dms_desc_bytes::spelling_law;

/// A text that spells the bytes of a well-formed description is a schema of this very one, where each description
/// that it is a schema of is well-formed.
pub fn own_schema_law()
    ensures { HasOwnSchema }
{
    spelling_law();
}
