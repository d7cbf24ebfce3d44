//! Laws of the definitions. Each stands on a function with an empty body, so that the check proves it.

ghost use Rattle.dms_stream.specs.Whole.{ReadsStream, ReadsCutHead, ReadsCut};

/// A stream is read back to its head and its blocks; where it is cut, to what of them is whole, and to the place behind its last byte.
pub fn streams_are_read_back()
    ensures whole { ReadsStream }
    ensures cut_head { ReadsCutHead }
    ensures cut { ReadsCut }
{}
