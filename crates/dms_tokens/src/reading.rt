use dms_base::Bytes;

/// The digits of a number so far.
#[derive(Clone, Copy)]
pub struct Digits {
    /// Whether it begins with a sign.
    pub signed: bool,
    pub minus: bool,
    /// The digits without the point.
    pub value: u64,
    /// How many there are; 19 stands for more than 18.
    pub count: u8,
    /// How many of them stand behind the point; 19 stands for more than 18.
    pub places: u8,
}

/// What is being read of a text. The first field of each case is where it began.
#[derive(Drop)]
pub enum Reading {
    Between,
    Comment,
    Word(u32, Bytes),
    /// A word, the place of the first `-` behind it, and all these.
    Dashes(u32, Bytes, u32, Bytes),
    /// A sign with no digit yet, and whether it is `-`.
    Signed(u32, bool),
    Whole(u32, Digits),
    /// Digits, and the place of a point behind them.
    Point(u32, Digits, u32),
    Fraction(u32, Digits),
    Quoted(u32, Bytes),
    /// A string up to a quote, which may end it.
    Quote(u32, Bytes),
    Less(u32),
    Greater(u32),
    Stopped,
}
