/// What the head of a stream says.
#[derive(Drop)]
pub struct Heading {
    /// The tag of the database.
    pub tag: u64,
    /// How many blocks each audit file has, 8 to 512.
    pub total: u32,
    /// The bytes of the description.
    pub description: Vec<u8>,
}
