//! What `put` and `bury` answer.

/// What became of a file that was put.
#[derive(Clone, Copy, PartialEq, Eq, Debug)]
pub enum Put {
    /// The file stands now, with these bytes.
    New,
    /// These bytes stood before.
    Same,
    /// Other bytes stand, and stay.
    Differs,
    /// A tombstone stands.
    Gone,
    /// There is no entry for the file, and [`MOST_ENTRIES`](ring_math::MOST_ENTRIES) stand.
    Full,
}

/// What became of a file that was buried.
#[derive(Clone, Copy, PartialEq, Eq, Debug)]
pub enum Bury {
    /// A tombstone stood before.
    Already,
    /// A tombstone replaces the bytes that stood.
    Buried,
    /// A tombstone stands where nothing stood.
    Laid,
    /// There is no entry for the file, and [`MOST_ENTRIES`](ring_math::MOST_ENTRIES) stand.
    Full,
}
