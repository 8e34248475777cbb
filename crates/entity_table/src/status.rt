// What an index can be.

/// The status of an index of the id book.
#[derive(Clone, Copy, PartialEq, Eq)]
pub enum Status {
    /// It can be granted.
    Vacant,
    /// It was granted, and its id is not settled.
    Granted,
    /// Its entity lives.
    Living,
    /// Its generation can't grow: it is never granted again.
    Retired,
}
