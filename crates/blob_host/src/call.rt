//! What is noted of a call on a file.

/// A call with its answer, but for the bytes.
#[derive(Clone, Copy)]
pub struct Call {
    /// Which call it is, by its number in the model of a disk.
    pub kind: u64,
    /// An offset or a length, in bytes.
    pub at: u64,
    pub count: u64,
    pub is_ok: bool,
    /// The key and the digest that the bytes of a read are tested against.
    pub test: Option<(u64, u64)>,
}
