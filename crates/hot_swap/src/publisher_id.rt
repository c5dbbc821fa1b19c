//! The identity of a publisher, in proofs.

/// Distinguishes a publisher from all others in proofs, by its book. No value of it is made.
pub struct PublisherId {
    pub number: u64,
    pub log_name: u64,
    pub cells_name: u64,
}
