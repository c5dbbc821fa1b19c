//! Omaha's reply, with the evidence that it may be sent.

/// The text of Omaha's reply to a request, and a receipt that the store covers what its runs did to
/// the counters.
#[derive(Drop)]
pub struct CoveredText<T: Drop> {
    pub(crate) text: Vec<u8>,
    pub(crate) receipt: T,
}
