//! The file of one transfer, in either direction.

/// The file of an end: a sender's source, or a receiver's sink.
#[derive(Drop)]
pub enum Files<S, K> {
    /// The file that is sent.
    Source(S),
    /// The file that is received.
    Sink(K),
}
