//! How the bytes of a request or a reply come.
/// In how many pieces.
#[derive(Clone, Copy)]
pub enum Pieces {
    /// Pieces of at most so many bytes.
    Of(usize),
    /// Two, of which the first has so many bytes.
    Cut(usize),
}
