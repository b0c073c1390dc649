use thiserror::Error;

/// Why the words of a call order nothing.
#[derive(Clone, Copy, Debug, PartialEq, Eq, Error)]
pub enum WordsError {
    /// They aren't of the form that is taken.
    #[error("the words are not of the form that is taken")]
    NotTaken,
}
