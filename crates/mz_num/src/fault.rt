//! Why a text is no number of the profile.
use thiserror::Error;

/// The first fault of a number's text, in the order of this project's profile.
#[derive(Clone, Copy, Debug, PartialEq, Eq, Error)]
pub enum NumFault {
    /// Nothing but spaces and tabs.
    #[error("the number is empty")]
    Empty,
    /// A text that isn't in the grammar of numbers.
    #[error("the text is not a number")]
    NotANumber,
    /// A minus sign before a number other than 0.
    #[error("the number is negative")]
    Negative,
    /// A number above the greatest value that is taken.
    #[error("the number is too large")]
    TooLarge,
}
