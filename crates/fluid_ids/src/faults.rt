//! Why a text is no FLUID's.
use thiserror::Error;

/// Why a text is no FLUID's.
#[derive(Clone, Copy, Debug, PartialEq, Eq, Error)]
pub enum FluidFault {
    #[error("no FLUID")]
    BadText,
    /// The number is 2^64 or more.
    #[error("a FLUID that is too large")]
    TooLarge,
}
