//! Why a tree was not written.
use thiserror::Error;

/// Why a tree was not written.
#[derive(Clone, Copy, Debug, PartialEq, Eq, Drop, Error)]
pub enum BuildFault {
    /// The tree's size bound is above `greatest`, which the caller of `build` allows.
    #[error("the size bound of the tree is too large")]
    TooLarge,
    /// Memory for the bytes ran out.
    #[error("out of memory")]
    OutOfMemory,
}
