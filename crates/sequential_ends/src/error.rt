//! Why the ends of a test aren't listed, or a layer isn't made.

use std::alloc::AllocError;
use thiserror::Error;

/// Why the ends of a test aren't listed.
#[derive(Clone, Copy, Debug, PartialEq, Eq, Error)]
pub enum EndsError {
    /// An allocation failed.
    #[error("no memory")]
    NoMemory,
    /// More states would be kept at once than the caller allows. This number is greater, and enough for the layer at
    /// which the list stopped, and for the next; `usize::MAX` stands for more.
    #[error("too many states; {0} are enough to go on")]
    TooMany(usize),
}

impl From<AllocError> for EndsError {
    ghost use Rattle.std.specs.Prelude.{◌≡◌};
    ghost use Rattle.sequential_ends.specs.declared.error.EndsError.TheVariants.{NoMemory};

    ghost from_gives = { λ _ e. e ≡ NoMemory };

    fn from(_: AllocError) -> EndsError {
        EndsError::NoMemory
    }
}

/// Why a layer isn't made.
#[derive(Clone, Copy)]
pub(crate) enum LayerError {
    /// An allocation failed.
    NoMemory,
    /// It has more points than there is room for.
    TooMany,
}

impl From<AllocError> for LayerError {
    ghost use Rattle.std.specs.Prelude.{◌≡◌};
    ghost use Rattle.sequential_ends.specs.declared.error.LayerError.TheVariants.{NoMemory};

    ghost from_gives = { λ _ e. e ≡ NoMemory };

    fn from(_: AllocError) -> LayerError {
        LayerError::NoMemory
    }
}
