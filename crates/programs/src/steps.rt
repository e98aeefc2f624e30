//! The steps of a core.

use physiological_order::Op;

/// A step of a core.
#[derive(Clone, Copy, Debug, PartialEq, Eq)]
pub enum Step {
    /// The core issues an operation.
    Op(Op),
    /// The core advances its time by one.
    Advance,
}
