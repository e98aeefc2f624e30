//! The times and numbers of records, by which a check arranges them.
ghost use Rattle.std.specs.Prelude.{◌≡◌};
ghost use Rattle.physiological_order.specs.Picking.{stamp_of};

use crate::operation::Record;

/// The time of a record, and its number.
#[derive(Clone, Copy)]
pub(crate) struct Stamp {
    pub(crate) ts: u64,
    pub(crate) number: u64,
}

impl Stamp {
    /// The stamp of a record.
    pub(crate) fn of(stamped: &Record) -> Stamp
        ensures { result ≡ stamp_of stamped.now }
    {
        Stamp {
            ts: stamped.ts,
            number: stamped.number,
        }
    }
}
