//! Whether records are those of all operations.
ghost use Rattle.std.specs.Prelude.{◌≡◌, IfSome, None, length};
ghost use Rattle.physiological_order.specs.Faults.{issued_by};
ghost use Rattle.report.specs.Complete.{AreAll, IsFirstLack, count_of_core};

use physiological_order::{Op, Record};

/// How many of the records are of a core.
pub(crate) fn count_records_of_core(core: usize, records: &[Record]) -> usize
    ensures { result ≡ count_of_core core records.now }
{
    records
        .iter()
        .filter(|record| record.core as usize == core)
        .count()
}

/// The first core that hasn't as many records as operations.
pub(crate) fn first_core_lacking_records(issued: &[Vec<Op>], records: &[Record]) -> Option<usize>
    ensures lack { IfSome result
        (IsFirstLack (length issued.now) (issued_by issued.now) records.now) }
    ensures none { result ≡ None →
        AreAll (length issued.now) (issued_by issued.now) records.now }
{
    for core in 0..issued.len() {
        if count_records_of_core(core, records) != issued[core].as_slice().len() {
            return Some(core);
        }
    }
    None
}
