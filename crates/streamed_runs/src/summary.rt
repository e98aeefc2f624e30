//! What is kept of records that are gone: numbers, and the greatest time of a write to each word.
ghost use Rattle.std.specs.Prelude.{◌≡◌, [], IfOk, OnOk};
ghost use Rattle.physiological_order.specs.LatestWrites.{latest_after, stale_by};
ghost use Rattle.streamed_runs.specs.Summaries.{all_counted, counted, more_if, summary_of, with_kind};

use number_map::NumberMap;
use physiological_order::{Op, Record};
use std::alloc::{AllocError, Global};
use trace_texts::Kinds;

/// Of records by rising number: how many there are of each kind, how many are stale loads, and the greatest time of a
/// write to each word.
#[derive(Drop)]
pub struct Summary {
    pub kinds: Kinds,
    pub stale: usize,
    latest: NumberMap<u64>,
}

// One more, if this is so.
fn add_one_if(is: bool, n: usize) -> usize
    ensures { result ≡ more_if is n }
{
    if is { n.saturating_add(1) } else { n }
}

// With an operation more.
fn kinds_with_operation(kinds: Kinds, op: Op) -> Kinds
    ensures { result ≡ with_kind kinds op }
{
    Kinds {
        completed: add_one_if(true, kinds.completed),
        loads: add_one_if(matches!(op, Op::Load(_)), kinds.loads),
        stores: add_one_if(matches!(op, Op::Store(_, _)), kinds.stores),
        swaps: add_one_if(matches!(op, Op::Swap(_, _)), kinds.swaps),
    }
}

// Whether the record is of a load with a later write of its word before it. A write is kept as the latest of its word.
// (`physiological_order::stale` does the same with a list that is there at once, and counts its looks.)
fn check_stale_hit(latest: &mut NumberMap<u64>, visited: &Record) -> Result<bool, AllocError>
    ensures stale { IfOk result (λ stale.
        stale ≡ stale_by latest.old visited.now.op visited.now.ts) }
    ensures kept { OnOk result
        (latest.new ≡ latest_after latest.old visited.now.op visited.now.ts) }
{
    let word = visited.op.word();
    let time = latest.get(word).unwrap_or(0);
    match visited.op {
        Op::Load(_) => Ok(visited.ts < time),
        Op::Store(_, _) | Op::Swap(_, _) => {
            latest.insert(word, time.max(visited.ts))?;
            Ok(false)
        }
    }
}

impl Summary {
    /// Of no records; it allocates nothing yet.
    pub(crate) fn new(alloc: Global) -> Summary
        ensures { result ≡ summary_of [] }
    {
        Summary {
            kinds: Kinds {
                completed: 0,
                loads: 0,
                stores: 0,
                swaps: 0,
            },
            stale: 0,
            latest: NumberMap::new(alloc),
        }
    }

    // One record more.
    fn count_record(&mut self, visited: &Record) -> Result<(), AllocError>
        ensures { OnOk result (self.new ≡ counted self.old visited.now) }
    {
        let is_stale = check_stale_hit(&mut self.latest, visited)?;
        self.kinds = kinds_with_operation(self.kinds, visited.op);
        self.stale = add_one_if(is_stale, self.stale);
        Ok(())
    }

    /// Of these records, too, which come behind. If an allocation fails, it is of the first ones of them.
    pub(crate) fn count_records(&mut self, records: &[Record]) -> Result<(), AllocError>
        ensures { OnOk result (self.new ≡ all_counted self.old records.now) }
    {
        for visited in records {
            self.count_record(visited)?;
        }
        Ok(())
    }
}
