//! A history of which only the last record is kept.
ghost use Rattle.std.specs.Prelude.{◌≡◌, ◌-◌, ◌^◌};

use crate::histories::History;
use crate::unkept::{News, Unkept};
use physiological_order::{Op, Record};
use std::alloc::{AllocError, Global};
use std::marker::Model;

/// Of the history only the last record is kept in memory, and how many there are. Contracts see what the cores were
/// issued, and all records. It allocates nothing, and refuses an operation only if a `usize` can't count the records.
#[derive(Drop)]
pub struct ToldHistory {
    unkept: Unkept,
    count: usize,
    last: Option<Record>,
}

impl Model for ToldHistory {
    ghost use Rattle.std.specs.Prelude.{◌≡◌, ◌-◌, List, length, slice_get};
    ghost use Rattle.physiological_order.specs.declared.operation.Op.{Op};
    ghost use Rattle.physiological_order.specs.declared.operation.Record.{Record};

    ghost Value = { List (List Op) × List Record };

    ghost view = { λ a. a.unkept.lists };

    ghost invariant = { λ a. (a.count ≡ length a.unkept.lists.1)
        × (a.last ≡ slice_get a.unkept.lists.1 (length a.unkept.lists.1 - 1)) };
}

impl History for ToldHistory {
    ghost issued = { λ a. a.0 };

    ghost records = { λ a. a.1 };

    // As many as can be counted.
    ghost room = { λ _. 2 ^ 64 - 1 };

    fn open(_alloc: Global, cores: u32) -> Result<ToldHistory, AllocError> {
        let mut unkept = Unkept::new();
        unkept.note(&News::Opened(cores));
        Ok(ToldHistory {
            unkept,
            count: 0,
            last: None,
        })
    }

    fn clear(&mut self, cores: u32) {
        self.unkept.note(&News::Opened(cores));
        self.count = 0;
        self.last = None;
    }

    #[inline(always)]
    fn issue(&mut self, core: usize, op: &Op, more: usize) -> Result<(), AllocError> {
        if more > usize::MAX - self.count {
            return Err(AllocError);
        }
        self.unkept.note(&News::Issued(core, *op));
        Ok(())
    }

    #[inline(always)]
    fn complete(&mut self, done: &Record) {
        let _inside: Option<Op> = None;
        self.unkept.note(&News::Completed(*done));
        self.count += 1;
        self.last = Some(*done);
    }

    #[inline(always)]
    fn count(&self) -> usize {
        self.count
    }

    #[inline(always)]
    fn last(&self) -> Option<&Record> {
        self.last.as_ref()
    }
}
