//! The machine's parts in memory.
ghost use Rattle.std.specs.Prelude.{◌≡◌};

use crate::core_masks::CoreMasks;
use crate::histories::History;
use core_pts::Core;
use dram_mts::Dram;
use llc_bank::Bank;
use machine_table::Config;
use network::InFlight;
use physiological_order::Memory;
use std::marker::Model;

/// The parts of a machine. Contracts see the machine as data.
#[derive(Drop)]
pub(crate) struct MachineState<H: History> {
    pub(crate) config: Config,
    pub(crate) opening: Memory,
    pub(crate) cores: Vec<Core>,
    pub(crate) banks: Vec<Bank>,
    pub(crate) drams: Vec<Dram>,
    pub(crate) flight: InFlight,
    pub(crate) history: H,
    pub(crate) is_stopped: bool,
    pub(crate) masks: CoreMasks,
}

impl<H: History> Model for MachineState<H> {
    ghost use Rattle.std.specs.Coded.{codes, coded_ℕ, coded_list};
    ghost use Rattle.std.specs.FinMap as map;
    ghost use Rattle.std.specs.Ordering.{nat_cmp};
    ghost use Rattle.machine_table.specs.Machine.{Machine};
    ghost use Rattle.interleaving_core.specs.Reservation.{IsFitted};

    ghost Value = { Machine };

    ghost coded = { Prim.hlevel (
      codes,
      map.code {R = nat_cmp} coded_ℕ coded_ℕ,
      map.code {R = nat_cmp} coded_ℕ (coded_list coded_ℕ),
    ) };

    ghost view = { λ a. record {
      config = a.config;
      opening = a.opening;
      cores = a.cores.items;
      banks = a.banks.items;
      drams = a.drams.items;
      mail = a.flight.mail;
      issued = H.issued a.history;
      records = H.records a.history;
      is_stopped = a.is_stopped;
    } };

    // The messages in flight are those of this machine, there is room for the record of each open operation, and
    // the masks are those of the cores.
    ghost invariant = { λ a.
        IsFitted a.config a.flight a.cores.items (H.records a.history) (H.room a.history) a.masks };
}
