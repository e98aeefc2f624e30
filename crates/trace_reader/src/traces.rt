//! The steps of a trace by core.

ghost use Rattle.std.specs.Prelude.{◌≡◌, ◌<◌, ◌≤◌, ◌++◌, ◌∷◌, [], List, ℕ, max, suc, length, get_or, map, IfOk, OnOk};
ghost use Rattle.std.specs.Prelude.{OnErr};
ghost use Rattle.std.specs.Prelude.{vec_capacity};
ghost use Rattle.std.specs.Prelude.{◌==◌, if◌then◌else◌};
ghost use Rattle.programs.specs.declared.steps.Step.{Step};
ghost use Rattle.trace_reader.specs.Steps.{lane, ops_of};

use physiological_order::Op;
use programs::Step;
use std::alloc::{AllocError, Global};
use std::marker::Model;

/// The steps of a core, and the operations among them. Contracts see the list of steps.
#[derive(Drop)]
struct Lane {
    steps: Vec<Step>,
    ops: Vec<Op>,
}

impl Model for Lane {
    ghost use Rattle.std.specs.Prelude.{◌≡◌, List};
    ghost use Rattle.programs.specs.declared.steps.Step.{Step};
    ghost use Rattle.trace_reader.specs.Steps.{ops_of};

    ghost Value = { List Step };

    ghost view = { λ lane. lane.steps.items };

    ghost invariant = { λ lane. lane.ops.items ≡ ops_of lane.steps.items };
}

impl Lane {
    fn new(alloc: Global) -> Lane
        ensures { result ≡ [] }
    {
        Lane {
            steps: Vec::new(alloc),
            ops: Vec::new(alloc),
        }
    }

    fn steps(&self) -> &[Step]
        ensures { result.now ≡ self.now }
    {
        &self.steps
    }

    fn ops(&self) -> &[Op]
        ensures { result.now ≡ ops_of self.now }
    {
        &self.ops
    }

    fn into_ops(self) -> Vec<Op>
        ensures { result.items ≡ ops_of self }
    {
        self.ops
    }

    fn push_op(&mut self, op: &Op) -> Result<(), AllocError>
        ensures pushed { OnOk result (self.new ≡ self.old ++ Step.Op op.now ∷ []) }
        ensures refused { OnErr result (self.new ≡ self.old) }
    {
        self.steps.reserve(1)?;
        self.ops.reserve(1)?;
        self.steps.push_reserved(Step::Op(*op));
        self.ops.push_reserved(*op);
        Ok(())
    }

    fn push_advance(&mut self) -> Result<(), AllocError>
        ensures pushed { OnOk result (self.new ≡ self.old ++ Step.Advance ∷ []) }
        ensures refused { OnErr result (self.new ≡ self.old) }
    {
        self.steps.reserve(1)?;
        self.steps.push_reserved(Step::Advance);
        Ok(())
    }

    fn push(&mut self, step: Step) -> Result<(), AllocError>
        ensures pushed { OnOk result (self.new ≡ self.old ++ step ∷ []) }
        ensures refused { OnErr result (self.new ≡ self.old) }
    {
        match step {
            Step::Op(op) => self.push_op(&op),
            Step::Advance => self.push_advance(),
        }
    }
}

/// The steps of each core of a trace, in their order. Contracts see the list of the cores' lists of steps, up to the
/// greatest core that has a step.
#[derive(Drop)]
pub struct Trace {
    lanes: Vec<Lane>,
    alloc: Global,
}

impl Model for Trace {
    ghost use Rattle.std.specs.Prelude.{◌≤◌, List, length};
    ghost use Rattle.programs.specs.declared.steps.Step.{Step};

    ghost Value = { List (List Step) };

    ghost view = { λ trace. trace.lanes.items };

    ghost invariant = { λ trace. length trace.lanes.items ≤ 64 };
}

impl Trace {
    /// No steps; this allocates nothing yet.
    pub fn new(alloc: Global) -> Trace
        ensures { result ≡ [] }
    {
        Trace {
            lanes: Vec::new(alloc),
            alloc,
        }
    }

    /// How many cores there are: the greatest core that has a step, plus 1; and 1 for a trace without steps
    /// (docs/TEXTS.md).
    pub fn cores(&self) -> u32
        ensures cores { result ≡ max 1 (length self.now) }
        ensures few { result ≤ 64 }
    {
        self.lanes.len().max(1) as u32
    }

    /// The steps of a core, in their order.
    pub fn steps(&self, core: u32) -> &[Step]
        requires { core < max 1 (length self.now) }
        ensures { result.now ≡ lane self.now core }
    {
        match self.lanes.get(core as usize) {
            Some(lane) => lane.steps(),
            None => &[],
        }
    }

    /// The operations among the steps of a core, in their order.
    pub fn ops(&self, core: u32) -> &[Op]
        requires { core < max 1 (length self.now) }
        ensures { result.now ≡ ops_of (lane self.now core) }
    {
        match self.lanes.get(core as usize) {
            Some(lane) => lane.ops(),
            None => &[],
        }
    }

    /// The operations of each core that has a step or is below one that has, in their order. The caller gets the lists
    /// themselves; no operation is copied.
    pub fn into_issued(self) -> Result<Vec<Vec<Op>>, AllocError>
        ensures { IfOk result (λ lists. map (λ ops. ops.items) lists.items ≡ map ops_of self) }
    {
        let mut lists = Vec::new(self.alloc);
        for lane in self.lanes {
            lists.push(lane.into_ops())?;
        }
        Ok(lists)
    }

    /// Appends a step to those of a core. If an allocation fails, nothing changes.
    pub fn push(&mut self, core: u32, step: Step) -> Result<(), AllocError>
        requires { core < 64 }
        ensures cores { OnOk result (length self.new ≡ max (suc core) (length self.old)) }
        ensures steps { OnOk result ((k : ℕ) → lane self.new k
            ≡ (if core == k then lane self.old k ++ step ∷ [] else lane self.old k)) }
        ensures refused { OnErr result (self.new ≡ self.old) }
    {
        let at = core as usize;
        if at < self.lanes.len() {
            return self.lanes[at].push(step);
        }
        self.lanes.reserve(at + 1 - self.lanes.len())?;
        let mut lane = Lane::new(self.alloc);
        lane.push(step)?;
        extend_lanes(&mut self.lanes, at, self.alloc);
        self.lanes.push_reserved(lane);
        Ok(())
    }
}

// Lanes without steps, up to a number of lanes for which there is room.
fn extend_lanes(lanes: &mut Vec<Lane>, number: usize, alloc: Global)
    requires room { number ≤ vec_capacity lanes.old }
    ensures reached { length lanes.new.items ≡ max number (length lanes.old.items) }
    ensures same { (k : ℕ) → lane lanes.new.items k ≡ lane lanes.old.items k }
    ensures capacity { vec_capacity lanes.new ≡ vec_capacity lanes.old }
{
    while lanes.len() < number {
        lanes.push_reserved(Lane::new(alloc));
    }
}
