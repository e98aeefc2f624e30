//! A step in 16 bytes.
ghost use Rattle.std.specs.Prelude.{◌≡◌};

use physiological_order::{Op, WordAddr};
use std::marker::Model;
use trace_lines::Step;

/// A step in 16 bytes. Contracts see the step.
#[derive(Drop)]
pub(crate) struct PackedStep {
    // Eight times the number of the word, which is below 2^61, and the number of the kind.
    code: u64,
    value: u64,
}

impl Model for PackedStep {
    ghost use Rattle.programs.specs.declared.steps.Step.{Step};
    ghost use Rattle.trace_reader.specs.PackedSteps.{unpacked};

    ghost Value = { Step };

    ghost view = { λ packed. unpacked packed.code packed.value };
}

impl PackedStep {
    pub(crate) fn new(step: Step) -> PackedStep
        ensures { result ≡ step }
    {
        // The check finds what an operation holds only where the function names its type.
        let _inside: Option<WordAddr> = None;
        let Step::Op(op) = step else {
            return PackedStep { code: 3, value: 0 };
        };
        match op {
            Op::Load(addr) => PackedStep {
                code: 8 * addr.word(),
                value: 0,
            },
            Op::Store(addr, value) => PackedStep {
                code: 8 * addr.word() + 1,
                value,
            },
            Op::Swap(addr, value) => PackedStep {
                code: 8 * addr.word() + 2,
                value,
            },
        }
    }

    pub(crate) fn step(&self) -> Step
        ensures { result ≡ self.now }
    {
        let addr = WordAddr::at(self.code / 8);
        match self.code % 8 {
            0 => Step::Op(Op::Load(addr)),
            1 => Step::Op(Op::Store(addr, self.value)),
            2 => Step::Op(Op::Swap(addr, self.value)),
            _ => Step::Advance,
        }
    }
}
