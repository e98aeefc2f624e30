//! Programs: what gives a core its steps.
ghost use Rattle.std.specs.Prelude.{◌≡◌};

use crate::steps::Step;

/// A program gives a core one step after the other, and receives what each operation received.
pub trait Program {
    ghost use Rattle.programs.specs.Acts.{Acts};

    /// What the program does.
    ghost acts: { Acts Self };

    /// The next step, the same until `done`; `None` if the program has ended.
    fn next(&self) -> Option<Step>
        ensures { result ≡ acts.next self.now };

    /// The next step is done, with the value that it received: `None` for a store and for an advance.
    fn done(&mut self, received: Option<u64>)
        ensures { self.new ≡ acts.done self.old received };
}
