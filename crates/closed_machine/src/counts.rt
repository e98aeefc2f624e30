//! How many messages of the counted kinds the seats of a closed machine sent.
ghost use Rattle.std.specs.Prelude.{◌≡◌, ℕ, ◌*◌, ◌-◌, ◌^◌};
ghost use Rattle.network.specs.declared.counts.Counts.{Counts};
ghost use Rattle.network.specs.Mail.{AreCounts};
ghost use Rattle.seat_rule.specs.Rule.{counts_of, seat_count};
ghost use Rattle.closed_machine.specs.RunParts.{Parts, state_of_run};
ghost use Rattle.closed_machine.specs.RunSums.{AreCountsOf, plus};

use crate::run::Run;
use machine_table::Counts;
use seat_rule::laws::seats_are_few;

impl Run {
    /// How many renewals, upgrades, flushes and write-backs all seats sent: what each seat counted, added up over all
    /// numbers of seats. Those are the counts of the state that the run shows.
    pub fn counts(&self) -> Counts
        requires { Parts self.now }
        ensures counts { (parts : Parts self.now) → result ≡ (state_of_run self.now parts).counts }
        ensures sum { (each : ℕ → Counts) → AreCountsOf self.now each →
            result ≡ counts_of (seat_count self.now.set_up) each }
    {
        seats_are_few();
        let seats = self.set_up.config.cores + self.set_up.config.banks;
        let mut counts = Counts::zeros();
        for number in 0..seats {
            let (outbox, _) = self.mail(number);
            counts = add_counts(counts, outbox.counts());
        }
        counts
    }
}

// Two counts, added up. What one of 72 seats counted fits 64 bits.
fn add_counts(sum: Counts, more: Counts) -> Counts
    requires sum { AreCounts sum (72 * (2 ^ 64 - 1)) }
    requires more { AreCounts more (2 ^ 64 - 1) }
    ensures { result ≡ plus sum more }
{
    Counts {
        renewals: sum.renewals + more.renewals,
        upgrades: sum.upgrades + more.upgrades,
        flushes: sum.flushes + more.flushes,
        write_backs: sum.write_backs + more.write_backs,
    }
}
