//! That machines are as options ask, and that workers don't show in runs. The functions do nothing: their contracts are
//! the laws.
ghost use Rattle.std.specs.Prelude.{◌≡◌, ◌≢◌, List, length, slice_get, Some, None, ℕ};
ghost use Rattle.litmus_reader.specs.Litmus.{Litmus};
ghost use Rattle.machine_table.specs.declared.config.Config.{Config};
ghost use Rattle.programs.specs.declared.ends.End.TheVariants.{NoMemory};
ghost use Rattle.report_text.specs.declared.run_end.RunEnd.{RunEnd};
ghost use Rattle.schedules.specs.declared.policy.Policy.{Policy};
ghost use Rattle.worker_driver.specs.declared.set_up.Driver.{Driver};
ghost use Rattle.worker_driver.specs.declared.set_up.Driver.TheVariants.{ByPolicy};
ghost use Rattle.worker_driver.specs.Batches.{AreMade};
ghost use Rattle.run_options.specs.declared.options.MachineOptions.{MachineOptions};
ghost use Rattle.worker_driver.specs.Runs.{AreFrom, IsRun};
ghost use Rattle.worker_driver.specs.SetUp.{config_of};

use litmus_reader::ThreadState;
use schedules::laws::one_seed_gives_one_list;

/// The machine that options ask for has each of their values as it is, and as many cores as are asked for.
pub fn machines_are_as_asked()
    ensures parts { (options : MachineOptions) (cores : ℕ) → let c = config_of options cores in
        (c.cores ≡ cores) × (c.banks ≡ options.banks) × (c.sets ≡ options.sets) ×
        (c.ways ≡ options.ways) × (c.bank_sets ≡ options.bank_sets) ×
        (c.bank_ways ≡ options.bank_ways) × (c.line_words ≡ options.line_words) }
    ensures times { (options : MachineOptions) (cores : ℕ) → let c = config_of options cores in
        (c.lease ≡ options.lease) × (c.messages ≡ options.messages) ×
        (c.opening_time ≡ options.time) × (c.private_write ≡ options.private_write) }
{}

/// Two batches of the same test, machine, policy and limit have the same run at each place where neither has a run
/// that ended with a failed allocation. If no run did, batches of one length are the same list. A run that did has no
/// end state. So the number of workers shows only in which runs found memory.
pub fn workers_show_in_no_run()
    ensures runs { (test : Litmus) (config : Config) (first : Policy) (limit : ℕ)
        (runs others : List RunEnd) (place : ℕ) (run other : RunEnd) →
        AreFrom test config (ByPolicy first) limit 0 runs →
        AreFrom test config (ByPolicy first) limit 0 others →
        slice_get runs place ≡ Some run → slice_get others place ≡ Some other →
        run.end ≢ NoMemory → other.end ≢ NoMemory → run ≡ other }
    ensures lists { (test : Litmus) (config : Config) (first : Policy) (limit : ℕ)
        (runs others : List RunEnd) →
        AreFrom test config (ByPolicy first) limit 0 runs →
        AreFrom test config (ByPolicy first) limit 0 others →
        length runs ≡ length others → AreMade runs → AreMade others → runs ≡ others }
    ensures refused { (test : Litmus) (config : Config) (driver : Driver) (limit : ℕ)
        (run : RunEnd) → IsRun test config driver limit run →
        run.end ≡ NoMemory → run.state ≡ None }
{
    one_seed_gives_one_list::<ThreadState<'_>>();
}
