//! The defaults of all options. The function does nothing: its contract is the law.

ghost use Rattle.std.specs.Prelude.{◌≡◌, None, false, true};
ghost use Rattle.run_options.specs.declared.options.Schedule.TheVariants.{Round};
ghost use Rattle.run_options.specs.declared.options.TheConstants.MachineOptions.{DEFAULT as machine_default};
ghost use Rattle.run_options.specs.declared.options.TheConstants.RunOptions.{DEFAULT as run_default};
ghost use Rattle.run_options.specs.declared.options.TheConstants.EndsOptions.{DEFAULT as ends_default};
ghost use Rattle.run_options.specs.declared.options.TheConstants.LitmusOptions.{DEFAULT as litmus_default};
ghost use Rattle.run_options.specs.declared.options.TheConstants.TraceOptions.{DEFAULT as trace_default};
ghost use Rattle.run_options.specs.declared.options.TheConstants.CheckOptions.{DEFAULT as check_default};
ghost use Rattle.run_options.specs.declared.options.TheConstants.StreamOptions.{DEFAULT as stream_default};

/// A machine has a lease of 10, the time 0, one bank, private caches of 64 sets of 4 lines, a bank of 256 sets of 8
/// lines, lines of one word, 4,096 messages in flight and no private writes. A run is by rounds, at most 100,000 of
/// them, with one worker. A litmus test has one run. A list of ends keeps at most 4,194,304 states and has no
/// orders. A trace has a report without counts; one that is read as the run goes has a machine of 64 cores, no lines
/// that tell how far it is, and a report with the words. A check takes records that lack some operations. All write
/// lines.
pub fn defaults_are_these()
    ensures machine { machine_default ≡ record {
      lease = 10;
      time = 0;
      banks = 1;
      sets = 64;
      ways = 4;
      bank_sets = 256;
      bank_ways = 8;
      line_words = 1;
      messages = 4096;
      private_write = false;
    } }
    ensures run { run_default ≡ record {
      schedule = Round;
      seed = 0;
      workers = 1;
      limit = 100000;
      machine = machine_default;
    } }
    ensures litmus { litmus_default ≡ record { runs = 1; json = false; run = run_default } }
    ensures ends { ends_default ≡ record { most_states = 4194304; orders = false; json = false } }
    ensures trace { trace_default ≡ record {
      records = false;
      counts = false;
      every = None;
      json = false;
      run = run_default;
    } }
    ensures stream { stream_default ≡ record {
      records = false;
      words = true;
      json = false;
      cores = 64;
      progress = None;
      run = run_default;
    } }
    ensures check { check_default ≡ record { complete = false; json = false } }
{}
