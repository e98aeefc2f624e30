//! Laws of options. The functions do nothing: their contracts are the laws.
ghost use Rattle.std.specs.Borrow.{Bor};
ghost use Rattle.std.specs.Prelude.{◌≡◌, List, ◌≤◌, String, codes, false};
ghost use Rattle.std.specs.declared.alloc.Global.{Global};
ghost use Rattle.clap.specs.Words.{Row, Text};
ghost use Rattle.run_options.specs.declared.options.EndsOptions.{EndsOptions};
ghost use Rattle.run_options.specs.declared.options.LitmusOptions.{LitmusOptions};
ghost use Rattle.run_options.specs.declared.options.RunOptions.{RunOptions};
ghost use Rattle.run_options.specs.declared.options.TraceOptions.{TraceOptions};
ghost use Rattle.run_options.specs.declared.options.StreamOptions.{StreamOptions};
ghost use Rattle.command_line.specs.Job.{GivesJob, words_number};
ghost use Rattle.command_line.specs.Options.{GivesNumber, GivesSome, MayBeWithin, RunIsInRange, TellsAsked};
ghost use Rattle.command_line.specs.Options.{TellsEnds, TellsLitmus, TellsRun, TellsTrace, is_shared, stream_of};
ghost use Rattle.command_line.specs.declared.options.Asked.{Asked};
ghost use Rattle.command_line.specs.declared.words.Job.TheVariants.{Stream};
ghost use Rattle.command_line.specs.declared.words.WordsError.TheVariants.{NoMemory, Refused};

/// Options always ask for 1 to 16 workers, a limit of 1 to 4,294,967,295, 1 to 1,000,000 runs, 1 to 4,294,967,295
/// states and 1 to 64 cores of a stream, for any words. There is a row of counts for each 1 to
/// 18,446,744,073,709,551,615 operations or for none, and a line of a stream's progress for each 1 to 4,294,967,295
/// million or for none.
pub fn options_are_in_range()
    ensures run { (rows : List Row) (options : RunOptions) → TellsRun rows options →
        RunIsInRange options }
    ensures litmus { (rows : List Row) (options : LitmusOptions) → TellsLitmus rows options →
        RunIsInRange options.run × (1 ≤ options.runs) × (options.runs ≤ 1000000) }
    ensures ends { (rows : List Row) (options : EndsOptions) → TellsEnds rows options →
        (1 ≤ options.most_states) × (options.most_states ≤ 4294967295) }
    ensures trace { (rows : List Row) (options : TraceOptions) → TellsTrace rows options →
        RunIsInRange options.run × MayBeWithin 1 18446744073709551615 options.every }
    ensures stream { (rows : List Row) (asked : Asked) → TellsAsked rows asked →
        (1 ≤ (stream_of asked).cores) × ((stream_of asked).cores ≤ 64)
        × MayBeWithin 1 4294967295 (stream_of asked).progress }
{}

/// A number of workers, a limit, a number of runs, of states, of a stream's cores, of operations for a row of counts or
/// of millions of them for a line of progress that the words give, and that is in range, is the one that is taken.
pub fn numbers_in_range_are_taken()
    ensures workers { (rows : List Row) (options : RunOptions) → TellsRun rows options →
        GivesNumber rows (codes "workers") 1 16 options.workers }
    ensures limit { (rows : List Row) (options : RunOptions) → TellsRun rows options →
        GivesNumber rows (codes "limit") 1 4294967295 options.limit }
    ensures runs { (rows : List Row) (options : LitmusOptions) → TellsLitmus rows options →
        GivesNumber rows (codes "runs") 1 1000000 options.runs }
    ensures states { (rows : List Row) (options : EndsOptions) → TellsEnds rows options →
        GivesNumber rows (codes "states") 1 4294967295 options.most_states }
    ensures every { (rows : List Row) (options : TraceOptions) → TellsTrace rows options →
        GivesSome rows (codes "every") 1 18446744073709551615 options.every }
    ensures cores { (rows : List Row) (asked : Asked) → TellsAsked rows asked →
        GivesNumber rows (codes "cores") 1 64 (stream_of asked).cores }
    ensures progress { (rows : List Row) (asked : Asked) → TellsAsked rows asked →
        GivesSome rows (codes "progress") 1 4294967295 (stream_of asked).progress }
{}

/// A trace that is read as the run goes is run by rounds, fair or not, or by a seed: no threads drive it.
pub fn streams_follow_policies()
    ensures { (command : Text) (rows : List Row) (options : StreamOptions) (file : Bor Text) →
        GivesJob command rows (Stream options file) → is_shared options.run.schedule ≡ false }
{}

/// Refused words have the number 1, and lack of memory the number 2.
pub fn refusals_have_these_numbers()
    ensures refused { (text : String Global) → words_number (Refused text) ≡ 1 }
    ensures no_memory { words_number NoMemory ≡ 2 }
{}
