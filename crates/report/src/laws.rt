//! What a verdict and a list of ends show, where runs end, how many turns a run may have, that what is written is
//! accepted, and what complete records are. The functions do nothing: their contracts are the laws.
ghost use Rattle.std.specs.Prelude.{◌≡◌, ◌<◌, ◌≤◌, Bool, IfSome, List, [], Some, false, true, ℕ};
ghost use Rattle.std.specs.Prelude.{codes, slice_get};
ghost use Rattle.std.specs.FinMap.{empty};
ghost use Rattle.std.specs.List.{AllByRecursion, Contains};
ghost use Rattle.litmus_parser.specs.declared.syntax.Quantifier.TheVariants.{Exists};
ghost use Rattle.litmus_reader.specs.WellFormed.{IsWellFormed};
ghost use Rattle.litmus_reader.specs.Litmus.{Litmus};
ghost use Rattle.litmus_reader.specs.Truth.{holds};
ghost use Rattle.physiological_order.specs.Order.{Legal as IsLegal, Memory, flat};
ghost use Rattle.physiological_order.specs.declared.operation.Op.{Op};
ghost use Rattle.physiological_order.specs.declared.operation.Record.{Record};
ghost use Rattle.physiological_order.specs.declared.verdict.Verdict.TheVariants.{Legal};
ghost use Rattle.programs.specs.declared.ends.End.TheVariants.{AllDone};
ghost use Rattle.programs.specs.declared.steps.Step.{Step};
ghost use Rattle.report_lines.specs.declared.layout.Layout.{Layout};
ghost use Rattle.report_text.specs.Ends.{runs_ended, runs_held};
ghost use Rattle.report_text.specs.Text.{is_yes};
ghost use Rattle.report_text.specs.declared.run_end.RunEnd.{RunEnd};
ghost use Rattle.run_options.specs.declared.options.EndsOptions.{EndsOptions};
ghost use Rattle.run_options.specs.declared.options.LitmusOptions.{LitmusOptions};
ghost use Rattle.run_options.specs.declared.options.TraceOptions.{TraceOptions};
ghost use Rattle.run_results.specs.declared.results.RunError.{RunError};
ghost use Rattle.run_results.specs.declared.results.RunError.TheVariants.{NoMemory};
ghost use Rattle.sequential_machine.specs.SequentialMachine.{SequentialState, Steps, sequential_opening, value_at};
ghost use Rattle.sequential_machine.specs.SequentialMachine.{IsOutcome};
ghost use Rattle.trace_reader.specs.Steps.{trace_ops};
ghost use Rattle.trace_texts.specs.Verdicts.{check_text};
ghost use Rattle.worker_driver.specs.Outcomes.{HasOutcome};
ghost use Rattle.report.specs.Complete.{AreAll, HasRecord, IsFirstLack, count_of_core};
ghost use Rattle.sequential_ends.specs.Every.{values_in};
ghost use Rattle.report.specs.Ends.{IsEndsReport};
ghost use Rattle.report.specs.EveryText.{often_in};
ghost use Rattle.report.specs.Litmus.{IsLitmusReport};
ghost use Rattle.worker_driver.specs.AskedRuns.{turns};
ghost use Rattle.report.specs.Reports.{IsTraceReport};
ghost use Rattle.report.specs.Verdicts.{HasNoVerdict, IsCheckReport, IsVerdictLine};

use litmus_reader::laws::one_text_is_one_test;
use physiological_order::laws::one_verdict;
use trace_reader::laws::one_text_tells_one_list;

/// A yes to `exists` shows a state in which steps of the sequential machine leave no thread an instruction, and in
/// which the condition's expression is true.
pub fn a_yes_shows_an_outcome()
    ensures { (test : Litmus) (runs : List RunEnd) → IsWellFormed test →
        AllByRecursion (HasOutcome test) runs →
        is_yes Exists (runs_held test runs) (runs_ended AllDone runs) ≡ true →
        (last : SequentialState) × Steps (sequential_opening test) last
        × ((t : ℕ) → t < test.threads → last.left t ≡ [])
        × (holds (value_at last) test.tree ≡ true) }
{}

/// The end state of each run that a report tells of is in each list of the ends of the same bytes, if the run is all
/// done.
pub fn runs_end_as_listed()
    ensures { (options : LitmusOptions) (bounds : EndsOptions) (bytes text list : List ℕ)
        (all_done done : Bool) (told : IsLitmusReport options bytes all_done text)
        (listed : IsEndsReport bounds bytes done list) →
        AllByRecursion (λ run. IfSome run.state (Contains (values_in listed.every))) told.runs }
{
    one_text_is_one_test();
}

/// If the last line of a list of ends says Never, no outcome of the sequential machine makes the condition's
/// expression true. If it says Always, each does; if Sometimes, one does and one doesn't. Examples of lists show only
/// how the line counts the ends that are listed, of their own tests.
pub fn the_last_line_is_final()
    ensures never { (options : EndsOptions) (bytes text : List ℕ) (done : Bool)
        (list : IsEndsReport options bytes done text) →
        often_in list.test list.every ≡ codes "Never" →
        (values : List ℕ) (end : IsOutcome list.test values) →
        holds (value_at end.last) list.test.tree ≡ false }
    ensures always { (options : EndsOptions) (bytes text : List ℕ) (done : Bool)
        (list : IsEndsReport options bytes done text) →
        often_in list.test list.every ≡ codes "Always" →
        (values : List ℕ) (end : IsOutcome list.test values) →
        holds (value_at end.last) list.test.tree ≡ true }
    ensures sometimes { (options : EndsOptions) (bytes text : List ℕ) (done : Bool)
        (list : IsEndsReport options bytes done text) →
        often_in list.test list.every ≡ codes "Sometimes" →
        (held : Bool) → (values : List ℕ) × (end : IsOutcome list.test values)
        × (holds (value_at end.last) list.test.tree ≡ held) }
{}

/// A run has as many turns as its options allow, up to 4,294,967,295.
pub fn turns_are_those_of_the_options()
    ensures few { (options : LitmusOptions) → options.run.limit ≤ 4294967295 → turns options ≡
        options.run.limit }
    ensures most { (options : LitmusOptions) → 4294967295 ≤ options.run.limit → turns options ≡
        4294967295 }
{}

/// The text that `run_trace` writes of a trace, if the options ask for its records, is one that `run_check` accepts
/// with that trace, over a memory of zeros. What it then writes, in lines or as JSON, is the verdict Legal, and it
/// answers that all is done. Only a failed allocation or a failed call of a source or sink keeps it from writing that.
pub fn written_records_are_legal()
    ensures legal { (options : TraceOptions) (trace text told : List ℕ) (all_done legal : Bool)
        (layout : Layout) →
        options.records ≡ true → IsTraceReport options (Some trace) all_done text →
        IsCheckReport (flat empty) false layout (Some trace) (Some text) legal told →
        (legal ≡ true) × (told ≡ check_text layout Legal) }
    ensures accepted { (options : TraceOptions) (trace text : List ℕ)
        (all_done : Bool) (e : RunError) →
        options.records ≡ true → IsTraceReport options (Some trace) all_done text →
        HasNoVerdict (Some trace) (Some text) e → e ≡ NoMemory }
{
    one_text_tells_one_list();
    one_verdict();
}

/// Of legal records that are complete, one is that of each operation, by its core, its place and what it does. So if
/// the line on records that are to be complete says that all is done, each operation of the trace has its record. If
/// the line names a core and a place instead, the core has an operation at that place, and its records are all of lower
/// places, one of each operation there. Examples of traces show this only of their own records.
pub fn complete_records_are_all()
    ensures all { (opening : Memory) (cores : ℕ) (issued : ℕ → List Op) (records : List Record) →
        IsLegal opening issued records → AreAll cores issued records →
        (core place : ℕ) (op : Op) → core < cores → slice_get (issued core) place ≡ Some op →
        HasRecord records core place op }
    ensures line { (opening : Memory) (lanes : List (List Step)) (records : List Record)
        (text : List ℕ) (layout : Layout) → IsVerdictLine opening true layout lanes records true text →
        (core place : ℕ) (op : Op) → slice_get (trace_ops lanes core) place ≡ Some op →
        HasRecord records core place op }
    ensures lack { (opening : Memory) (cores : ℕ) (issued : ℕ → List Op) (records : List Record)
        (core : ℕ) → IsLegal opening issued records → IsFirstLack cores issued records core →
        (op : Op) × (slice_get (issued core) (count_of_core core records) ≡ Some op)
        × ((r : Record) → Contains records r → r.core ≡ core →
        r.place < count_of_core core records)
        × ((place : ℕ) (before : Op) → place < count_of_core core records →
        slice_get (issued core) place ≡ Some before → HasRecord records core place before) }
{}
