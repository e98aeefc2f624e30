//! A text has one meaning, and what holds of every test. The functions do nothing: their contracts are the laws.

ghost use Rattle.std.specs.Prelude.{◌≡◌, ℕ, List};
ghost use Rattle.litmus_reader.specs.Grammar.{IsTest};
ghost use Rattle.litmus_reader.specs.Litmus.{Litmus};
ghost use Rattle.litmus_reader.specs.TestViews.{test_of};
ghost use Rattle.litmus_reader.specs.WellFormed.{IsWellFormed};
ghost use Rattle.litmus_reader.specs.declared.contents.Test.{Test};

/// A text is that of one test at most.
pub fn one_text_is_one_test()
    ensures { (text : List ℕ) (one other : Litmus) →
        IsTest text one → IsTest text other → one ≡ other }
{}

/// A test is well formed: its text's, and every `Test`.
pub fn tests_are_well_formed()
    ensures of_text { (text : List ℕ) (test : Litmus) → IsTest text test → IsWellFormed test }
    ensures every { (test : Test) → IsWellFormed (test_of test) }
{}
