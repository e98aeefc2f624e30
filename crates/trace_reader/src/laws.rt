//! What the limits of a text and its bytes are, and that it has one meaning. A function does nothing: its contract is
//! the law.

ghost use Rattle.std.specs.Prelude.{◌≡◌, ◌≤◌, ℕ, List, [], ◌∷◌, codes, length};
ghost use Rattle.std.specs.FinMap.{FinMap};
ghost use Rattle.std.specs.List.{filter, range_with_len};
ghost use Rattle.std.specs.Ordering.{nat_cmp};
ghost use Rattle.physiological_order.specs.declared.operation.Record.{Record};
ghost use Rattle.trace_lines.specs.Fields.{is_blank};
ghost use Rattle.trace_lines.specs.Spelling.{is_digit, is_hex_digit};
ghost use Rattle.programs.specs.declared.steps.Step.{Step};
ghost use Rattle.text_lines.specs.Lines.{lines_of};
ghost use Rattle.trace_reader.specs.Grammar.{AreRecords, IsOpening, IsTrace};
ghost use Rattle.trace_reader.specs.Reading.{all_told, steps_read};
ghost use Rattle.trace_reader.specs.Streams.{steps_told};
ghost use Rattle.trace_reader.specs.declared.limits.TheConstants as limit;

/// A line has at most 256 bytes, and a text 16,777,216 lines.
pub fn limits_are_these_numbers()
    ensures bytes { limit.MOST_BYTES ≡ 256 }
    ensures lines { limit.MOST_LINES ≡ 16777216 }
{}

/// Which bytes part fields, and which are decimal and hexadecimal digits: of all 256, in order.
pub fn bytes_are_of_these_kinds()
    ensures blanks { filter is_blank (range_with_len 0 256) ≡ 9 ∷ 32 ∷ [] }
    ensures digits { filter is_digit (range_with_len 0 256) ≡ codes "0123456789" }
    ensures hexadecimal { filter is_hex_digit (range_with_len 0 256) ≡ codes "0123456789abcdef" }
{}

/// A text is that of one trace at most, of one list of records at most, and of one opening at most.
pub fn one_text_tells_one_list()
    ensures trace { (bytes : List ℕ) (one other : List (List Step)) →
        IsTrace bytes one → IsTrace bytes other → one ≡ other }
    ensures records { (bytes : List ℕ) (one other : List Record) →
        AreRecords bytes one → AreRecords bytes other → one ≡ other }
    ensures opening { (bytes : List ℕ) (one other : FinMap nat_cmp ℕ) →
        IsOpening bytes one → IsOpening bytes other → one ≡ other }
{}

/// Of a text of at most 16,777,216 lines a stream tells what `read` reads: its steps, or the same fault. A stream takes
/// at most 18,446,744,073,709,551,614 lines.
pub fn streams_tell_what_is_read()
    ensures same { (bytes : List ℕ) → length (lines_of bytes) ≤ limit.MOST_LINES →
        steps_read bytes ≡ all_told (steps_told bytes) }
    ensures lines { limit.MOST_NUMBERED ≡ 18446744073709551614 }
{}
