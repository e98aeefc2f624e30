//! What the bytes of a line are. The function does nothing: its contract is the law.

ghost use Rattle.std.specs.Prelude.{◌≡◌, [], ◌∷◌, not};
ghost use Rattle.std.specs.List.{filter, range_with_len};
ghost use Rattle.trace_lines.specs.Fields.{is_blank, is_within};
ghost use Rattle.trace_lines.specs.Spelling.{is_digit, is_hex_digit};

/// Of all 256 bytes, tab and space are the blanks, and these and `#` (35) alone are not within a field. The digits are
/// 0 to 9 (48 to 57), and the hexadecimal digits also a to f (97 to 102).
pub fn bytes_are_of_these_kinds()
    ensures blanks { filter is_blank (range_with_len 0 256) ≡ 9 ∷ 32 ∷ [] }
    ensures not_within { filter (λ b. not (is_within b)) (range_with_len 0 256) ≡ 9 ∷ 32 ∷ 35 ∷ [] }
    ensures digits { filter is_digit (range_with_len 0 256) ≡
        48 ∷ 49 ∷ 50 ∷ 51 ∷ 52 ∷ 53 ∷ 54 ∷ 55 ∷ 56 ∷ 57 ∷ [] }
    ensures hex_digits { filter is_hex_digit (range_with_len 0 256) ≡
        48 ∷ 49 ∷ 50 ∷ 51 ∷ 52 ∷ 53 ∷ 54 ∷ 55 ∷ 56 ∷ 57
        ∷ 97 ∷ 98 ∷ 99 ∷ 100 ∷ 101 ∷ 102 ∷ [] }
{}
