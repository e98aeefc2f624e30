//! What the limits and the signs of a text are. The functions do nothing: their contracts are the laws.

ghost use Rattle.std.specs.Prelude.{◌≡◌, [], ◌∷◌, codes};
ghost use Rattle.std.specs.List.{filter, range_with_len};
ghost use Rattle.litmus_lexer.specs.FirstLines.{is_key, is_title_byte};
ghost use Rattle.litmus_lexer.specs.Pieces.{is_blank, is_letter, is_slash};
ghost use Rattle.litmus_lexer.specs.Spelling.{is_digit, is_name_byte};
ghost use Rattle.litmus_lexer.specs.declared.limits.TheConstants as limit;
ghost use Rattle.litmus_lexer.specs.declared.signs.TheConstants as sign;

/// A text has at most 65,536 bytes, a name of a test 128 characters, a table 16 threads (0 to 15) and 1,024 rows. There
/// are registers 0 to 31 and at most 64 locations, whose names have at most 32 characters. A number is at most
/// 2147483647, and in `ori` at most 2047. A condition has at most 256 atoms, and parentheses 64 deep.
pub fn limits_are_these_numbers()
    ensures bytes { limit.MOST_BYTES ≡ 65536 }
    ensures title { limit.LONGEST_TITLE ≡ 128 }
    ensures threads { limit.MOST_THREADS ≡ 16 }
    ensures last_thread { limit.LAST_THREAD ≡ 15 }
    ensures rows { limit.MOST_ROWS ≡ 1024 }
    ensures last_register { limit.LAST_REGISTER ≡ 31 }
    ensures locations { limit.MOST_LOCATIONS ≡ 64 }
    ensures location { limit.LONGEST_LOCATION ≡ 32 }
    ensures value { limit.VALUE_BOUND ≡ 2147483648 }
    ensures ori { limit.MOST_ORI ≡ 2047 }
    ensures atoms { limit.MOST_ATOMS ≡ 256 }
    ensures depth { limit.MOST_DEPTH ≡ 64 }
{}

/// Each sign is the byte of its character.
pub fn signs_are_these_characters()
    ensures colon { codes ":" ≡ sign.COLON ∷ [] }
    ensures semicolon { codes ";" ≡ sign.SEMICOLON ∷ [] }
    ensures comma { codes "," ≡ sign.COMMA ∷ [] }
    ensures equals { codes "=" ≡ sign.EQUALS ∷ [] }
    ensures bar { codes "|" ≡ sign.BAR ∷ [] }
    ensures opening_brace { codes "{" ≡ sign.OPENING_BRACE ∷ [] }
    ensures closing_brace { codes "}" ≡ sign.CLOSING_BRACE ∷ [] }
    ensures opening_parenthesis { codes "(" ≡ sign.OPENING_PARENTHESIS ∷ [] }
    ensures closing_parenthesis { codes ")" ≡ sign.CLOSING_PARENTHESIS ∷ [] }
{}

/// Which bytes are blanks and parts of words, of names of tests, of keys and locations, and of numbers, and which begin
/// a key: of all 256, in order.
pub fn bytes_are_of_these_kinds()
    ensures blanks { filter is_blank (range_with_len 0 256) ≡ 9 ∷ 13 ∷ 32 ∷ [] }
    ensures words { filter is_letter (range_with_len 0 256) ≡
        codes ".0123456789ABCDEFGHIJKLMNOPQRSTUVWXYZ_abcdefghijklmnopqrstuvwxyz~" }
    ensures slashes { filter is_slash (range_with_len 0 256) ≡ 47 ∷ 92 ∷ [] }
    ensures titles { filter is_title_byte (range_with_len 0 256) ≡
        codes "+-.0123456789ABCDEFGHIJKLMNOPQRSTUVWXYZ[]_abcdefghijklmnopqrstuvwxyz" }
    ensures names { filter is_name_byte (range_with_len 0 256) ≡
        codes "0123456789ABCDEFGHIJKLMNOPQRSTUVWXYZ_abcdefghijklmnopqrstuvwxyz" }
    ensures keys { filter (λ b. is_key (b ∷ [])) (range_with_len 0 256) ≡
        codes "ABCDEFGHIJKLMNOPQRSTUVWXYZabcdefghijklmnopqrstuvwxyz" }
    ensures digits { filter is_digit (range_with_len 0 256) ≡ codes "0123456789" }
{}
