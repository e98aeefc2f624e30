//! A line's fields, from the left, up to its comment.

ghost use Rattle.std.specs.Prelude.{◌≡◌, ◌≤◌, [], ◌∷◌, length, MatchOption};
ghost use Rattle.std.specs.List.{prefix_len};
ghost use Rattle.trace_lines.specs.Fields.{is_blank, is_within, front_field, has_fields, fields_of};

/// Space or tab.
fn is_blank(b: u8) -> bool
    ensures { result ≡ is_blank b }
{
    b == b' ' || b == b'\t'
}

/// A byte of a field: no blank, and not where a comment begins.
pub(crate) fn is_field_byte(b: u8) -> bool
    ensures { result ≡ is_within b }
{
    !matches!(b, b' ' | b'\t' | b'#')
}

fn count_leading_blanks(bytes: &[u8]) -> usize
    ensures count { result ≡ prefix_len is_blank bytes.now }
    ensures within { result ≤ length bytes.now }
{
    bytes.iter().take_while(|b| is_blank(**b)).count()
}

fn count_field_bytes(bytes: &[u8]) -> usize
    ensures count { result ≡ prefix_len is_within bytes.now }
    ensures within { result ≤ length bytes.now }
{
    bytes.iter().take_while(|b| is_field_byte(**b)).count()
}

/// A line from its first byte that is no blank on.
#[inline(always)]
pub(crate) fn skip_leading_blanks(line: &[u8]) -> &[u8]
    ensures { fields_of line.now ≡ front_field result.now }
{
    let (_, bytes) = line.split_at(count_leading_blanks(line));
    bytes
}

/// Whether a line has a field.
pub(crate) fn has_field(line: &[u8]) -> bool
    ensures { result ≡ has_fields (fields_of line.now) }
{
    match skip_leading_blanks(line) {
        [first, ..] => is_field_byte(*first),
        [] => false,
    }
}

/// The first field of a line, and what follows it.
#[inline(always)]
pub(crate) fn next_field(line: &[u8]) -> Option<(&[u8], &[u8])>
    ensures { MatchOption result (fields_of line.now ≡ [])
        (λ r. fields_of line.now ≡ r.0.now ∷ fields_of r.1.now) }
{
    let bytes = skip_leading_blanks(line);
    let count = count_field_bytes(bytes);
    if count == 0 {
        return None;
    }
    let (field, rest) = bytes.split_at(count);
    Some((field, rest))
}
