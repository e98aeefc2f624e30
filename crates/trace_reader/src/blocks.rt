//! Bytes that were read ahead, and the next line among them.

ghost use Rattle.std.specs.Prelude.{◌≡◌, ◌≢◌, ◌≤◌, ◌+◌, ◌<◌, length, drop, take, suc};
ghost use Rattle.std.specs.Prelude.{[], ◌++◌, List, ℕ, IfOk, OnErr, Ok};
ghost use Rattle.std.specs.Prelude.{MatchOption, IfSome, true, false};
ghost use Rattle.std.specs.List.{prefix_len};
ghost use Rattle.byte_streams.specs.Device.{Loses, AtEnd, Counts};

use crate::limits::MOST_BYTES;
use byte_streams::{DeviceError, Source};
use text_lines::line_length;

const SIZE: usize = 8192;

/// The bytes from `start` to `end` are not taken yet.
#[derive(Drop)]
pub(crate) struct Block {
    bytes: [u8; SIZE],
    start: usize,
    end: usize,
    ghost ordered: { start ≤ end },
    ghost within: { end ≤ 8192 },
}

impl Block {
    ghost use Rattle.text_lines.specs.Lines.{is_within_line};
    ghost use Rattle.trace_reader.specs.Ahead.{ahead, Both, IsNextLine};

    /// No bytes.
    pub(crate) fn new() -> Block
        ensures { ahead result ≡ [] }
    {
        Block {
            bytes: [0; SIZE],
            start: 0,
            end: 0,
        }
    }

    fn ahead(&self) -> &[u8]
        ensures bytes { result.now ≡ ahead self.now }
        ensures few { length result.now ≤ 8192 }
    {
        &self.bytes[self.start..self.end]
    }

    /// How many bytes come before the first line feed.
    fn line_length(&self) -> usize
        ensures length { result ≡ prefix_len is_within_line (ahead self.now) }
        ensures within { result ≤ length (ahead self.now) }
    {
        line_length(self.ahead())
    }

    fn move_to_front(&mut self)
        ensures same { ahead self.new ≡ ahead self.old }
        ensures room { self.new.end ≡ length (ahead self.new) }
    {
        let (start, end) = (self.start, self.end);
        self.bytes.copy_within(start..end, 0);
        self.start = 0;
        self.end = end - start;
    }

    /// Appends more bytes to those that are there. It appends none only at the end, and none is lost if it fails.
    fn fill<S: Source>(&mut self, source: &mut S) -> Result<bool, DeviceError>
        requires { length (ahead self.old) ≤ MOST_BYTES }
        ensures bytes { IfOk result (λ more. (came : List ℕ)
            × (ahead self.new ≡ ahead self.old ++ came)
            × Loses (S.remaining source.old) (S.remaining source.new) came
            × (more ≡ true → 0 < length came)
            × (more ≡ false → came ≡ [])) }
        ensures end { result ≡ Ok false →
            IfSome (S.remaining source.old) (λ known. AtEnd (S.remaining source.new)) }
        ensures kept { OnErr result (Both (S.remaining source.old) (S.remaining source.new)
            (λ before after. ahead self.old ++ before ≡ ahead self.new ++ after)) }
        ensures count { Counts (S.failures source.old) (S.failures source.new) result }
    {
        self.move_to_front();
        let end = self.end;
        let count = source.read(&mut self.bytes[end..])?;
        self.end = end + count;
        Ok(count > 0)
    }

    /// Reads until the end of the next line is there, or more than a line has: how many bytes come before it, or
    /// nothing at the end.
    pub(crate) fn find_line<S: Source>(
        &mut self,
        source: &mut S,
    ) -> Result<Option<usize>, DeviceError>
        ensures next { IfOk result (λ found. Both (S.remaining source.old) (S.remaining source.new)
            (λ before after. (ahead self.old ++ before ≡ ahead self.new ++ after)
            × MatchOption found ((ahead self.new ≡ []) × (after ≡ []))
            (λ n. IsNextLine n (ahead self.new) after))) }
        ensures within { IfOk result (λ found. MatchOption found (Unit {0})
            (λ n. n ≤ length (ahead self.new))) }
        ensures kept { OnErr result (Both (S.remaining source.old) (S.remaining source.new)
            (λ before after. ahead self.old ++ before ≡ ahead self.new ++ after)) }
        ensures count { Counts (S.failures source.old) (S.failures source.new) result }
    {
        let mut length = self.line_length();
        while length <= MOST_BYTES && length == self.ahead().len() {
            if !self.fill(source)? {
                return Ok(if length == 0 { None } else { Some(length) });
            }
            length = self.line_length();
        }
        Ok(Some(length))
    }

    /// The first bytes.
    pub(crate) fn front(&self, count: usize) -> &[u8]
        requires { count ≤ length (ahead self.now) }
        ensures { result.now ≡ take count (ahead self.now) }
    {
        &self.ahead()[..count]
    }

    /// Takes a line away, with its line feed if one follows.
    pub(crate) fn remove_line(&mut self, count: usize)
        requires { count ≤ length (ahead self.old) }
        ensures { ahead self.new ≡ drop (count + 1) (ahead self.old) }
    {
        self.start = (self.start + count + 1).min(self.end);
    }
}
