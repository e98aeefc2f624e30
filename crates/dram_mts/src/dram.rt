//! The DRAM behind a bank.
ghost use Rattle.std.specs.Prelude.{◌≡◌, ◌<◌, false, None, Some, IsTrue, IfOk, OnOk, OnErr, IsSome, is_some, IsOk};
ghost use Rattle.std.specs.Prelude.{slice_set};
ghost use Rattle.std.specs.FinMap as map;
ghost use Rattle.dram_mts.specs.Lines.{words_of};

use network::{Body, LineNo, Message, Node, Part, PartError, Reaction, Words};
use number_map::NumberMap;
use std::alloc::{AllocError, Global};
use std::marker::Model;

/// The words of each line, eight zeros if the line was never stored. Contracts see a finite map from the numbers of
/// the lines that were.
#[derive(Drop)]
pub struct Dram {
    lines: NumberMap<Words>,
}

impl Model for Dram {
    ghost use Rattle.std.specs.Prelude.{ℕ, List};
    ghost use Rattle.std.specs.FinMap as map;
    ghost use Rattle.std.specs.Ordering.{nat_cmp};
    ghost use Rattle.std.specs.Coded.{coded_ℕ, coded_list};

    ghost Value = { map.FinMap nat_cmp (List ℕ) };

    ghost coded = { map.code coded_ℕ (coded_list coded_ℕ) };

    ghost view = { λ dram. dram.lines };
}

impl Dram {
    /// A DRAM of zeros; it allocates nothing yet.
    pub fn new(alloc: Global) -> Dram
        ensures { result ≡ map.empty }
    {
        Dram {
            lines: NumberMap::new(alloc),
        }
    }

    /// Makes it a DRAM of zeros again, and keeps its memory.
    pub fn clear(&mut self)
        ensures { self.new ≡ map.empty }
    {
        self.lines.clear();
    }

    /// The words of a line.
    pub fn load(&self, line: LineNo) -> Words
        ensures { result ≡ words_of self.now line }
    {
        match self.lines.get(line.0) {
            Some(words) => words,
            None => Words::zeros(),
        }
    }

    /// Sets the words of a line. If an allocation failed, nothing changes; a line that was stored before needs none.
    pub fn store(&mut self, line: LineNo, words: Words) -> Result<(), AllocError>
        ensures stored { OnOk result (self.new ≡ map.insert self.old line words) }
        ensures refused { OnErr result (self.new ≡ self.old) }
        ensures known { IsSome (map.get self.old line) → IsOk result }
    {
        self.lines.insert(line.0, words)
    }

    /// Sets one word of a line, at an index below 8. If an allocation failed, nothing changes; a line that was stored
    /// before needs none.
    pub fn set_word(&mut self, line: LineNo, index: usize, value: u64) -> Result<(), AllocError>
        requires { index < 8 }
        ensures stored { OnOk result (self.new ≡
            map.insert self.old line (slice_set (words_of self.old line) index value)) }
        ensures refused { OnErr result (self.new ≡ self.old) }
        ensures known { IsSome (map.get self.old line) → IsOk result }
    {
        let mut words = self.load(line);
        words.set(index, value);
        self.store(line, words)
    }
}

/// The answer to a message, about the same line.
fn dram_reply(message: &Message, body: Body) -> Message
    ensures { result ≡ record {
      from = message.now.to;
      to = message.now.from;
      line = message.now.line;
      body = body;
    } }
{
    Message {
        from: message.to,
        to: message.from,
        line: message.line,
        body,
    }
}

impl Part for Dram {
    ghost use Rattle.network.specs.Sends.{sent_by};
    ghost use Rattle.dram_mts.specs.Table.{dram_table, dram_has_case, needs_memory};

    ghost has_case = { dram_has_case };

    ghost table = { dram_table };

    ghost takes_memory = { needs_memory };

    fn sends(&self, message: &Message) -> Option<(Node, bool)> {
        Some((message.from, false))
    }

    #[inline(always)]
    fn deliver(&mut self, message: &Message) -> Result<Reaction, PartError>
        requires { IsTrue (dram_has_case self.old message.now) }
        ensures done { IfOk result (λ reaction. dram_table self.old message.now ≡ Some
            (reaction, self.new)) }
        ensures refused { OnErr result (self.new ≡ self.old) }
        ensures exhausted { result ≡ Err PartError.Exhausted →
            dram_table self.old message.now ≡ None }
        ensures fits { dram_table self.old message.now ≡ None → result ≡ Err PartError.Exhausted }
        ensures wanted { result ≡ Err PartError.NoMemory →
            IsTrue (is_some (sent_by (dram_table self.old message.now))) }
        ensures memory { needs_memory self.old message.now ≡ false → IsOk result }
    {
        let body = match message.body {
            Body::DramSt(words) => {
                if self.store(message.line, words).is_err() {
                    return Err(PartError::NoMemory);
                }
                Body::DramStRep
            }
            _ => Body::DramLdRep(self.load(message.line)),
        };
        Ok(Reaction::Done(Some(dram_reply(message, body))))
    }
}
