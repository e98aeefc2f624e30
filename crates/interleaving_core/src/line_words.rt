//! Who owns a line, and where its words are.
ghost use Rattle.std.specs.Prelude.{◌≡◌, ◌≤◌, ◌%◌, true, slice_get};
ghost use Rattle.network.specs.Search.{first_message, is_ownership_of, is_store_of};
ghost use Rattle.private_cache.specs.CopyTable.{copy_of};
ghost use Rattle.llc_bank.specs.BankTable.{core_of};
ghost use Rattle.machine_table.specs.SetUp.{is_good};
ghost use Rattle.machine_theorem.specs.Coherence.{bank_words, cached_words, exclusive_copies, granted_words};
ghost use Rattle.machine_theorem.specs.Coherence.{owned_words, owner_words, owners, coherent, coherent_words};
ghost use Rattle.machine_theorem.specs.Coherence.{stored_words, words_with};
ghost use Rattle.machine_theorem.specs.Kept.{Invariant};

use crate::histories::History;
use crate::machine_state::MachineState;
use core_pts::Core;
use llc_bank::Entry;
use network::{Body, LineNo, Message, Node, Words};
use physiological_order::WordAddr;
use private_cache::CopyState;

impl<H: History> MachineState<H> {
    // How many own a line: the Exclusive copies of it, and the grants and returns of it in flight.
    pub(crate) fn owners(&self, line: LineNo) -> usize
        requires { owners self.now line ≤ 1 }
        ensures { result ≡ owners self.now line }
    {
        exclusive_copies(&self.cores, line) + self.flight.owners(line)
    }

    // A word's coherent value: where its line now is.
    pub(crate) fn coherent(&self, addr: WordAddr) -> u64
        requires invariant { Invariant self.now }
        requires good { is_good self.now.config ≡ true }
        ensures { result ≡ coherent self.now addr }
    {
        let words = self.config.line_words as u64;
        let line = LineNo(addr.word() / words);
        self.coherent_words(line)
            .get((addr.word() % words) as usize)
    }

    // The words of a line where they now are.
    fn coherent_words(&self, line: LineNo) -> Words
        requires { Invariant self.now }
        ensures { result ≡ coherent_words self.now line }
    {
        if let Some(words) = owner_words(&self.cores, line) {
            return words;
        }
        if let Some(words) = self.granted_words(line) {
            return words;
        }
        let home = (line.0 % self.config.banks as u64) as usize;
        if let Some(words) = self.bank_words(home, line) {
            return words;
        }
        if let Some(words) = self.stored_words(line) {
            return words;
        }
        self.drams[home].load(line)
    }

    // The words that come with a grant or a return of a line in flight.
    fn granted_words(&self, line: LineNo) -> Option<Words>
        ensures { result ≡ granted_words self.now.cores line (first_message (is_ownership_of line)
            self.now.mail.messages) }
    {
        let message = self.flight.ownership_of(line)?;
        self.words_with(message, line)
    }

    // The words that come with this message; an upgrade stands for those that its core has.
    fn words_with(&self, message: &Message, line: LineNo) -> Option<Words>
        ensures { result ≡ words_with self.now.cores line message.now message.now.body }
    {
        match message.body {
            Body::ExRep(timed) => Some(timed.words),
            Body::FlushRep(timed) => Some(timed.words),
            Body::WbRep(timed) => Some(timed.words),
            Body::UpgradeRep { .. } => self.cached_words(core_of_node(message.to), line),
            _ => None,
        }
    }

    // The words of a core's copy.
    fn cached_words(&self, core: u32, line: LineNo) -> Option<Words>
        ensures { result ≡ cached_words (slice_get self.now.cores core) line }
    {
        let copy = self.cores.get(core as usize)?.copy(line)?;
        Some(copy.words)
    }

    // The words of a bank's Shared entry.
    fn bank_words(&self, bank: usize, line: LineNo) -> Option<Words>
        ensures { result ≡ bank_words (slice_get self.now.banks bank) line }
    {
        match self.banks.get(bank)?.entry(line)? {
            Entry::Shared { dirty: _, line } => Some(line.words),
            _ => None,
        }
    }

    // The words of a store on its way to DRAM.
    fn stored_words(&self, line: LineNo) -> Option<Words>
        ensures { result ≡ stored_words (first_message (is_store_of line) self.now.mail.messages) }
    {
        match self.flight.store_of(line)?.body {
            Body::DramSt(words) => Some(words),
            _ => None,
        }
    }
}

// How many caches have an Exclusive copy of a line.
fn exclusive_copies(cores: &[Core], line: LineNo) -> usize
    ensures { result ≡ exclusive_copies cores.now line }
{
    let mut count = 0;
    let mut left = cores;
    while let Some((core, rest)) = left.split_first() {
        if owned_words(core, line).is_some() {
            count += 1;
        }
        left = rest;
    }
    count
}

// A line's words in the cache of its owner.
fn owner_words(cores: &[Core], line: LineNo) -> Option<Words>
    ensures { result ≡ owner_words cores.now line }
{
    let mut left = cores;
    while let Some((core, rest)) = left.split_first() {
        if let Some(words) = owned_words(core, line) {
            return Some(words);
        }
        left = rest;
    }
    None
}

// The words of a copy that a core owns.
fn owned_words(core: &Core, line: LineNo) -> Option<Words>
    ensures { result ≡ owned_words (copy_of core.now.cache line) }
{
    let copy = core.copy(line)?;
    if matches!(copy.state, CopyState::Exclusive) {
        Some(copy.words)
    } else {
        None
    }
}

// The core that a node is, 0 where it is none.
fn core_of_node(node: Node) -> u32
    ensures { result ≡ core_of node }
{
    match node {
        Node::Core(core) => core,
        _ => 0,
    }
}
