//! A bank of the shared cache. All memory for its entries is allocated when it is made.
ghost use Rattle.std.specs.Prelude.{◌≡◌, ◌≢◌, ◌≤◌, ◌<◌, length, IfOk, IfSome, IsOk, IsSome};
ghost use Rattle.std.specs.Prelude.{IsTrue, false, is_some, slice_get, Err, None, OnErr, OnOk, Some};
ghost use Rattle.std.specs.Option.{option_copied};
ghost use Rattle.line_sets.specs.Geometry.{IsGeometry};
ghost use Rattle.ranked_lines.specs.Rising.{sorted};
ghost use Rattle.line_sets.specs.SetTable.{all_listed, has_room, has_place};
ghost use Rattle.llc_bank.specs.SetUp.{IsInRange};
ghost use Rattle.llc_bank.specs.OnEntry.{finds_place};
ghost use Rattle.llc_bank.specs.Settled.{is_settled};
ghost use Rattle.llc_bank.specs.BankTable.{bank_has_case, bank_table, core_of, is_reply};
ghost use Rattle.network.specs.declared.part.Reaction.TheVariants.{Done};

use crate::choice::choose_line_to_evict;
use crate::config::BankConfig;
use crate::decision::{
    Decision, Eviction, decide_eviction, decide_exclusive_request, decide_shared_request,
    filled_entry, returned_entry,
};
use crate::entry::{Entry, Evict, EvictError};
use dram_mts::MemoryTime;
use line_sets::LineSets;
use network::{Body, LineNo, Message, Node, Part, PartError, Reaction, quotient, remainder};
use std::alloc::{AllocError, Global};
use std::marker::Model;

/// The entries of a bank by set, and its memory time. A line belongs to the set whose number is the line's, divided by
/// the number of banks, modulo the number of sets. A set lists its entries from the least to the most recently used
/// one. Contracts see a `BankState`.
#[derive(Drop)]
pub struct Bank {
    number: u32,
    banks: u32,
    lease: u64,
    mts: MemoryTime,
    table: LineSets<Entry>,
}

impl Model for Bank {
    ghost use Rattle.llc_bank.specs.BankTable.{BankState};
    ghost use Rattle.llc_bank.specs.OwnSets.{IsSound};

    ghost Value = { BankState };

    ghost view = { λ bank. record {
      number = bank.number;
      banks = bank.banks;
      lease = bank.lease;
      mts = bank.mts;
      table = bank.table;
    } };

    ghost invariant = { λ bank. IsSound bank.banks bank.table };
}

impl Bank {
    ghost use Rattle.llc_bank.specs.BankTable.{decided, empty_bank, entry_of, evict, evict_sends, from_bank};
    ghost use Rattle.llc_bank.specs.BankTable.{make_room, set_of, to_dram, with_changed, with_used, without_entry};
    ghost use Rattle.llc_bank.specs.OwnSets.{IsSound};

    /// A bank without entries. All memory is allocated here, for all the entries that it can have.
    pub fn new(alloc: Global, config: BankConfig) -> Result<Bank, AllocError>
        requires config { IsInRange config }
        requires geometry { IsGeometry config.sets config.ways }
        ensures { IfOk result (λ bank. bank ≡ empty_bank config) }
    {
        let table = LineSets::new(alloc, config.sets, config.ways)?;
        Ok(Bank {
            number: config.number,
            banks: config.banks,
            lease: config.lease,
            mts: MemoryTime::new(config.opening_time),
            table,
        })
    }

    /// Makes it the bank that `new` makes with this set-up. If its table already has that shape, the call allocates
    /// nothing, and takes time in proportion to the entries that the bank had. If an allocation fails, nothing
    /// changes.
    pub fn reopen(&mut self, config: BankConfig) -> Result<(), AllocError>
        requires config { IsInRange config }
        requires geometry { IsGeometry config.sets config.ways }
        ensures opened { OnOk result (self.new ≡ empty_bank config) }
        ensures refused { OnErr result (self.new ≡ self.old) }
        ensures kept { length self.old.table.sets ≡ config.sets →
            self.old.table.ways ≡ config.ways → IsOk result }
    {
        self.table.reopen(config.sets, config.ways)?;
        self.number = config.number;
        self.banks = config.banks;
        self.lease = config.lease;
        self.mts = MemoryTime::new(config.opening_time);
        Ok(())
    }

    /// The bank's number.
    pub fn number(&self) -> u32
        ensures { result ≡ self.now.number }
    {
        self.number
    }

    // The set that a line belongs to.
    #[inline(always)]
    fn set_of(&self, line: LineNo) -> usize
        ensures set { result ≡ set_of self.now line }
        ensures below { result < length self.now.table.sets }
    {
        remainder(
            quotient(line.0, self.banks as u64),
            self.table.sets() as u64,
        ) as usize
    }

    /// What the bank keeps of a line, `None` if it does not have it.
    #[inline(always)]
    pub fn entry(&self, line: LineNo) -> Option<&Entry>
        ensures value { option_copied result ≡ entry_of self.now line }
        ensures sound { IsSound self.now.banks self.now.table }
    {
        self.table.find(self.set_of(line), line.0)
    }

    // The same, by the line's set, which needs two divisions: a message's is worked out once.
    #[inline(always)]
    fn entry_in(&self, set: usize, line: LineNo) -> Option<&Entry>
        requires set { set ≡ set_of self.now line }
        requires below { set < length self.now.table.sets }
        ensures { option_copied result ≡ entry_of self.now line }
    {
        self.table.find(set, line.0)
    }

    /// Whether the set of a line has fewer entries than ways.
    #[inline(always)]
    pub fn has_room(&self, line: LineNo) -> bool
        ensures { result ≡ has_room self.now.table (set_of self.now line) }
    {
        self.table.has_room(self.set_of(line))
    }

    /// The time from which a line that comes from DRAM now would be valid.
    #[inline(always)]
    pub fn memory_time(&self) -> u64
        ensures { result ≡ self.now.mts }
    {
        self.mts.now()
    }

    // Sets the entry of a line that is there, or has room, and makes it the most recently used of its set.
    #[inline(always)]
    fn use_entry(&mut self, set: usize, line: LineNo, entry: Entry)
        requires set { set ≡ set_of self.old line }
        requires below { set < length self.old.table.sets }
        requires way { IsTrue (has_place self.old.table set line) }
        ensures { self.new ≡ with_used self.old line entry }
    {
        self.table.insert(set, line.0, entry);
    }

    // Gives a line an entry that has none, but room in its set, and makes it the most recently used of its set.
    #[inline(always)]
    fn add_entry(&mut self, set: usize, line: LineNo, entry: Entry)
        requires set { set ≡ set_of self.old line }
        requires below { set < length self.old.table.sets }
        requires absent { entry_of self.old line ≡ None }
        requires room { IsTrue (has_room self.old.table set) }
        ensures { self.new ≡ with_used self.old line entry }
    {
        self.table.add(set, line.0, entry);
    }

    // Changes the entry of a line that is there, and keeps the order of use.
    #[inline(always)]
    fn change_entry(&mut self, set: usize, line: LineNo, entry: Entry)
        requires set { set ≡ set_of self.old line }
        requires below { set < length self.old.table.sets }
        requires there { IsSome (entry_of self.old line) }
        ensures { self.new ≡ with_changed self.old line entry }
    {
        self.table.replace(set, line.0, entry);
    }

    // Takes out the entry of a line.
    #[inline(always)]
    fn drop_entry(&mut self, set: usize, line: LineNo)
        requires set { set ≡ set_of self.old line }
        requires below { set < length self.old.table.sets }
        ensures { self.new ≡ without_entry self.old line }
    {
        let _entry = self.table.remove(set, line.0);
    }

    // A message of the bank about a line.
    #[inline(always)]
    fn from_bank(&self, line: LineNo, to: Node, body: Body) -> Message
        ensures { result ≡ from_bank self.now line to body }
    {
        Message {
            from: Node::Bank(self.number),
            to,
            line,
            body,
        }
    }

    // A message of the bank to the DRAM behind it.
    #[inline(always)]
    fn to_dram(&self, line: LineNo, body: Body) -> Message
        ensures { result ≡ to_dram self.now line body }
    {
        self.from_bank(line, Node::Dram(self.number), body)
    }

    // What the bank does at a message that is no reply, by its line's set. Each kind of request looks the entry up for
    // itself, so its kind isn't tested again.
    #[inline(always)]
    fn decide_on_message(&self, message: &Message, set: usize) -> Decision
        requires set { set ≡ set_of self.now message.now.line }
        requires below { set < length self.now.table.sets }
        requires request { is_reply message.now.body ≡ false }
        ensures decision { result ≡ decided self.now message.now }
        ensures way { IsTrue (finds_place (is_some (entry_of self.now message.now.line)) (has_room
            self.now.table (set_of self.now message.now.line)) result) }
    {
        let line = message.line;
        let room = self.table.has_room(set);
        match message.body {
            Body::ShReq { pts, version } => {
                decide_shared_request(self.lease, room, pts, version, self.entry_in(set, line))
            }
            Body::ExReq { version } => {
                decide_exclusive_request(
                    room,
                    core_of_node(message.from),
                    version,
                    self.entry_in(set, line),
                )
            }
            _ => Decision::NoCase,
        }
    }

    /// Whether a message is a reply of an owner or of DRAM.
    #[inline(always)]
    pub fn is_reply(body: &Body) -> bool
        ensures { result ≡ is_reply body.now }
    {
        matches!(
            body,
            Body::FlushRep(_) | Body::WbRep(_) | Body::DramLdRep(_) | Body::DramStRep
        )
    }

    /// Takes in a reply: what `deliver` does then, but this call never fails, and the bank sends nothing.
    #[inline(always)]
    pub fn take_reply(&mut self, message: &Message)
        requires case { IsTrue (bank_has_case self.old message.now) }
        requires reply { IsTrue (is_reply message.now.body) }
        ensures { bank_table self.old message.now ≡ Some (Done None, self.new) }
    {
        let line = message.line;
        let set = self.set_of(line);
        match &message.body {
            Body::FlushRep(timed) | Body::WbRep(timed) => {
                self.change_entry(set, line, returned_entry(timed));
            }
            Body::DramLdRep(words) => {
                let filled = filled_entry(self.memory_time(), words);
                self.change_entry(set, line, filled);
            }
            Body::DramStRep => self.drop_entry(set, line),
            _ => unreachable!(),
        }
    }

    // The same by a call of its own, so that `deliver` stays small enough to be inlined.
    #[inline(never)]
    fn take_reply_apart(&mut self, message: &Message)
        requires case { IsTrue (bank_has_case self.old message.now) }
        requires reply { IsTrue (is_reply message.now.body) }
        ensures { bank_table self.old message.now ≡ Some (Done None, self.new) }
    {
        self.take_reply(message);
    }

    /// Evicts a line. A Shared line raises the memory time to the end of its lease; a clean one is gone then, and the
    /// bank sends a dirty one to DRAM. The bank asks the owner of an Exclusive line to return it, and the line stays.
    /// NotHere exactly when the bank does not have the line; Busy exactly when it is being loaded, recalled or stored.
    #[inline(always)]
    pub fn evict(&mut self, line: LineNo) -> Result<Evict, EvictError>
        ensures { (result, self.new) ≡ evict self.old line }
    {
        let set = self.set_of(line);
        match decide_eviction(self.entry_in(set, line)) {
            Eviction::NotThere => Err(EvictError::NotHere),
            Eviction::IsBusy => Err(EvictError::Busy),
            Eviction::Drops { rts } => {
                self.drop_entry(set, line);
                self.mts.raise(rts);
                Ok(Evict::Clean)
            }
            Eviction::Stores { rts, words } => {
                self.change_entry(set, line, Entry::Storing);
                self.mts.raise(rts);
                Ok(Evict::Stored(self.to_dram(line, Body::DramSt(words))))
            }
            Eviction::AsksBack { owner } => {
                self.change_entry(set, line, Entry::Recalling { owner });
                Ok(Evict::Recalled(self.from_bank(line, Node::Core(owner), Body::FlushReq)))
            }
        }
    }

    /// The node that `evict` would send a message to, if any, without doing it. NotHere and Busy exactly when `evict`
    /// answers them.
    pub fn evicts(&self, line: LineNo) -> Result<Option<Node>, EvictError>
        ensures { result ≡ evict_sends (evict self.now line).0 }
    {
        match decide_eviction(self.entry(line)) {
            Eviction::NotThere => Err(EvictError::NotHere),
            Eviction::IsBusy => Err(EvictError::Busy),
            Eviction::Drops { .. } => Ok(None),
            Eviction::Stores { .. } => Ok(Some(Node::Dram(self.number))),
            Eviction::AsksBack { owner } => Ok(Some(Node::Core(owner))),
        }
    }

    /// The line to evict for a request of a line that waits for room: `None` if the bank has the line, if its set has
    /// room, and if a line of the set is being loaded, recalled or stored. Else the least recently used line of the
    /// set that no core owns, or the least recently used one if cores own them all; `evict` does not refuse it.
    #[inline(always)]
    pub fn make_room(&self, line: LineNo) -> Option<LineNo>
        ensures line { result ≡ make_room self.now line }
        ensures same_set { IfSome result (λ victim. set_of self.now victim ≡ set_of self.now line) }
        ensures evicted { IfSome result (λ victim. IsOk (evict self.now victim).0) }
    {
        self.line_that_makes_room(line)
    }

    // The line that make_room gives.
    #[inline(always)]
    fn line_that_makes_room(&self, line: LineNo) -> Option<LineNo>
        ensures line { result ≡ make_room self.now line }
        ensures sound { IsSound self.now.banks self.now.table }
    {
        let set = self.set_of(line);
        if self.table.has_room(set) || !self.table.is_all_listed(set) {
            return None;
        }
        if self.entry_in(set, line).is_some() {
            return None;
        }
        choose_line_to_evict(&self.table, set)
    }

    /// The lines that are Shared or Exclusive, in rising order.
    pub fn lines(&self) -> Result<Vec<LineNo>, AllocError>
        ensures { IfOk result (λ lines. lines.items ≡ sorted (all_listed is_settled
            self.now.table.sets)) }
    {
        self.table.lines()
    }

    /// How many lines are Shared or Exclusive.
    pub fn settled(&self) -> usize
        ensures { result ≡ length (all_listed is_settled self.now.table.sets) }
    {
        self.table.count_listed_lines()
    }

    /// The line at an index of those that are Shared or Exclusive, in rising order.
    pub fn settled_line(&self, at: usize) -> Result<LineNo, AllocError>
        requires { at < length (all_listed is_settled self.now.table.sets) }
        ensures { IfOk result (λ line. slice_get (sorted (all_listed is_settled
            self.now.table.sets)) at ≡ Some line) }
    {
        self.table.nth_listed(None, at)
    }

    /// Keeps the lines that are Shared or Exclusive in rising order from now on, so that `settled_line` allocates
    /// nothing. `LineSets::keep_order` states what that allocates and moves. If the allocation fails, nothing changes.
    pub fn keep_order(&mut self) -> Result<(), AllocError>
        ensures { self.new ≡ self.old }
    {
        self.table.keep_order()
    }

    /// Stops keeping the lines in rising order. The memory for that stays.
    pub fn pause_order(&mut self)
        ensures { self.new ≡ self.old }
    {
        self.table.pause_order();
    }

    /// Stops keeping the lines in rising order, and frees the memory for that.
    pub fn forget_order(&mut self)
        ensures { self.new ≡ self.old }
    {
        self.table.forget_order();
    }
}

// The core that a node is, 0 if it is none.
#[inline(always)]
fn core_of_node(node: Node) -> u32
    ensures { result ≡ core_of node }
{
    match node {
        Node::Core(core) => core,
        _ => 0,
    }
}

impl Part for Bank {
    ghost use Rattle.network.specs.Sends.{sent_by};

    ghost has_case = { bank_has_case };

    ghost table = { bank_table };

    ghost takes_memory = { λ _ _. false };

    fn sends(&self, message: &Message) -> Option<(Node, bool)> {
        if Bank::is_reply(&message.body) {
            return None;
        }
        let set = self.set_of(message.line);
        match self.decide_on_message(message, set) {
            Decision::Loads => Some((Node::Dram(self.number), true)),
            Decision::Recalls { owner, sent: _ } => Some((Node::Core(owner), true)),
            Decision::Grants { entry: _, sent: _ } => Some((message.from, false)),
            _ => None,
        }
    }

    #[inline(always)]
    fn deliver(&mut self, message: &Message) -> Result<Reaction, PartError>
        requires { IsTrue (bank_has_case self.old message.now) }
        ensures done { IfOk result (λ reaction. bank_table self.old message.now ≡ Some
            (reaction, self.new)) }
        ensures refused { OnErr result (self.new ≡ self.old) }
        ensures exhausted { result ≡ Err PartError.Exhausted →
            bank_table self.old message.now ≡ None }
        ensures fits { bank_table self.old message.now ≡ None → result ≡ Err PartError.Exhausted }
        ensures wanted { result ≡ Err PartError.NoMemory →
            IsTrue (is_some (sent_by (bank_table self.old message.now))) }
        ensures memory { result ≢ Err PartError.NoMemory }
    {
        if Bank::is_reply(&message.body) {
            self.take_reply_apart(message);
            return Ok(Reaction::Done(None));
        }
        let line = message.line;
        let set = self.set_of(line);
        match self.decide_on_message(message, set) {
            Decision::Waits => Ok(Reaction::Held),
            Decision::Loads => {
                self.add_entry(set, line, Entry::Loading);
                Ok(Reaction::HeldAfter(self.to_dram(line, Body::DramLd)))
            }
            Decision::Recalls { owner, sent } => {
                self.change_entry(set, line, Entry::Recalling { owner });
                Ok(Reaction::HeldAfter(self.from_bank(line, Node::Core(owner), sent)))
            }
            Decision::Grants { entry, sent } => {
                self.use_entry(set, line, entry);
                Ok(Reaction::Done(Some(self.from_bank(line, message.from, sent))))
            }
            Decision::TooLate => Err(PartError::Exhausted),
            Decision::NoCase => Ok(Reaction::Dropped),
            Decision::Becomes(_) | Decision::Leaves => unreachable!(),
        }
    }
}
