//! Answers, messages and what else a machine shows, as C has them.
ghost use Rattle.std.specs.Prelude.{◌≡◌};
ghost use Rattle.tardis_c.specs.SystemParts.{answer_without_record, c_answer, capped, carried_by, carried_line};
ghost use Rattle.tardis_c.specs.SystemParts.{carried_nothing, end_of, message_of, open_of, place_of, plain_op};
ghost use Rattle.tardis_c.specs.SystemParts.{plain_record, victim_of};

use crate::plain::{PlainOperation, PlainRecord};
use interleaving_core::{Answer, Body, LineNo, Message, Node, TimedLine, Words};
use physiological_order::{Op, Record};

/// The answer to an event, as `tardis.h` has it.
#[repr(C)]
#[derive(Clone, Copy)]
pub struct CAnswer {
    /// 0 issued, 1 completed, 2 requested, 3 waiting, 4 idle, 5 delivered, 6 dropped, 7 held, 8 started, 9 evicted, 10
    /// recalled, 11 advanced, 12 refused.
    pub kind: u64,
    /// The number of the refusal, 0 for none.
    pub refusal: u64,
    /// The record of a completed operation, else zeros.
    pub completed: PlainRecord,
}

/// A message in flight, as `tardis.h` has it. What its kind doesn't carry is 0.
#[repr(C)]
#[derive(Clone, Copy)]
pub struct PlainMessage {
    pub number: u64,
    /// 0 ShReq, 1 ExReq, 2 ShRep, 3 ExRep, 4 RenewRep, 5 UpgradeRep, 6 FlushReq, 7 WbReq, 8 FlushRep, 9 WbRep, 10
    /// DramLd, 11 DramLdRep, 12 DramSt, 13 DramStRep.
    pub kind: u64,
    /// 0 a core, 1 a bank, 2 a DRAM.
    pub from_kind: u64,
    pub from: u64,
    pub to_kind: u64,
    pub to: u64,
    /// The number of the line.
    pub line: u64,
    /// The time of the core that asks to read.
    pub pts: u64,
    /// 1 if the core that asks has a copy, which is of this version.
    pub has_version: u64,
    pub version: u64,
    /// The time of the line's last write.
    pub wts: u64,
    /// The time up to which the line may be read.
    pub rts: u64,
    /// The line's words: all eight, or the first where lines have one.
    pub words: [u64; 8],
}

/// A core's open operation, as `tardis.h` has it.
#[repr(C)]
#[derive(Clone, Copy)]
pub struct PlainOpen {
    /// 0 there is none, 1 there is one, 2 its request is out.
    pub state: u64,
    /// The operation, else zeros.
    pub operation: PlainOperation,
}

/// What is to be evicted, as `tardis.h` has it.
#[repr(C)]
#[derive(Clone, Copy)]
pub struct Place {
    /// 1 if something is.
    pub is_there: u64,
    /// The bank, 0 where a core's copy is evicted.
    pub bank: u64,
    /// The number of the line.
    pub line: u64,
}

/// What a message says.
#[derive(Clone, Copy)]
struct Carried {
    kind: u64,
    pts: u64,
    version: Option<u64>,
    wts: u64,
    rts: u64,
    words: [u64; 8],
}

/// A count in 64 bits: the greatest such number if it is past that.
pub(crate) fn capped(count: u128) -> u64
    ensures { result ≡ capped count }
{
    if count < 18_446_744_073_709_551_616 {
        count as u64
    } else {
        u64::MAX
    }
}

/// An operation of a core.
pub(crate) fn plain_op(core: u32, op: Op) -> PlainOperation
    ensures { result ≡ plain_op core op }
{
    let address = op.word() * 8;
    match &op {
        Op::Load(_) => PlainOperation {
            core,
            kind: 0,
            address,
            value: 0,
        },
        Op::Store(_, value) => PlainOperation {
            core,
            kind: 1,
            address,
            value: *value,
        },
        Op::Swap(_, value) => PlainOperation {
            core,
            kind: 2,
            address,
            value: *value,
        },
    }
}

/// A record of a completed operation.
pub(crate) fn plain_record(done: &Record) -> PlainRecord
    ensures { result ≡ plain_record done.now }
{
    PlainRecord {
        operation: plain_op(done.core, done.op),
        place: u64::from(done.place),
        received: done.received.unwrap_or(0),
        time: done.ts,
        number: done.number,
    }
}

// An answer that leaves no record.
fn answer_without_record(kind: u64, refusal: u64) -> CAnswer
    ensures { result ≡ answer_without_record kind refusal }
{
    let operation = PlainOperation {
        core: 0,
        kind: 0,
        address: 0,
        value: 0,
    };
    CAnswer {
        kind,
        refusal,
        completed: PlainRecord {
            operation,
            place: 0,
            received: 0,
            time: 0,
            number: 0,
        },
    }
}

/// The answer to an event.
pub(crate) fn c_answer(answer: &Answer) -> CAnswer
    ensures { result ≡ c_answer answer.now }
{
    match answer {
        Answer::Issued => answer_without_record(0, 0),
        Answer::Completed(done) => CAnswer {
            kind: 1,
            refusal: 0,
            completed: plain_record(done),
        },
        Answer::Requested => answer_without_record(2, 0),
        Answer::Waiting => answer_without_record(3, 0),
        Answer::Idle => answer_without_record(4, 0),
        Answer::Delivered => answer_without_record(5, 0),
        Answer::Dropped => answer_without_record(6, 0),
        Answer::Held => answer_without_record(7, 0),
        Answer::Started => answer_without_record(8, 0),
        Answer::Evicted => answer_without_record(9, 0),
        Answer::Recalled => answer_without_record(10, 0),
        Answer::Advanced => answer_without_record(11, 0),
        Answer::Refused(refusal) => answer_without_record(12, u64::from(refusal.number())),
    }
}

// The words of a line.
fn array_of_words(words: &Words) -> [u64; 8]
    ensures { result ≡ words.now }
{
    [
        words.get(0),
        words.get(1),
        words.get(2),
        words.get(3),
        words.get(4),
        words.get(5),
        words.get(6),
        words.get(7),
    ]
}

// What a message says that carries nothing.
fn carried_nothing(kind: u64) -> Carried
    ensures { result ≡ carried_nothing kind }
{
    Carried {
        kind,
        pts: 0,
        version: None,
        wts: 0,
        rts: 0,
        words: [0; 8],
    }
}

// What a line in a message says.
fn carried_line(kind: u64, line: &TimedLine) -> Carried
    ensures { result ≡ carried_line kind line.now }
{
    Carried {
        wts: line.wts,
        rts: line.rts,
        words: array_of_words(&line.words),
        ..carried_nothing(kind)
    }
}

// What a message says up to which time.
fn carried_time(kind: u64, rts: u64) -> Carried
    ensures { result ≡ record (carried_nothing kind) { rts = rts } }
{
    Carried {
        rts,
        ..carried_nothing(kind)
    }
}

// What a message from or to DRAM says that brings words.
fn carried_words(kind: u64, words: &Words) -> Carried
    ensures { result ≡ record (carried_nothing kind) { words = words.now } }
{
    Carried {
        words: array_of_words(words),
        ..carried_nothing(kind)
    }
}

// What a request says.
fn carried_request(kind: u64, pts: u64, version: Option<u64>) -> Carried
    ensures { result ≡ record (carried_nothing kind) { pts = pts; version = version } }
{
    Carried {
        pts,
        version,
        ..carried_nothing(kind)
    }
}

// What a body says.
fn carried_by(body: &Body) -> Carried
    ensures { result ≡ carried_by body.now }
{
    match body {
        Body::ShReq { pts, version } => carried_request(0, *pts, *version),
        Body::ExReq { version } => carried_request(1, 0, *version),
        Body::ShRep(line) => carried_line(2, line),
        Body::ExRep(line) => carried_line(3, line),
        Body::RenewRep { rts } => carried_time(4, *rts),
        Body::UpgradeRep { rts } => carried_time(5, *rts),
        Body::FlushReq => carried_nothing(6),
        Body::WbReq { rts } => carried_time(7, *rts),
        Body::FlushRep(line) => carried_line(8, line),
        Body::WbRep(line) => carried_line(9, line),
        Body::DramLd => carried_nothing(10),
        Body::DramLdRep(words) => carried_words(11, words),
        Body::DramSt(words) => carried_words(12, words),
        Body::DramStRep => carried_nothing(13),
    }
}

// What an end of a message is, and its number.
fn end_of(node: &Node) -> (u64, u64)
    ensures { result ≡ end_of node.now }
{
    match node {
        Node::Core(number) => (0, u64::from(*number)),
        Node::Bank(number) => (1, u64::from(*number)),
        Node::Dram(number) => (2, u64::from(*number)),
    }
}

/// A message of this number.
pub(crate) fn message_of(number: u64, message: &Message) -> PlainMessage
    ensures { result ≡ message_of number message.now }
{
    let carried = carried_by(&message.body);
    let from = end_of(&message.from);
    let to = end_of(&message.to);
    PlainMessage {
        number,
        kind: carried.kind,
        from_kind: from.0,
        from: from.1,
        to_kind: to.0,
        to: to.1,
        line: message.line.0,
        pts: carried.pts,
        has_version: u64::from(carried.version.is_some()),
        version: carried.version.unwrap_or(0),
        wts: carried.wts,
        rts: carried.rts,
        words: carried.words,
    }
}

/// A core's open operation, if it has one, and whether its request is out.
pub(crate) fn open_of(core: u32, opened: Option<(Op, bool)>) -> PlainOpen
    ensures { result ≡ open_of core opened }
{
    match opened {
        None => PlainOpen {
            state: 0,
            operation: PlainOperation {
                core: 0,
                kind: 0,
                address: 0,
                value: 0,
            },
        },
        Some((op, is_out)) => PlainOpen {
            state: if is_out { 2 } else { 1 },
            operation: plain_op(core, op),
        },
    }
}

/// A line of a bank to evict, if there is one.
pub(crate) fn place_of(found: Option<(u32, LineNo)>) -> Place
    ensures { result ≡ place_of found }
{
    match found {
        None => Place {
            is_there: 0,
            bank: 0,
            line: 0,
        },
        Some((bank, line)) => Place {
            is_there: 1,
            bank: u64::from(bank),
            line: line.0,
        },
    }
}

/// A line of a core's cache to evict, if there is one.
pub(crate) fn victim_of(found: Option<LineNo>) -> Place
    ensures { result ≡ victim_of found }
{
    match found {
        None => place_of(None),
        Some(line) => place_of(Some((0, line))),
    }
}
