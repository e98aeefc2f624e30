//! Cases that no machine brings a part to: messages from or to nodes of another kind, one line more than a set has
//! room for, calls of a cache that a core has no use for, and a message in the hand that is delivered and sends one to
//! its own held list.
use crate::clerks::Clerk;
use inbox::{Inbox, Served};
use network::{Body, LineNo, Message, Node, TimedLine, Words, has_endpoints};
use private_cache::{Cache, CacheError, CopyState, Geometry, LineCopy};
use std::alloc::{AllocError, Global};

const CORE: Node = Node::Core(1);

const BANK: Node = Node::Bank(1);

const DRAM: Node = Node::Dram(1);

const OWN: Body = Body::ExReq { version: None };

/// The number of the first message, in a machine of two cores and two banks, that may go and shouldn't, or the other
/// way.
fn first_wrong() -> Option<usize> {
    let cases = [
        (CORE, BANK, OWN, true),
        (BANK, CORE, OWN, false),
        (Node::Core(2), BANK, OWN, false),
        (BANK, CORE, Body::WbReq { rts: 4 }, true),
        (CORE, Node::Bank(2), Body::FlushReq, false),
        (BANK, Node::Dram(0), Body::DramLd, false),
        (DRAM, CORE, Body::DramStRep, false),
        (BANK, DRAM, Body::DramSt(Words::zeros()), true),
        (DRAM, BANK, Body::DramLdRep(Words::zeros()), true),
    ];
    for number in 0..cases.len() {
        let (from, to, body, may_go) = cases[number];
        let line = LineNo(0);
        if has_endpoints(
            2,
            2,
            &Message {
                from,
                to,
                line,
                body,
            },
        ) != may_go
        {
            return Some(number);
        }
    }
    None
}

#[test]
fn endpoints_are_those_of_each_kind(rt: HostRuntime) {
    assert_eq!(rt; first_wrong(), None);
}

/// Whether a set of two ways takes two lines, refuses the third, and keeps the two; whether it takes the first one
/// again, which then is the most recently used.
fn is_full(alloc: Global) -> Result<bool, AllocError> {
    let mut cache = Cache::new(alloc, Geometry { sets: 1, ways: 2 })?;
    for (line, filled) in [
        (3, Ok(())),
        (8, Ok(())),
        (5, Err(CacheError::NoRoom)),
        (3, Ok(())),
    ] {
        let zeros = TimedLine {
            wts: 1,
            rts: 11,
            words: Words::zeros(),
        };
        if cache.fill(LineNo(line), CopyState::Shared, zeros) != filled {
            return Ok(false);
        }
    }
    let victim = cache.victim(LineNo(5));
    Ok(victim == Some(LineNo(8)) && cache.lines()?.as_slice() == [LineNo(3), LineNo(8)].as_slice())
}

#[test]
fn a_full_set_takes_no_line(rt: HostRuntime) {
    assert_eq!(rt; is_full(rt.alloc()), Ok(true));
}

/// Whether a copy that was written is leased up to 20, upgraded with 15, written again, leased up to 12 and downgraded
/// with 10, each time with just that time, and keeps all else but that it was written; whether it stays the least
/// recently used one; and whether each is refused for a line without a copy.
fn is_changed(alloc: Global) -> Result<bool, AllocError> {
    let mut cache = Cache::new(alloc, Geometry { sets: 1, ways: 2 })?;
    let (line, other) = (LineNo(3), LineNo(8));
    let timed = TimedLine {
        wts: 4,
        rts: 11,
        words: Words::zeros(),
    };
    let arrived = LineCopy::arrived(CopyState::Shared, timed);
    let written = LineCopy {
        written: true,
        ..arrived
    };
    let mut is_right = cache.renew(other, 20) == Err(CacheError::NotHere)
        && cache.upgrade(other, 20) == Err(CacheError::NotHere)
        && cache.downgrade(other, 20) == Err(CacheError::NotHere);
    if cache.place(line) {
        cache.put(line, written);
    }
    is_right &= cache.fill(LineNo(5), CopyState::Shared, timed) == Ok(());
    is_right &= cache.renew(line, 20) == Ok(());
    is_right &= cache.find(line).copied() == Some(LineCopy { rts: 20, ..written });
    is_right &= cache.upgrade(line, 15) == Ok(());
    let owned = LineCopy::arrived(CopyState::Exclusive, TimedLine { rts: 15, ..timed });
    is_right &= cache.find(line).copied() == Some(owned) && cache.victim(other) == Some(line);
    let written = LineCopy {
        written: true,
        ..owned
    };
    if cache.place(line) {
        cache.put(line, written);
    }
    is_right &= cache.renew(line, 12) == Ok(());
    is_right &= cache.find(line).copied() == Some(LineCopy { rts: 12, ..written });
    is_right &= cache.downgrade(line, 10) == Ok(());
    is_right &= cache.find(line).copied() == Some(LineCopy { rts: 10, ..arrived });
    Ok(is_right && cache.victim(other) == Some(LineNo(5)))
}

#[test]
fn copies_change_as_asked(rt: HostRuntime) {
    assert_eq!(rt; is_changed(rt.alloc()), Ok(true));
}

/// Whether the message 7 in the hand is delivered past these waiting ones, and the 6 that it sends is held after them.
fn sends_itself(alloc: Global, waiting: u32) -> Result<bool, AllocError> {
    let mut inbox = Inbox::new(alloc)?;
    for _ in 0..waiting {
        if inbox.places() > 0 {
            inbox.hold(2);
        }
    }
    if inbox.hand().is_none() {
        inbox.fill_hand(7);
    }
    let mut clerk = Clerk { last: 0 };
    let served = inbox.serve(&mut clerk);
    let is_sent = inbox.hand().is_none() && inbox.held(waiting) == Some(&6);
    Ok(served == Ok(Served::Delivered) && clerk.last == 7 && is_sent)
}

#[test]
fn a_message_in_the_hand_sends_one_to_its_own_list(rt: HostRuntime) {
    assert_eq!(rt;
        (sends_itself(rt.alloc(), 1), sends_itself(rt.alloc(), 255)),
        (Ok(true), Ok(true))
    );
}
