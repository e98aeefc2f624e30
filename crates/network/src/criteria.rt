//! Which messages a search among those in flight looks for.
ghost use Rattle.std.specs.Prelude.{◌≡◌};
ghost use Rattle.network.specs.Search.{is_ownership_of, is_same_node, is_store_of, carries_ownership};
ghost use Rattle.network.specs.Requests.{is_wanted};

use crate::message::{Body, Message, Node};
use crate::numbers::LineNo;

/// What a search looks for.
#[derive(Clone, Copy)]
pub(crate) enum Wanted {
    /// A message that carries the line's ownership.
    OwnershipOf(LineNo),
    /// A store of the line's words in DRAM.
    StoreOf(LineNo),
}

impl Node {
    /// Whether both are the same node.
    pub fn is_same(self, other: Node) -> bool
        ensures { result ≡ is_same_node self other }
    {
        match (self, other) {
            (Node::Core(a), Node::Core(b)) => a == b,
            (Node::Bank(a), Node::Bank(b)) => a == b,
            (Node::Dram(a), Node::Dram(b)) => a == b,
            _ => false,
        }
    }
}

impl Body {
    /// Whether a message with this body carries its line's ownership: a grant of the line, or a return of it.
    pub fn carries_ownership(&self) -> bool
        ensures { result ≡ carries_ownership self.now }
    {
        match self {
            Body::ExRep(_) | Body::UpgradeRep { .. } | Body::FlushRep(_) | Body::WbRep(_) => true,
            _ => false,
        }
    }
}

impl Wanted {
    /// Whether the search looks for this message.
    pub(crate) fn wants_message(&self, message: &Message) -> bool
        ensures { result ≡ is_wanted self.now message.now }
    {
        match *self {
            Wanted::OwnershipOf(line) => message.line.0 == line.0
                && message.body.carries_ownership(),
            Wanted::StoreOf(line) => message.line.0 == line.0
                && matches!(message.body, Body::DramSt(_)),
        }
    }
}
