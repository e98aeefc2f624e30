//! Words, messages, copies and entries as texts write them.

use crate::replies::Reply;
use llc_bank::Entry;
use network::{Body, Message, Node, Words};
use private_cache::{CopyState, LineCopy};

/// The values of a line's words.
pub fn put_line_words(words: &Words, out: &mut Reply) {
    for index in 0..out.line_words.min(8) {
        out.put_number(words.get(index as usize));
    }
}

/// The times of a line, and its words, as `wts 0 rts 10 words 0 7`.
fn put_timed_line(wts: u64, rts: u64, words: &Words, out: &mut Reply) {
    out.put_named_number("wts", wts);
    out.put_named_number("rts", rts);
    out.put_word("words");
    put_line_words(words, out);
}

fn put_node(node: &Node, out: &mut Reply) {
    let (name, number) = match *node {
        Node::Core(number) => ("core", number),
        Node::Bank(number) => ("bank", number),
        Node::Dram(number) => ("dram", number),
    };
    out.put_named_number(name, u64::from(number));
}

fn put_version(version: Option<u64>, out: &mut Reply) {
    match version {
        Some(version) => out.put_named_number("version", version),
        None => out.put_word("version none"),
    }
}

/// The names of the kinds of messages. Those that a core sends or is sent come first.
const KINDS: [&str; 14] = [
    "ShReq",
    "ExReq",
    "ShRep",
    "ExRep",
    "RenewRep",
    "UpgradeRep",
    "FlushReq",
    "WbReq",
    "FlushRep",
    "WbRep",
    "DramLd",
    "DramLdRep",
    "DramSt",
    "DramStRep",
];

/// The place of a message's kind among their names.
pub fn message_kind_index(body: &Body) -> usize {
    match body {
        Body::ShReq { .. } => 0,
        Body::ExReq { .. } => 1,
        Body::ShRep(_) => 2,
        Body::ExRep(_) => 3,
        Body::RenewRep { .. } => 4,
        Body::UpgradeRep { .. } => 5,
        Body::FlushReq => 6,
        Body::WbReq { .. } => 7,
        Body::FlushRep(_) => 8,
        Body::WbRep(_) => 9,
        Body::DramLd => 10,
        Body::DramLdRep(_) => 11,
        Body::DramSt(_) => 12,
        Body::DramStRep => 13,
    }
}

/// The name of the kind at a place; an empty one where there is none.
pub fn message_kind_name(kind: usize) -> &'static str {
    match KINDS.get(kind) {
        Some(name) => name,
        None => "",
    }
}

/// What a message carries.
fn put_message_body(body: &Body, out: &mut Reply) {
    match body {
        Body::ShReq { pts, version } => {
            out.put_named_number("pts", *pts);
            put_version(*version, out);
        }
        Body::ExReq { version } => put_version(*version, out),
        Body::ShRep(line) | Body::ExRep(line) | Body::FlushRep(line) | Body::WbRep(line) => {
            put_timed_line(line.wts, line.rts, &line.words, out);
        }
        Body::RenewRep { rts } | Body::UpgradeRep { rts } | Body::WbReq { rts } => {
            out.put_named_number("rts", *rts);
        }
        Body::DramLdRep(words) | Body::DramSt(words) => {
            out.put_word("words");
            put_line_words(words, out);
        }
        Body::FlushReq | Body::DramLd | Body::DramStRep => {}
    }
}

/// A message: its kind, its ends, its line and what it carries.
pub fn put_message(message: &Message, out: &mut Reply) {
    out.put_word(message_kind_name(message_kind_index(&message.body)));
    put_node(&message.from, out);
    out.put_word(">");
    put_node(&message.to, out);
    out.put_line_address(message.line);
    put_message_body(&message.body, out);
}

/// A message, or `none`.
pub fn put_message_or_none(message: Option<&Message>, out: &mut Reply) {
    match message {
        Some(message) => put_message(message, out),
        None => out.put_word("none"),
    }
}

/// A core's copy of a line, or `none`.
pub fn put_copy(copy: Option<&LineCopy>, out: &mut Reply) {
    let Some(copy) = copy else {
        return out.put_word("none");
    };
    out.put_word(match copy.state {
        CopyState::Shared => "shared",
        CopyState::Exclusive => "exclusive",
    });
    if copy.written {
        out.put_word("written");
    }
    put_timed_line(copy.wts, copy.rts, &copy.words, out);
}

/// What a bank keeps of a line, or `none`.
pub fn put_entry(entry: Option<&Entry>, out: &mut Reply) {
    match entry {
        None => out.put_word("none"),
        Some(Entry::Loading) => out.put_word("loading"),
        Some(Entry::Storing) => out.put_word("storing"),
        Some(Entry::Exclusive { owner }) => out.put_named_number(
            "exclusive owner",
            u64::from(*owner),
        ),
        Some(Entry::Recalling { owner }) => out.put_named_number(
            "recalling owner",
            u64::from(*owner),
        ),
        Some(Entry::Shared { dirty, line }) => {
            out.put_word(if *dirty { "shared dirty" } else { "shared" });
            put_timed_line(line.wts, line.rts, &line.words, out);
        }
    }
}
