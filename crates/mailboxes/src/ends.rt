//! The links of a seat: which one goes to a node, and which slots come in.
ghost use Rattle.std.specs.Prelude.{◌≡◌, ◌+◌, ◌*◌, ◌≤◌, ◌<◌, true};
ghost use Rattle.machine_table.specs.SetUp.{is_good};
ghost use Rattle.seat_rule.specs.declared.views.SetUp.{SetUp};
ghost use Rattle.seat_rule.specs.Rule.{slot_count, source, target, node_of, to_of};
ghost use Rattle.mailboxes.specs.Places.{end_of, has_link_to, link_to, incoming};
ghost use Rattle.mailboxes.specs.Places.{incoming_count, incoming_link, incoming_stride};
ghost use Rattle.mailboxes.specs.Incoming.{AreIncoming};

use machine_table::Config;
use network::Node;

/// Where the slots are that come in to a seat.
#[derive(Clone, Copy)]
pub struct Slots {
    /// How many they are.
    pub(crate) count: usize,
    /// The first one.
    pub(crate) first: usize,
    /// How far the first slots of two links are apart that come in one after the other.
    pub(crate) stride: usize,
}

/// The slots that come in to a seat.
pub fn incoming_slots(config: &Config, number: u32) -> Slots
    requires good { is_good config.now ≡ true }
    requires number { number < config.now.cores + config.now.banks }
    ensures { AreIncoming config.now.cores config.now.banks number result }
{
    let count = incoming_count(config, number);
    Slots {
        count,
        first: incoming_slot(config, number, 0),
        stride: incoming_stride(config, number),
    }
}

/// The number of the link from a seat to a node.
pub fn link_number_to(config: &Config, number: u32, to: &Node) -> usize
    requires good { is_good config.now ≡ true }
    requires number { number < config.now.cores + config.now.banks }
    requires link { has_link_to config.now.cores config.now.banks number to.now ≡ true }
    ensures link { result ≡ link_to config.now.cores config.now.banks number to.now }
    ensures within { 4 * result + 4 ≤ 8 * config.now.cores * config.now.banks }
    ensures ends { (z : SetUp) → z.config ≡ config.now →
        (source z result ≡ number) × (to.now ≡ node_of z (target z result)) }
{
    let cores = config.cores as usize;
    let banks = config.banks as usize;
    match to {
        Node::Core(core) => cores * banks + ((number as usize - cores) * cores + *core as usize),
        Node::Bank(bank) => number as usize * banks + *bank as usize,
        Node::Dram(_) => unreachable!(),
    }
}

/// The number of the core or bank that a seat has a link to.
pub fn link_end_number(config: &Config, number: u32, to: &Node) -> usize
    requires good { is_good config.now ≡ true }
    requires link { has_link_to config.now.cores config.now.banks number to.now ≡ true }
    ensures end { result ≡ end_of to.now }
    ensures within { result < 64 }
{
    match to {
        Node::Core(core) => *core as usize,
        Node::Bank(bank) => *bank as usize,
        Node::Dram(_) => unreachable!(),
    }
}

/// How many slots come in to a seat.
pub fn incoming_count(config: &Config, number: u32) -> usize
    requires { is_good config.now ≡ true }
    ensures count { result ≡ incoming_count config.now.cores config.now.banks number }
    ensures within { (4 ≤ result) × (result ≤ 256) }
{
    let ends = if number < config.cores {
        config.banks
    } else {
        config.cores
    };
    4 * ends as usize
}

/// How far the first slots of two links are apart that come in to a seat one after the other.
pub fn incoming_stride(config: &Config, number: u32) -> usize
    requires { is_good config.now ≡ true }
    ensures stride { result ≡ incoming_stride config.now.cores config.now.banks number }
    ensures within { (4 ≤ result) × (result ≤ 256) }
{
    let ends = if number < config.cores {
        config.cores
    } else {
        config.banks
    };
    4 * ends as usize
}

// The link to a seat from the core or bank of this number.
fn incoming_link(config: &Config, number: u32, from: usize) -> usize
    requires good { is_good config.now ≡ true }
    requires number { number < config.now.cores + config.now.banks }
    requires from { 4 * from < incoming_count config.now.cores config.now.banks number }
    ensures link { result ≡ incoming_link config.now.cores config.now.banks number from }
    ensures within { 4 * result + 4 ≤ 8 * config.now.cores * config.now.banks }
    ensures end { (z : SetUp) → z.config ≡ config.now → target z result ≡ number }
{
    let cores = config.cores as usize;
    let banks = config.banks as usize;
    let at = number as usize;
    if number < config.cores {
        cores * banks + (from * cores + at)
    } else {
        from * banks + (at - cores)
    }
}

/// A slot that comes in to a seat, by its place among them.
pub fn incoming_slot(config: &Config, number: u32, place: usize) -> usize
    requires good { is_good config.now ≡ true }
    requires number { number < config.now.cores + config.now.banks }
    requires place { place < incoming_count config.now.cores config.now.banks number }
    ensures slot { result ≡ incoming config.now.cores config.now.banks number place }
    ensures within { result < 8 * config.now.cores * config.now.banks }
    ensures end { (z : SetUp) → z.config ≡ config.now → to_of z result ≡ number }
{
    4 * incoming_link(config, number, place / 4) + place % 4
}
