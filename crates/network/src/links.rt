//! The links between nodes, by number.
ghost use Rattle.std.specs.Prelude.{◌≡◌, ◌≤◌};
ghost use Rattle.network.specs.LinkNumbers.{count_links, link_of};

use crate::message::Node;

/// How many links there are: one each way between each core and each bank, and between each bank and its DRAM.
pub(crate) fn count_links(cores: u32, banks: u32) -> u32
    requires cores { cores ≤ 64 }
    requires banks { banks ≤ 8 }
    ensures { result ≡ count_links cores banks }
{
    2 * banks + 2 * (cores * banks)
}

/// The number of the link from the one node to the other, if there is one.
#[inline(always)]
pub(crate) fn link_of(cores: u32, banks: u32, from: Node, to: Node) -> Option<u32>
    requires cores { cores ≤ 64 }
    requires banks { banks ≤ 8 }
    ensures { result ≡ link_of cores banks from to }
{
    match (from, to) {
        (Node::Bank(bank), Node::Dram(dram)) if bank < banks && bank == dram => Some(bank),
        (Node::Dram(dram), Node::Bank(bank)) if bank < banks && bank == dram => Some(banks + bank),
        (Node::Core(core), Node::Bank(bank)) if core < cores && bank < banks => Some(
            2 * banks + (core * banks + bank),
        ),
        (Node::Bank(bank), Node::Core(core)) if core < cores && bank < banks => Some(
            2 * banks + cores * banks + (core * banks + bank),
        ),
        _ => None,
    }
}
