//! The messages of a seat, of either kind.
ghost use Rattle.std.specs.Prelude.{◌≡◌, ◌<◌, is_some};
ghost use Rattle.mailboxes.specs.Incoming.{AreIncoming};
ghost use Rattle.mailboxes.specs.Places.{AllOwn};
ghost use Rattle.mailboxes.specs.Ties.{BoxTied};

use crate::ends::Slots;
use crate::steps::SlotSeat;
use inbox::Inbox;
use network::Message;

/// A seat at the table of slots, with its hand and its held list. Each message in these goes to the seat's own core,
/// or to its bank or the DRAM behind that.
#[derive(Drop)]
pub struct Mailbox {
    pub(crate) seat: SlotSeat,
    // The seat's number: first come the cores, and then the banks.
    pub(crate) number: u32,
    // How many cores and banks the machine has.
    pub(crate) cores: u32,
    pub(crate) banks: u32,
    // The slots that come in.
    pub(crate) slots: Slots,
    // The message that was taken last, until it is served, and the messages that wait for the part.
    pub(crate) inbox: Inbox<Message>,
    // Where the next look for a message begins, among the slots that come in.
    pub(crate) cursor: usize,
    pub ghost tied: { BoxTied seat number inbox.hand inbox.held },
    pub ghost own: { AllOwn cores number inbox },
    pub ghost incoming: { AreIncoming cores banks number slots },
    pub ghost turned: { cursor < 256 },
}

impl Mailbox {
    /// Whether a message is in the hand.
    pub(crate) fn hand_is_full(&self) -> bool
        ensures { result ≡ is_some self.now.inbox.hand }
    {
        self.inbox.hand().is_some()
    }
}
