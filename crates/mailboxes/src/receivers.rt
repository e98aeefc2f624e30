//! The parts of seats, as what messages are delivered to.
use crate::part_serving::deliver_if_room;
use crate::sending::{SendingBank, SendingCore};
use inbox::{Answer, Receiver};
use machine_theorem::move_laws::{waiting_banks_stay, waiting_cores_stay};
use network::{Message, Node};

impl Receiver<Message> for SendingCore {
    ghost use Rattle.mailboxes.specs.CoreServing.{sending_core_has_case, sending_core_table};
    ghost use Rattle.mailboxes.specs.CoreServing.{sending_core_takes_memory};

    ghost has_case = { sending_core_has_case };

    ghost table = { sending_core_table };

    ghost takes_memory = { sending_core_takes_memory };

    fn deliver(&mut self, message: &Message, places: u32) -> Answer<Message> {
        waiting_cores_stay();
        deliver_if_room(true, &mut self.core, &mut self.outbox, message, places)
    }
}

impl Receiver<Message> for SendingBank {
    ghost use Rattle.mailboxes.specs.BankServing.{sending_bank_has_case, sending_bank_table};
    ghost use Rattle.mailboxes.specs.BankServing.{sending_bank_takes_memory};

    ghost has_case = { sending_bank_has_case };

    ghost table = { sending_bank_table };

    ghost takes_memory = { sending_bank_takes_memory };

    fn deliver(&mut self, message: &Message, places: u32) -> Answer<Message> {
        waiting_banks_stay();
        match message.to {
            Node::Core(_) => unreachable!(),
            Node::Bank(_) => deliver_if_room(
                false,
                &mut self.bank,
                &mut self.outbox,
                message,
                places,
            ),
            Node::Dram(_) => deliver_if_room(
                false,
                &mut self.dram,
                &mut self.outbox,
                message,
                places,
            ),
        }
    }
}
