//! A closed machine, with the records of all its cores.
use crate::parts::{BankPart, CorePart};
use network::Message;
use physiological_order::Record;
use seat_rule::SetUp;

/// What a machine leaves when it is closed with all its seats: the parts of one state that moves reach from the
/// opening.
#[derive(Drop)]
pub struct Run {
    /// How the machine was set up, and the memory that it opened with.
    pub set_up: SetUp,
    /// The parts of the cores' seats, as the seats were given.
    pub cores: Vec<CorePart>,
    /// The parts of the banks' seats, likewise.
    pub banks: Vec<BankPart>,
    /// What lay in each slot, by number.
    pub slots: Vec<Option<Message>>,
    /// The records of all cores, by number.
    pub records: Vec<Record>,
}
