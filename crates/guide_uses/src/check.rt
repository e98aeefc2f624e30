//! Checks a history: a message is passed from one core to another.
ghost use Rattle.std.specs.Prelude.{◌≡◌, ◌==◌, if◌then◌else◌, IfOk};

use physiological_order::laws::one_verdict;
use physiological_order::{Memory, Op, Record, Verdict, WordAddr, check};
use std::alloc::{AllocError, Global};

/// Core 0 stored the message 1 and then a flag. Core 1 loaded the flag, which was up, and then the message, and says
/// that it received this. With the 1 the history is legal; with anything else record 3 has the wrong value.
pub fn check_message(alloc: Global, message: u64) -> Result<Verdict, AllocError>
    ensures { IfOk result (λ verdict. verdict ≡
        (if message == 1 then Verdict.Legal else Verdict.WrongValue 3)) }
{
    one_verdict();
    let (data, flag) = (WordAddr::at(0), WordAddr::at(1));
    let mut issued = Vec::new(alloc);
    issued.push(vec![in alloc; Op::Store(data, 1), Op::Store(flag, 1)]?)?;
    issued.push(vec![in alloc; Op::Load(flag), Op::Load(data)]?)?;
    let records = [
        record(0, 0, Op::Store(data, 1), None, 0),
        record(0, 1, Op::Store(flag, 1), None, 1),
        record(1, 0, Op::Load(flag), Some(1), 2),
        record(1, 1, Op::Load(data), Some(message), 3),
    ];
    check(alloc, &Memory::new(alloc), &issued, &records)
}

// A record at time 1: the core, the operation's place in its program, what it received, and the completion number.
fn record(core: u32, place: u32, op: Op, received: Option<u64>, number: u64) -> Record
    ensures { result ≡ record {
      core = core;
      place = place;
      op = op;
      received = received;
      ts = 1;
      number = number;
    } }
{
    Record {
        core,
        place,
        op,
        received,
        ts: 1,
        number,
    }
}
