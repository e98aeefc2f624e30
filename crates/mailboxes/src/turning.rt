//! A turn of a seat: it puts all messages that it can, and serves.
ghost use Rattle.std.specs.Prelude.{◌≡◌, ◌+◌, ◌≤◌, true, IfOk};
ghost use Rattle.mailboxes.specs.Turns.{Follows, PutAll, Rests, Turns, is_idle};

use crate::machine::Machine;
use crate::taken::Take;
use inbox::Served;
use machine_table::Refusal;

/// The result of a turn.
#[derive(Clone, Copy, Debug, PartialEq, Eq)]
pub struct Turn {
    /// How many messages were put, up to 256.
    pub put: u32,
    /// What happened to the message that was served last.
    pub served: Served,
}

/// A seat that has turns, by its calls.
pub(crate) trait Turner {
    ghost use Rattle.std.specs.Prelude.{Bool, Result, ℕ};
    ghost use Rattle.machine_table.specs.declared.event.Refusal.{Refusal};
    ghost use Rattle.inbox.specs.declared.answer.Served.{Served};
    ghost use Rattle.mailboxes.specs.declared.machine.Machine.{Machine};
    ghost use Rattle.mailboxes.specs.declared.taken.Take.{Take};

    /// Whether the seat is one of the machine's.
    ghost is_here: { Machine → Self → Type 0 };

    /// What a put does, a serving, and a take.
    ghost puts: { Machine → Bool → Self → Self → Type 0 };

    ghost serves: { Machine → Result Served Refusal → Self → Self → Type 0 };

    ghost takes: { Machine → Take → Self → Self → Type 0 };

    /// Whether the hand is full.
    ghost full: { Self → Bool };

    /// How many messages are to be put.
    ghost waiting: { Self → ℕ };

    /// The seat's number, which doesn't change.
    ghost number: { Self → ℕ };

    fn put_message(&mut self, machine: &Machine) -> bool
        requires { is_here machine.now self.old }
        ensures seat { is_here machine.now self.new }
        ensures number { number self.new ≡ number self.old }
        ensures put { puts machine.now result self.old self.new }
        ensures fewer { result ≡ true → waiting self.new + 1 ≡ waiting self.old };

    fn serve_message(&mut self, machine: &Machine) -> Result<Served, Refusal>
        requires { is_here machine.now self.old }
        ensures seat { is_here machine.now self.new }
        ensures number { number self.new ≡ number self.old }
        ensures served { serves machine.now result self.old self.new };

    fn take_message(&mut self, machine: &Machine) -> Take
        requires { is_here machine.now self.old }
        ensures seat { is_here machine.now self.new }
        ensures number { number self.new ≡ number self.old }
        ensures taken { takes machine.now result self.old self.new };

    fn hand_is_full(&self) -> bool
        ensures { result ≡ full self.now };

    fn messages_to_put(&self) -> u32
        ensures value { result ≡ waiting self.now }
        ensures within { result ≤ 256 };
}

// Puts messages until none finds a free slot, and answers how many.
fn put_all_messages<S: Turner>(seat: &mut S, machine: &Machine) -> u32
    requires { S.is_here machine.now seat.old }
    ensures seat { S.is_here machine.now seat.new }
    ensures number { S.number seat.new ≡ S.number seat.old }
    ensures put { PutAll (S.puts machine.now) result seat.old seat.new }
    ensures within { result ≤ 256 }
{
    let _within = seat.messages_to_put();
    for count in 0..257 {
        if !seat.put_message(machine) {
            return count;
        }
    }
    unreachable!()
}

// Whether nothing came of the messages that are held.
fn served_nothing(served: &Result<Served, Refusal>) -> bool
    ensures { result ≡ is_idle served.now }
{
    matches!(served, Ok(Served::Held | Served::Nothing))
}

// Takes a message and serves it; if none came, the answer is the earlier one.
#[inline(always)]
fn take_and_serve<S: Turner>(
    seat: &mut S,
    machine: &Machine,
    before: Result<Served, Refusal>,
) -> Result<Served, Refusal>
    requires { S.is_here machine.now seat.old }
    ensures seat { S.is_here machine.now seat.new }
    ensures number { S.number seat.new ≡ S.number seat.old }
    ensures served { Follows (S.serves machine.now) (S.takes machine.now) before seat.old result
        seat.new }
{
    match seat.take_message(machine) {
        Take::Taken => seat.serve_message(machine),
        Take::Nothing => before,
        Take::HandFull => seat.serve_message(machine),
    }
}

// Serves the hand if it is full; else a held message, and if nothing comes of these, a message that is taken.
#[inline(always)]
fn serve_or_take<S: Turner>(seat: &mut S, machine: &Machine) -> Result<Served, Refusal>
    requires { S.is_here machine.now seat.old }
    ensures seat { S.is_here machine.now seat.new }
    ensures number { S.number seat.new ≡ S.number seat.old }
    ensures served { Rests (S.serves machine.now) (S.takes machine.now) (S.full seat.old) seat.old
        result seat.new }
{
    if seat.hand_is_full() {
        return seat.serve_message(machine);
    }
    let before = seat.serve_message(machine);
    if served_nothing(&before) {
        return take_and_serve(seat, machine, before);
    }
    before
}

/// Puts what can be put, and serves.
#[inline(always)]
pub(crate) fn seat_turn<S: Turner>(seat: &mut S, machine: &Machine) -> Result<Turn, Refusal>
    requires { S.is_here machine.now seat.old }
    ensures seat { S.is_here machine.now seat.new }
    ensures number { S.number seat.new ≡ S.number seat.old }
    ensures turns { Turns (S.serves machine.now) (S.takes machine.now) S.full (S.puts machine.now)
        seat.old result seat.new }
    ensures within { IfOk result (λ turn. turn.put ≤ 256) }
{
    let put = put_all_messages(seat, machine);
    match serve_or_take(seat, machine) {
        Ok(served) => Ok(Turn { put, served }),
        Err(refusal) => Err(refusal),
    }
}
