//! Calls before a turn begins and after it has ended.
ghost use Rattle.std.specs.Prelude.{◌≡◌};

/// The thread that makes a turn of a seat passes a gate before it and after it. The gate may hold the thread up, and
/// changes no result. A job is one turn, turn 0, of a seat that has the job's number.
pub trait Gate {
    /// Turn `turn` of seat `seat` begins, counted from 0.
    fn before(&self, seat: u64, turn: u64);

    /// The turn has ended.
    fn after(&self, seat: u64, turn: u64);
}

/// A gate that does nothing.
#[derive(Clone, Copy, Debug, PartialEq, Eq)]
pub struct Free;

impl Gate for Free {
    fn before(&self, _seat: u64, _turn: u64) {}

    fn after(&self, _seat: u64, _turn: u64) {}
}

/// A turn that has begun at a gate. Only `begin` makes it, and only `end` takes it: it can't be dropped, so a turn that
/// has begun also ends.
pub struct Begun {
    seat: u64,
    turn: u64,
}

impl Begun {
    /// The number of the turn's seat. Of a job it is its own.
    pub fn seat(&self) -> u64
        ensures { result ≡ self.now.seat }
    {
        self.seat
    }
}

/// Begins a turn of a seat at the gate.
pub fn begin<G: Gate>(gate: &G, seat: u64, turn: u64) -> Begun
    ensures { (result.seat ≡ seat) × (result.turn ≡ turn) }
{
    gate.before(seat, turn);
    Begun { seat, turn }
}

/// Ends the turn at the gate.
pub fn end<G: Gate>(gate: &G, begun: Begun) {
    let Begun { seat, turn } = begun;
    gate.after(seat, turn);
}
