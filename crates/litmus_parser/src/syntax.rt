//! What a litmus test says.

/// A register of a thread, or a location by its number.
#[derive(Clone, Copy, Debug, PartialEq, Eq)]
pub enum Name {
    /// The thread, 0 to 15, and the register, 0 to 31.
    Register(u8, u8),
    /// The location's number, 0 to 63, in the order in which locations are first named.
    Location(u8),
}

/// What the initial block sets a name to.
#[derive(Clone, Copy, Debug, PartialEq, Eq)]
pub enum Setting {
    /// A value of at most 2147483647.
    Number(u32),
    /// The address of the location of this number.
    Address(u8),
}

/// An item of the initial block, and the line in which it begins.
#[derive(Clone, Copy, Debug, PartialEq, Eq)]
pub struct Item {
    pub line: usize,
    pub name: Name,
    pub setting: Setting,
}

/// How many bits a memory instruction moves.
#[derive(Clone, Copy, Debug, PartialEq, Eq)]
pub enum Width {
    /// `lw`, `sw`, `amoswap.w`.
    Single,
    /// `ld`, `sd`, `amoswap.d`.
    Double,
}

/// An instruction, with its registers by number, and the location that its address register holds.
#[derive(Clone, Copy, Debug, PartialEq, Eq)]
pub enum Instruction {
    /// The target gets the location's value.
    Load {
        target: u8,
        location: u8,
    },
    /// The location gets the source's value.
    Store {
        source: u8,
        location: u8,
    },
    /// The location gets the source's value, and the target the location's old value.
    Swap {
        target: u8,
        source: u8,
        location: u8,
    },
    /// The target gets the value.
    Set {
        target: u8,
        value: u32,
    },
    /// Nothing.
    Fence,
}

/// An instruction and the thread that does it.
#[derive(Clone, Copy, Debug, PartialEq, Eq)]
pub struct Cell {
    pub thread: u8,
    pub instruction: Instruction,
}

/// What a condition asks of the end states.
#[derive(Clone, Copy, Debug, PartialEq, Eq)]
pub enum Quantifier {
    /// `exists`: the expression holds in some of them.
    Exists,
    /// `~exists`: it holds in none.
    NotExists,
    /// `forall`: it holds in each.
    Forall,
}

/// A condition's expression.
#[derive(Debug, Drop)]
pub enum Expr {
    /// The name has this value.
    Is(Name, u32),
    And(Box<Expr>, Box<Expr>),
    Or(Box<Expr>, Box<Expr>),
}
