//! How a machine is set up, and why none is made.
ghost use Rattle.std.specs.Prelude.{◌≡◌};
ghost use Rattle.machine_table.specs.OpenNumbers.{number_of};
ghost use Rattle.machine_table.specs.SetUp.{is_good, is_within};

/// How a machine is set up. Times and the lease are in ticks of the cores' clocks.
#[derive(Clone, Copy, Debug, PartialEq, Eq)]
pub struct Config {
    /// 1 to 64.
    pub cores: u32,
    /// 1 to 8.
    pub banks: u32,
    /// The sets of a private cache, 1 to 1,024.
    pub sets: u32,
    /// The ways of each set, 1 to 16.
    pub ways: u32,
    /// The sets of a bank, 1 to 1,024.
    pub bank_sets: u32,
    /// The ways of each set of a bank, 1 to 16.
    pub bank_ways: u32,
    /// The words of a line: 1 or 8.
    pub line_words: u32,
    /// How long a line is leased, 1 to 4,294,967,296.
    pub lease: u64,
    /// The most messages in flight, 1 to 65,536.
    pub messages: u32,
    /// The time at which every core and every bank opens.
    pub opening_time: u64,
    /// Whether a core that wrote a line it owns may write it again without a later time.
    pub private_write: bool,
}

impl Config {
    /// Whether every value is in its range.
    pub fn is_good(&self) -> bool
        ensures { result ≡ is_good self.now }
    {
        let is_shape = is_size_in_range(self.cores, 64)
            && is_size_in_range(self.banks, 8)
            && is_size_in_range(self.messages, 65_536);
        let is_cache = is_size_in_range(self.sets, 1024) && is_size_in_range(self.ways, 16);
        let is_bank = is_size_in_range(self.bank_sets, 1024)
            && is_size_in_range(self.bank_ways, 16);
        let is_line = self.line_words == 1 || self.line_words == 8;
        is_shape && is_cache && is_bank && is_line && self.lease >= 1 && self.lease <= 4_294_967_296
    }
}

/// Why no machine was made.
#[derive(Clone, Copy, Debug, PartialEq, Eq)]
pub enum OpenError {
    /// 1: a value of the configuration is out of its range.
    BadConfig,
    /// 2: allocation failed.
    NoMemory,
}

impl OpenError {
    /// The error's number, as above.
    pub fn number(self) -> u8
        ensures { result ≡ number_of self }
    {
        match self {
            OpenError::BadConfig => 1,
            OpenError::NoMemory => 2,
        }
    }
}

/// Whether a number is 1 to the greatest.
fn is_size_in_range(number: u32, most: u32) -> bool
    ensures { result ≡ is_within number most }
{
    number >= 1 && number <= most
}
