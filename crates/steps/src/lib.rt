#![tactic(auto)]
// Steps: what the lines of a text do, what they come to, and where their bytes are stored. Definitions and laws; in code, what a load returns.
ghost use Rattle.steps.specs.Told.{IsAccepted, DiffersFrom, RefusedAt};

use reader::ReaderError;

// Why a text is not loaded.
#[derive(Clone, Copy)]
pub enum LoaderError {
    // A line gives no record.
    Line(ReaderError),
    MissingEndOfFileRecord,
    BadWindow,
    // The address of a data record's first byte outside.
    OutsideWindow(u32),
    // What a record states as the number of data records before it, and how many there are.
    CountMismatch(usize, usize),
    // A record states another start than the first that was stated.
    StartConflict,
    // A window table, its pool or its marks break a limit, or there is no such owner.
    BadTable,
}

// Where a program starts, as a text states it.
#[derive(Clone, Copy, PartialEq, Eq)]
pub enum Start {
    // The registers CS and IP.
    Segment { cs: u16, ip: u16 },
    // An address of 32 bits.
    Linear(u32),
}

// Whether both are stated and are not the same. CS with IP is never the same as a linear address.
pub fn differs_from(stated: Option<Start>, first: Option<Start>) -> bool
    ensures { DiffersFrom stated first result }
{
    stated.is_some() && first.is_some() && stated != first
}

// What an accepted load reports.
#[derive(Clone, Copy)]
pub struct Tally {
    // How many data records it met.
    pub records: usize,
    // The start that its records state, if they state one.
    pub start: Option<Start>,
}

// A refusal, and the number of the line that it is about, 0 for none.
#[derive(Clone, Copy)]
pub struct Refused {
    pub why: LoaderError,
    pub line: usize,
}

// What a load returns: its tally, or a refusal and the number of its line.
pub type Loading = Result<Tally, Refused>;

impl LoaderError {
    // The refusal at a line, 0 for none.
    pub fn at(self, line: usize) -> Refused
        ensures { RefusedAt self line result }
    {
        Refused { why: self, line }
    }
}

// Whether the text was accepted. Only then is anything written.
pub fn is_accepted(answer: Loading) -> bool
    ensures { IsAccepted answer result }
{
    answer.is_ok()
}
