#![tactic(auto)]
// One byte of a text of Intel HEX, asked without a page: the text is read once, record by record.
ghost use Rattle.std.specs.Prelude.{◌≡◌, ◌*◌, length};
ghost use Rattle.intel.specs.Placing.{from_segment, from_linear};
ghost use Rattle.intel.specs.Records.{LiesIn, UnderWay};
ghost use Rattle.query.specs.Ask.{Ask};
ghost use Rattle.query.specs.Helpers.{Aims, IndexOf, Noted, Begun, MeetsStart, Meets, Judged};

use reader::State;
use record::{Record, payload_sizes};
use std::ops::ControlFlow::{self, Break, Continue};
use steps::{LoaderError, Refused, Start};

// How many addresses a segment has.
const SEGMENT: u32 = 65536;

// What comes back: the byte that the text states last at the address, if it states one, or a refusal and the number of its line.
pub type Asked = Result<Option<u8>, Refused>;

// The address that is asked, as seen from the base in force: how far it lies after the base, modulo 2^32.
#[derive(Clone, Copy)]
enum Aim {
    Segment(u32),
    Linear(u32),
}

// Where the reading stands in the text, and what is known there.
#[derive(Clone, Copy)]
struct Walk {
    state: State,
    aim: Aim,
    start: Option<Start>,
    // The byte that the records so far state last at the address, if one of them does.
    found: Option<u8>,
}

// What a line comes to: the walk after it, or the answer.
type Turn = ControlFlow<Asked, Walk>;

impl Aim {
    // The address from a segment's base: 16 times the number of a type 02.
    fn from_segment(address: u32, number: u16) -> Aim
        ensures { Aims (from_segment (16 * number)) address result }
    {
        Aim::Segment(address.wrapping_sub(16 * u32::from(number)))
    }

    // The address from a linear base: 65,536 times the number of a type 04.
    fn from_linear(address: u32, number: u16) -> Aim
        ensures { Aims (from_linear (65536 * number)) address result }
    {
        Aim::Linear(address.wrapping_sub(65536 * u32::from(number)))
    }

    // Which byte of a data record lies at the address, if a record can have one there: Intel's two sums, solved for i.
    fn index_of(self, offset: u16) -> Option<usize>
        ensures { IndexOf self offset result }
    {
        let first = u32::from(offset);
        match self {
            Aim::Linear(distance) => Some(distance.wrapping_sub(first) as usize),
            Aim::Segment(distance) if distance < SEGMENT => {
                Some((distance.wrapping_sub(first) % SEGMENT) as usize)
            }
            Aim::Segment(_) => None,
        }
    }
}

// The byte that is known after a data record whose payload lies in the pool: the record's, if it states the address, and else the one from before.
fn note(pool: &[u8], offset: u16, at: usize, len: usize, aim: Aim, found: Option<u8>) -> Option<u8>
    requires { LiesIn (Record.Data offset at len) pool.now }
    ensures { Noted pool.now offset at len aim found result }
{
    match aim.index_of(offset) {
        Some(i) if i < len => Some(pool[at + i]),
        _ => found,
    }
}

// What a start comes to: it is kept if it is the first or the same again, and else it is refused.
fn judge_start(w: Walk, stated: Option<Start>) -> Turn
    ensures { MeetsStart w stated result }
{
    if steps::differs_from(stated, w.start) {
        return Break(Err(LoaderError::StartConflict.at(w.state.line)));
    }
    Continue(Walk { start: stated, ..w })
}

// What a record comes to. The walk stands after the record's line, and knows what was known before it.
fn judge_record(address: u32, pool: &[u8], w: Walk, given: Record) -> Turn
    requires { LiesIn given pool.now }
    ensures { Meets address pool.now w given result }
{
    match given {
        Record::Data { offset, at, len } => Continue(Walk {
            found: note(pool, offset, at, len, w.aim, w.found),
            ..w
        }),
        Record::EndOfFile => Break(Ok(w.found)),
        Record::ExtendedSegmentAddress(number) => Continue(Walk {
            aim: Aim::from_segment(address, number),
            ..w
        }),
        Record::StartSegmentAddress { cs, ip } => judge_start(w, Some(Start::Segment { cs, ip })),
        Record::ExtendedLinearAddress(number) => Continue(Walk {
            aim: Aim::from_linear(address, number),
            ..w
        }),
        Record::StartLinearAddress(number) => judge_start(w, Some(Start::Linear(number))),
    }
}

// What the next line comes to.
fn judge_next(text: &[u8], pool: &mut [u8], address: u32, w: Walk) -> Turn
    requires { UnderWay text.now w.state × (length pool.old ≡ 255) }
    ensures { Judged address text.now w result }
{
    let step = w.state.next(text, pool, 0);
    let after = step.state;
    match step.reply {
        Some(Ok(given)) => judge_record(address, pool, Walk { state: after, ..w }, given),
        Some(Err(e)) => Break(Err(LoaderError::Line(e).at(after.line))),
        None => Break(Err(LoaderError::MissingEndOfFileRecord.at(0))),
    }
}

// At the beginning of a text: segment 0, no start, and no byte.
fn begin(address: u32) -> Walk
    ensures { Begun address result }
{
    Walk {
        state: State::new(),
        aim: Aim::from_segment(address, 0),
        start: None,
        found: None,
    }
}

// The byte that the last data record before the end record states at an address, whether none does, or why the text is refused.
pub fn ask(text: &[u8], address: u32) -> Asked
    ensures { Ask text.now address result }
{
    let mut pool = [0u8; payload_sizes::MOST_DATA];
    let mut w = begin(address);
    // A loop: each turn reads a line, so there is no index to count.
    loop {
        match judge_next(text, &mut pool, address, w) {
            Continue(next) => w = next,
            Break(answer) => return answer,
        }
    }
}
