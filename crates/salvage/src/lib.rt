#![tactic(auto)]
// A noisy capture of Intel HEX saved: a clean file of the records that can be relied on, and a list of the lines that were dropped.
ghost use Rattle.std.specs.Prelude.{◌≡◌, true, ◌+◌, ◌*◌, ◌≤◌, length};
ghost use Rattle.digits.specs.Common.{pasted};
ghost use Rattle.reader.specs.Told.{refusal_of};
ghost use Rattle.reader.specs.Text.{new_state};
ghost use Rattle.intel.specs.Records.{Short};
ghost use Rattle.salvage.specs.Salvage.{past_refusals, refused};
ghost use Rattle.salvage.specs.Told.{Salvages};
ghost use Rattle.salvage.specs.Helpers.{Tells, SortsRecord, UnderWay, SortsNext, less, WithLine, WithEntry, LineLength, Surveyed, PutLine, PutEntry, Fits, WroteAll};

use reader::{ReaderError, ReaderOptions, State, Values};
use record::{Record, char_counts, payload_sizes, refusals};

// How many bytes an entry of the list has.
const ENTRY: usize = 16;

// How many bytes each number of an entry has: why, each of its two values, the line.
const WHY: usize = 4;

const VALUE: usize = 2;

const LINE: usize = 8;

// Why a line is dropped that is a data record: the base is not known.
const BASE_UNKNOWN: u8 = 0;

// Why nothing is saved.
#[derive(Clone, Copy)]
pub enum SalvageError {
    OutputFull,
    ListFull,
}

// What was saved: the length of the clean file, and how many entries the list has.
#[derive(Clone, Copy)]
pub struct Saved {
    pub length: usize,
    pub entries: usize,
}

// What a salvage returns.
pub type Salvaged = Result<Saved, SalvageError>;

// A dropped line: its number, the number of the reason, and its values, 0 where there is none.
#[derive(Clone, Copy)]
struct Entry {
    line: usize,
    why: u8,
    a: u16,
    b: u16,
}

// The entry of an added end record.
const END_ADDED: Entry = Entry {
    line: 0,
    why: refusals::MISSING_END_OF_FILE_RECORD,
    a: 0,
    b: 0,
};

// Where a pass stands in a text, and whether the base in force there is known.
#[derive(Clone, Copy)]
struct Walk {
    state: State,
    known: bool,
}

// What the next line comes to.
#[derive(Clone, Copy)]
enum Turn {
    // Its record is saved, and the walk goes on.
    Keeps(Record, Walk),
    // It is dropped, and the walk goes on.
    Drops(Entry, Walk),
    // It is the end record.
    Ends,
    // There is none: the text has no end record.
    Missing,
}

// What is left of the output and of the places of the list; none of what was too little.
#[derive(Clone, Copy)]
struct Spare {
    space: Option<usize>,
    places: Option<usize>,
}

// What is left when so much more is taken.
fn without(left: Option<usize>, taken: usize) -> Option<usize>
    ensures { result ≡ less left taken }
{
    left?.checked_sub(taken)
}

impl Spare {
    // With a line of so many characters and its LF.
    fn with_line(self, n: usize) -> Spare
        ensures { WithLine self n result }
    {
        Spare {
            space: without(without(self.space, n), 1),
            ..self
        }
    }

    // With an entry.
    fn with_entry(self) -> Spare
        ensures { WithEntry self result }
    {
        Spare {
            places: without(self.places, 1),
            ..self
        }
    }
}

// How many characters the line of a record has.
fn line_length(given: Record) -> usize
    requires { Short given }
    ensures { LineLength given result }
{
    match given {
        Record::Data { len, .. } => char_counts::NO_PAYLOAD + 2 * len,
        Record::EndOfFile => char_counts::NO_PAYLOAD,
        Record::ExtendedSegmentAddress(_) | Record::ExtendedLinearAddress(_) => {
            char_counts::TWO_BYTES
        }
        Record::StartSegmentAddress { .. } | Record::StartLinearAddress(_) => {
            char_counts::FOUR_BYTES
        }
    }
}

// The entry of a refused line.
fn entry_of(e: ReaderError, line: usize) -> Entry
    ensures { Tells result line (refused (refusal_of e)) }
{
    let figures = e.figures();
    let (a, b) = match figures.values {
        Values::Nothing => (0, 0),
        Values::Position(place) => (place, 0),
        Values::Byte(byte) => (u16::from(byte), 0),
        Values::Bytes(first, second) => (u16::from(first), u16::from(second)),
    };
    Entry {
        line,
        why: figures.number,
        a,
        b,
    }
}

// What a record comes to. The walk stands after its line.
fn sort_record(state: State, known: bool, given: Record) -> Turn
    ensures { SortsRecord state known given result }
{
    match given {
        Record::Data { .. } => {
            let next = Walk { state, known };
            if known {
                Turn::Keeps(given, next)
            } else {
                Turn::Drops(
                    Entry {
                        line: state.line,
                        why: BASE_UNKNOWN,
                        a: 0,
                        b: 0,
                    },
                    next,
                )
            }
        }
        Record::EndOfFile => Turn::Ends,
        Record::ExtendedSegmentAddress(_) | Record::ExtendedLinearAddress(_) => {
            Turn::Keeps(given, Walk { state, known: true })
        }
        Record::StartSegmentAddress { .. } | Record::StartLinearAddress(_) => {
            Turn::Keeps(given, Walk { state, known })
        }
    }
}

// What the next line comes to.
fn sort_next(text: &[u8], pool: &mut [u8], w: Walk) -> Turn
    requires { UnderWay text.now w × (length pool.old ≡ 255) }
    ensures { SortsNext text.now w pool.new result }
{
    let step = w.state.next(text, pool, 0);
    let Some(answer) = step.reply else {
        return Turn::Missing;
    };
    match answer {
        Ok(given) => sort_record(step.state, w.known, given),
        Err(e) => Turn::Drops(
            entry_of(e, step.state.line),
            Walk {
                state: step.state,
                known: false,
            },
        ),
    }
}

// At the beginning of a text, where the base is known. Reading goes on past refused lines and ends at the first end record.
fn begin() -> Walk
    ensures { result ≡ record { state = new_state past_refusals; known = true } }
{
    Walk {
        state: State::new_with_options(ReaderOptions {
            stop_after_first_error: false,
            stop_after_eof: true,
        }),
        known: true,
    }
}

// The first pass: what a salvage leaves of an output of this length and of so many places. Nothing is written.
// A loop: each turn takes a whole line, so there is no index to count. No iterator walks the lines for both passes, since a record lies in the pool that the next turn overwrites.
fn survey(text: &[u8], space: usize, places: usize) -> Spare
    ensures { Surveyed text.now space places result }
{
    let mut pool = [0u8; payload_sizes::MOST_DATA];
    let mut w = begin();
    let mut spare = Spare {
        space: Some(space),
        places: Some(places),
    };
    loop {
        match sort_next(text, &mut pool, w) {
            Turn::Keeps(given, next) => {
                spare = spare.with_line(line_length(given));
                w = next;
            }
            Turn::Drops(_, next) => {
                spare = spare.with_entry();
                w = next;
            }
            Turn::Ends => return spare.with_line(char_counts::NO_PAYLOAD),
            Turn::Missing => {
                return spare.with_line(char_counts::NO_PAYLOAD).with_entry();
            }
        }
    }
}

// Bytes put into the list, from a place on.
fn put_bytes(bytes: &[u8], list: &mut [u8], at: usize)
    requires { at + length bytes.now ≤ length list.old }
    ensures { list.new ≡ pasted list.old at bytes.now }
{
    copying::copy(bytes, &mut list[at..]);
}

// An entry at its place of the list.
fn put_entry(e: Entry, list: &mut [u8], place: usize)
    requires { 16 * place + 16 ≤ length list.old }
    ensures { PutEntry e list.old place list.new }
{
    let at = ENTRY * place;
    put_bytes(&u32::from(e.why).to_le_bytes(), list, at);
    put_bytes(&e.a.to_le_bytes(), list, at + WHY);
    put_bytes(&e.b.to_le_bytes(), list, at + WHY + VALUE);
    put_bytes(
        &(e.line as u64).to_le_bytes(),
        list,
        at + WHY + VALUE + VALUE,
    );
}

// The line of a record and its LF, and the place after them.
fn put_line(given: Record, pool: &[u8], out: &mut [u8], at: usize) -> usize
    ensures { PutLine given pool.now out.old at result out.new }
{
    writer::write_step(given, pool, out, at).unwrap_or(at)
}

// The second pass: the clean file and the list, where both fit.
fn write_all(text: &[u8], out: &mut [u8], list: &mut [u8])
    requires { Fits text.now out.old list.old }
    ensures { WroteAll text.now out.old list.old out.new list.new }
{
    let mut pool = [0u8; payload_sizes::MOST_DATA];
    let mut w = begin();
    let mut at = 0;
    let mut place = 0;
    loop {
        match sort_next(text, &mut pool, w) {
            Turn::Keeps(given, next) => {
                at = put_line(given, &pool, out, at);
                w = next;
            }
            Turn::Drops(e, next) => {
                put_entry(e, list, place);
                place += 1;
                w = next;
            }
            Turn::Ends => {
                put_line(Record::EndOfFile, &pool, out, at);
                return;
            }
            Turn::Missing => {
                put_line(Record::EndOfFile, &pool, out, at);
                put_entry(END_ADDED, list, place);
                return;
            }
        }
    }
}

// Saves what can be saved of a text: the clean file goes into the output, and what was dropped into the list, 16 bytes an entry.
pub fn salvage(text: &[u8], out: &mut [u8], list: &mut [u8]) -> Salvaged
    ensures { Salvages text.now out.old list.old result out.new list.new }
{
    let places = list.len() / ENTRY;
    let spare = survey(text, out.len(), places);
    let Some(space) = spare.space else {
        return Err(SalvageError::OutputFull);
    };
    let Some(left) = spare.places else {
        return Err(SalvageError::ListFull);
    };
    write_all(text, out, list);
    Ok(Saved {
        length: out.len() - space,
        entries: places - left,
    })
}
