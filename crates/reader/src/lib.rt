#![tactic(auto)]
// Intel HEX read: one line to a record, and a text to a row of answers.
ghost use Rattle.std.specs.Prelude.{◌≡◌, ◌+◌, ◌-◌, ◌*◌, ◌%◌, ◌<◌, ◌≤◌, true, false, length, take, drop, nat_eq, Err};
ghost use Rattle.digits.specs.Common.{pasted};
ghost use Rattle.std.specs.Prelude.{if◌then◌else◌};
ghost use Rattle.digits.specs.Digits.{all_digits};
ghost use Rattle.record.specs.Line.{size, judge_bytes, says};
ghost use Rattle.reader.specs.declared.Values.TheVariants.{Nothing};
ghost use Rattle.reader.specs.Told.{told, FiguresOf};
ghost use Rattle.reader.specs.Answer.{ReadRecord, Reads, word};
ghost use Rattle.reader.specs.Lines.{rest};
ghost use Rattle.reader.specs.Text.{FirstLine, Default, Ends, New, Next, Number, IsPoolFull, default_options, at_end};
ghost use Rattle.reader.specs.Held.{Opened, Asked};
ghost use Rattle.reader.specs.Helpers.{NoFeed, FirstFeed, LineEnd, Spotted, Settled, invalid_at, Special, Summed};

use digits::Scan;
use record::{Record, byte_counts, char_counts, chars, payload_sizes, refusals, types};

// Why a line gives no record, in the crate's order.
#[derive(Clone, Copy)]
pub enum ReaderError {
    MissingStartCode,
    RecordTooShort,
    RecordTooLong,
    RecordNotEvenLength,
    // The place of the first byte after the colon that is not a digit, the colon's being 0; 65,535 for any place beyond that.
    ContainsInvalidCharacters(u16),
    // The computed checksum, and the stated one.
    ChecksumMismatch(u8, u8),
    PayloadLengthMismatch,
    UnsupportedRecordType(u8),
    InvalidLengthForType,
    // A good data record whose payload does not fit the pool.
    PoolFull,
}

// What a refusal has beside its number: nothing, a place of the line, a byte, or two bytes.
#[derive(Clone, Copy)]
pub enum Values {
    Nothing,
    Position(u16),
    Byte(u8),
    Bytes(u8, u8),
}

// A refusal in numbers.
#[derive(Clone, Copy)]
pub struct Figures {
    pub number: u8,
    pub values: Values,
}

// What the record reader answers to a line.
pub type Answer = Result<Record, ReaderError>;

// What a text reader answers to a call; none where nothing is left.
pub type Reply = Option<Answer>;

// Which answers end a reading before the text does.
#[derive(Clone, Copy)]
pub struct ReaderOptions {
    pub stop_after_first_error: bool,
    pub stop_after_eof: bool,
}

// Where a reader stands in a text: behind `line` lines, at `position`.
#[derive(Clone, Copy)]
pub struct State {
    pub position: usize,
    pub line: usize,
    pub finished: bool,
    pub options: ReaderOptions,
}

// A reply, and where the reader stands then.
#[derive(Clone, Copy)]
pub struct Replied {
    pub reply: Reply,
    pub state: State,
}

// A line that has a byte, where the rest of its text begins, and how many empty lines stood ahead of it.
#[derive(Clone, Copy)]
struct Spot<'a> {
    line: &'a [u8],
    next: usize,
    empties: usize,
}

// The record of a type from 01 to 05, if it has its type's size: its n payload bytes are the buffer's from the fifth on.
fn special(kind: u8, buf: &[u8], n: usize) -> Answer
    requires { (0 < kind) × (kind ≤ 5) × (n ≤ 255) × (260 ≤ length buf.now) }
    ensures { Special kind (take n (drop 4 buf.now)) result }
{
    let first = u16::from_be_bytes([buf[4], buf[5]]);
    let second = u16::from_be_bytes([buf[6], buf[7]]);
    match kind {
        types::END_OF_FILE if n == payload_sizes::END_OF_FILE => Ok(Record::EndOfFile),
        types::EXTENDED_SEGMENT_ADDRESS if n == payload_sizes::EXTENDED_SEGMENT_ADDRESS => {
            Ok(Record::ExtendedSegmentAddress(first))
        }
        types::START_SEGMENT_ADDRESS if n == payload_sizes::START_SEGMENT_ADDRESS => {
            Ok(Record::StartSegmentAddress {
                cs: first,
                ip: second,
            })
        }
        types::EXTENDED_LINEAR_ADDRESS if n == payload_sizes::EXTENDED_LINEAR_ADDRESS => {
            Ok(Record::ExtendedLinearAddress(first))
        }
        types::START_LINEAR_ADDRESS if n == payload_sizes::START_LINEAR_ADDRESS => {
            Ok(Record::StartLinearAddress(u32::from_be_bytes([buf[4], buf[5], buf[6], buf[7]])))
        }
        _ => Err(ReaderError::InvalidLengthForType),
    }
}

// Copies n bytes of the buffer from its fifth into the pool.
fn pour(buf: &[u8], n: usize, pool: &mut [u8], at: usize)
    requires { (4 + n ≤ length buf.now) × (at + n ≤ length pool.old) }
    ensures { pool.new ≡ pasted pool.old at (take n (drop 4 buf.now)) }
{
    copying::copy(&buf[4..4 + n], &mut pool[at..]);
}

// A data record whose length byte is right: its payload goes into the pool, if there is room.
fn lay_down(buf: &[u8], n: usize, pool: &mut [u8], at: usize) -> Answer
    requires { (n ≤ 255) × (260 ≤ length buf.now) }
    ensures { Reads (says 0 (word buf.now 1) (take n (drop 4 buf.now))) pool.old at result pool.new }
{
    if n > pool.len() || at > pool.len() - n {
        return Err(ReaderError::PoolFull);
    }
    pour(buf, n, pool, at);
    Ok(Record::Data {
        offset: u16::from_be_bytes([buf[1], buf[2]]),
        at,
        len: n,
    })
}

// The m bytes of a line, whose sum is given, judged from refusal 6 on.
fn judge_bytes(buf: &[u8], m: usize, sum: u8, pool: &mut [u8], at: usize) -> Answer
    requires { Summed buf.now m sum }
    ensures { Reads (judge_bytes (take m buf.now)) pool.old at result pool.new }
{
    let last = m - 1;
    let n = m - byte_counts::AROUND_PAYLOAD;
    if sum != 0 {
        let stated = buf[last];
        let computed = stated.wrapping_sub(sum);
        return Err(ReaderError::ChecksumMismatch(computed, stated));
    }
    if usize::from(buf[0]) != n {
        return Err(ReaderError::PayloadLengthMismatch);
    }
    match buf[3] {
        types::DATA => lay_down(buf, n, pool, at),
        kind @ types::END_OF_FILE..=types::START_LINEAR_ADDRESS => special(kind, buf, n),
        kind => Err(ReaderError::UnsupportedRecordType(kind)),
    }
}

// The given refusal, unless a byte after the colon is not a digit.
fn digits_or(line: &[u8], e: ReaderError) -> ReaderError
    requires { 0 < length line.now }
    ensures { result ≡ (if all_digits (drop 1 line.now) then e else invalid_at line.now) }
{
    let good = digits::first_other(&line[1..]);
    if good < line.len() - 1 {
        return ReaderError::ContainsInvalidCharacters(digits::name_place(good + 1));
    }
    e
}

// One line, with a buffer lent.
fn read_with(buf: &mut [u8], line: &[u8], pool: &mut [u8], at: usize) -> Answer
    requires { 260 ≤ length buf.old }
    ensures { ReadRecord line.now pool.old at result pool.new }
{
    if line.is_empty() || line[0] != chars::COLON {
        return Err(ReaderError::MissingStartCode);
    }
    let n = line.len() - 1;
    if n < char_counts::FEWEST_DIGITS {
        return Err(digits_or(line, ReaderError::RecordTooShort));
    }
    if n > char_counts::MOST_DIGITS {
        return Err(digits_or(line, ReaderError::RecordTooLong));
    }
    if n % 2 != 0 {
        return Err(digits_or(line, ReaderError::RecordNotEvenLength));
    }
    let Scan { whole, sum } = digits::decode(&line[1..], buf);
    if !whole {
        let good = digits::first_other(&line[1..]);
        return Err(ReaderError::ContainsInvalidCharacters(digits::name_place(good + 1)));
    }
    judge_bytes(buf, n / 2, sum, pool, at)
}

// One line to a record or a refusal. The payload of a data record goes into the pool at a position.
// Pool and position are two parameters here and above: the whole pool is lent with each call, and one position can serve many.
pub fn read_record(line: &[u8], pool: &mut [u8], at: usize) -> Answer
    ensures { ReadRecord line.now pool.old at result pool.new }
{
    let mut buf = [0u8; byte_counts::MOST];
    read_with(&mut buf, line, pool, at)
}

// False only where no LF is among the sixteen bytes from a place on. There is no exit on the way, so that they can be tested at once.
fn feed_among(text: &[u8], from: usize) -> bool
    requires { from + 16 ≤ length text.now }
    ensures { result ≡ false → NoFeed text.now from (from + 16) }
{
    let mut seen = false;
    for k in 0..16 {
        seen |= text[from + k] == chars::LF;
    }
    seen
}

// The place of the first LF from a place on ahead of which there is none, or the text's length.
fn feed_from(text: &[u8], from: usize) -> usize
    requires { (from ≤ length text.now) × NoFeed text.now 0 from }
    ensures { FirstFeed text.now result }
{
    for i in from..text.len() {
        if text[i] == chars::LF {
            return i;
        }
    }
    text.len()
}

// The place of the first LF, or the text's length where there is none.
fn line_feed(text: &[u8]) -> usize
    ensures { FirstFeed text.now result }
{
    let mut i = 0;
    // A while: each turn passes sixteen bytes.
    while text.len() - i >= 16 {
        if feed_among(text, i) {
            return feed_from(text, i);
        }
        i += 16;
    }
    feed_from(text, i)
}

// How many bytes the first line has, whose LF stands at `feed`: one CR directly before the LF is none of them.
fn line_len(text: &[u8], feed: usize) -> usize
    requires { FirstFeed text.now feed }
    ensures { LineEnd text.now result }
{
    if 0 < feed && feed < text.len() && text[feed - 1] == chars::CR {
        return feed - 1;
    }
    feed
}

// Where the rest of a text begins whose first LF stands at `feed`.
fn behind_feed(text: &[u8], feed: usize) -> usize
    requires { FirstFeed text.now feed }
    ensures { result ≡ length text.now - length (rest text.now) }
{
    if feed < text.len() { feed + 1 } else { feed }
}

// The first line of a text, as a part of it without its line end, and where the rest begins.
pub fn first_line<'a>(text: &'a [u8], behind: &mut usize) -> &'a [u8]
    ensures { FirstLine text.entry result behind.new }
{
    let feed = line_feed(text);
    *behind = behind_feed(text, feed);
    let n = line_len(text, feed);
    &text[..n]
}

// The next line from a position on that has a byte.
fn find_line(text: &[u8], position: usize) -> Option<Spot>
    ensures { Spotted text.now position result }
{
    let mut from = position;
    let mut empties = 0;
    // A while: each turn passes a whole line.
    while from < text.len() {
        let mut n = 0;
        let line = first_line(&text[from..], &mut n);
        from += n;
        if !line.is_empty() {
            return Some(Spot {
                line,
                next: from,
                empties,
            });
        }
        empties += 1;
    }
    None
}

// A refusal that has no value.
fn bare(number: u8) -> Figures
    ensures { result ≡ record { number = number; values = Nothing } }
{
    Figures {
        number,
        values: Values::Nothing,
    }
}

impl ReaderError {
    // The refusal's number and values.
    pub fn figures(self) -> Figures
        ensures { FiguresOf self result }
    {
        match self {
            ReaderError::MissingStartCode => bare(refusals::MISSING_START_CODE),
            ReaderError::ContainsInvalidCharacters(place) => Figures {
                number: refusals::CONTAINS_INVALID_CHARACTERS,
                values: Values::Position(place),
            },
            ReaderError::RecordTooShort => bare(refusals::RECORD_TOO_SHORT),
            ReaderError::RecordTooLong => bare(refusals::RECORD_TOO_LONG),
            ReaderError::RecordNotEvenLength => bare(refusals::RECORD_NOT_EVEN_LENGTH),
            ReaderError::ChecksumMismatch(computed, stated) => Figures {
                number: refusals::CHECKSUM_MISMATCH,
                values: Values::Bytes(computed, stated),
            },
            ReaderError::PayloadLengthMismatch => bare(refusals::PAYLOAD_LENGTH_MISMATCH),
            ReaderError::UnsupportedRecordType(kind) => Figures {
                number: refusals::UNSUPPORTED_RECORD_TYPE,
                values: Values::Byte(kind),
            },
            ReaderError::InvalidLengthForType => bare(refusals::INVALID_LENGTH_FOR_TYPE),
            ReaderError::PoolFull => bare(refusals::POOL_FULL),
        }
    }

    // The refusal's number.
    pub fn number(self) -> u8
        ensures { Number self result }
    {
        self.figures().number
    }

    // Whether it is PoolFull, the only refusal that does not use its line up.
    pub fn is_pool_full(self) -> bool
        ensures { IsPoolFull self result }
    {
        matches!(self, ReaderError::PoolFull)
    }
}

impl Default for ReaderOptions {
    // Both stops are on.
    fn default() -> ReaderOptions
        ensures { Default result }
    {
        ReaderOptions {
            stop_after_first_error: true,
            stop_after_eof: true,
        }
    }
}

impl ReaderOptions {
    // Whether a record is the last that is read.
    #[tactic(auto, unfolding(crate::specs::Text::ends_row))]
    pub fn ends(self, given: Record) -> bool
        ensures { Ends self given result }
    {
        matches!(given, Record::EndOfFile) && self.stop_after_eof
    }
}

// The reply to a line that was answered, and the state behind it; PoolFull does not use the line up.
fn settle(s: State, answer: Answer, position: usize, line: usize) -> Replied
    ensures { Settled s (told answer) position line result }
{
    match answer {
        Ok(given) => Replied {
            reply: Some(Ok(given)),
            state: State {
                position,
                line,
                finished: s.options.ends(given),
                ..s
            },
        },
        Err(e) if e.is_pool_full() => Replied {
            reply: Some(Err(e)),
            state: s,
        },
        Err(e) => Replied {
            reply: Some(Err(e)),
            state: State {
                position,
                line,
                finished: s.options.stop_after_first_error,
                ..s
            },
        },
    }
}

impl State {
    // At the beginning of any text, with both stops on.
    pub fn new() -> State
        ensures { New default_options result }
    {
        State::new_with_options(ReaderOptions::default())
    }

    // At the beginning of any text.
    pub fn new_with_options(options: ReaderOptions) -> State
        ensures { New options result }
    {
        State {
            position: 0,
            line: 0,
            finished: false,
            options,
        }
    }

    // The state in which only "done" is answered.
    fn at_end(self) -> State
        ensures { result ≡ at_end self }
    {
        State {
            finished: true,
            ..self
        }
    }

    // The next answer of a text. The payload of a data record goes into the pool at a position.
    pub fn next(self, text: &[u8], pool: &mut [u8], at: usize) -> Replied
        ensures { Next self text.now pool.old at result pool.new }
    {
        if self.finished {
            return Replied {
                reply: None,
                state: self,
            };
        }
        let Some(spot) = find_line(text, self.position) else {
            return Replied {
                reply: None,
                state: self.at_end(),
            };
        };
        let line = self.line.wrapping_add(spot.empties + 1);
        let answer = read_record(spot.line, pool, at);
        settle(self, answer, spot.next, line)
    }
}

// A reader that holds its text: the text and where the reading stands.
#[derive(Drop)]
pub struct Reader<'a> {
    pub text: &'a [u8],
    pub state: State,
}

impl<'a> Reader<'a> {
    // At the beginning of the text, with both stops on.
    pub fn new(text: &'a [u8]) -> Reader<'a>
        ensures { Opened text.entry default_options result }
    {
        Reader::new_with_options(text, ReaderOptions::default())
    }

    // At the beginning of the text.
    pub fn new_with_options(text: &'a [u8], options: ReaderOptions) -> Reader<'a>
        ensures { Opened text.entry options result }
    {
        Reader {
            text,
            state: State::new_with_options(options),
        }
    }

    // The next answer of the text. The payload of a data record goes into the pool at a position.
    pub fn next(&mut self, pool: &mut [u8], at: usize) -> Reply
        ensures { Asked self.old pool.old at result self.new pool.new }
    {
        let step = self.state.next(self.text, pool, at);
        self.state = step.state;
        step.reply
    }
}
