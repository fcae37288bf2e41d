#![tactic(auto)]
// Motorola S-records: one line to a record, and one record to a line.
ghost use Rattle.std.specs.Prelude.{◌≡◌, ◌+◌, ◌-◌, ◌*◌, ◌<◌, ◌≤◌, true, length, take, drop, nat_lt, Err};
ghost use Rattle.digits.specs.Common.{pasted};
ghost use Rattle.std.specs.Prelude.{if◌then◌else◌};
ghost use Rattle.digits.specs.Digits.{all_digits};
ghost use Rattle.record.specs.Line.{says};
ghost use Rattle.reader.specs.Helpers.{invalid_at};
ghost use Rattle.writer.specs.Text.{place_behind};
ghost use Rattle.srec.specs.Types.{width, holds_data, fits};
ghost use Rattle.srec.specs.Line.{judge_bytes};
ghost use Rattle.srec.specs.Record.{digit_of, TypeOf, DigitOf};
ghost use Rattle.srec.specs.Answer.{Reads, ReadSRecord};
ghost use Rattle.srec.specs.Written.{beyond, written};
ghost use Rattle.srec.specs.Writer.{told_swritten, line, line_text, ToSRecordString};
ghost use Rattle.srec.specs.Helpers.{Addressed, Summed, Starting, Row, Fitting, Ready};

use reader::ReaderError;

// The digit that says a record's type in its line.
pub mod types {
    pub const S0: u8 = 0;

    pub const S1: u8 = 1;

    pub const S2: u8 = 2;

    pub const S3: u8 = 3;

    pub const S5: u8 = 5;

    pub const S7: u8 = 7;

    pub const S8: u8 = 8;

    pub const S9: u8 = 9;

    // The two below S9 that no type has.
    pub const NOT_S4: u8 = 4;

    pub const NOT_S6: u8 = 6;

    // Headers and data have a digit below this one.
    pub const FIRST_WITHOUT_DATA: u8 = 4;
}

// The character that a line starts with.
pub mod chars {
    pub const START: u8 = b'S';
}

// How many bytes an address has.
pub mod address_sizes {
    // S0, S1, S5 and S9.
    pub const TWO: usize = 2;

    // S2 and S8.
    pub const THREE: usize = 3;

    // S3 and S7.
    pub const FOUR: usize = 4;
}

// The first number that so many bytes cannot hold.
pub mod address_limits {
    pub const ONE: u32 = 256;

    pub const TWO: u32 = 65536;

    pub const THREE: u32 = 16777216;
}

// How many bytes a line spells after its type.
pub mod byte_counts {
    pub const MOST: usize = 256;

    // Address and data: the count, a byte, covers them and the checksum.
    pub const MOST_COUNTED: usize = 254;
}

// How many characters a line has.
pub mod char_counts {
    // The most digits after the type.
    pub const MOST_DIGITS: usize = 512;

    // The digits of count and checksum.
    pub const COUNT_AND_CHECKSUM: usize = 4;

    // The S, the type and the count.
    pub const BEFORE_ADDRESS: usize = 4;

    // The S, the type, the count and the checksum.
    pub const WITHOUT_ADDRESS: usize = 6;
}

// What the bytes of a line sum to, in the low byte, where the checksum is right.
pub const GOOD_SUM: u8 = 255;

// The types that the format names, each with its digit.
#[derive(Clone, Copy)]
pub enum SType {
    // A header.
    S0 = 0,
    // Data at an address of 2, 3 or 4 bytes.
    S1 = 1,
    S2 = 2,
    S3 = 3,
    // How many data records came so far.
    S5 = 5,
    // The end, with a start address of 4, 3 or 2 bytes.
    S7 = 7,
    S8 = 8,
    S9 = 9,
}

// A record: its type, its address, and its data, `len` bytes that lie in a lent pool from `at` on. For S5 the address is the count.
#[derive(Clone, Copy)]
pub struct SRecord {
    pub kind: SType,
    pub address: u32,
    pub at: usize,
    pub len: usize,
}

// What the record reader answers to a line.
pub type SAnswer = Result<SRecord, ReaderError>;

// The type that a digit names, if it names one.
#[tactic(auto, unfolding(crate::specs::Types::is_named))]
pub fn type_of(digit: u8) -> Option<SType>
    ensures { TypeOf digit result }
{
    match digit {
        types::S0 => Some(SType::S0),
        types::S1 => Some(SType::S1),
        types::S2 => Some(SType::S2),
        types::S3 => Some(SType::S3),
        types::S5 => Some(SType::S5),
        types::S7 => Some(SType::S7),
        types::S8 => Some(SType::S8),
        types::S9 => Some(SType::S9),
        _ => None,
    }
}

impl SType {
    // The digit that names the type.
    pub fn digit(self) -> u8
        ensures { DigitOf self result }
    {
        self as u8
    }

    // How many bytes the address has.
    #[tactic(auto, unfolding(crate::specs::Types::width))]
    fn width(self) -> usize
        ensures { (result ≡ width (digit_of self)) × (2 ≤ result) × (result ≤ 4) }
    {
        match self {
            SType::S3 | SType::S7 => address_sizes::FOUR,
            SType::S2 | SType::S8 => address_sizes::THREE,
            _ => address_sizes::TWO,
        }
    }

    // Whether records of the type hold data.
    fn holds_data(self) -> bool
        ensures { result ≡ holds_data (digit_of self) }
    {
        self.digit() < types::FIRST_WITHOUT_DATA
    }

    // Whether a record of the type may have so much data.
    fn may_hold(self, len: usize) -> bool
        ensures { result ≡ fits (digit_of self) len }
    {
        self.holds_data() || len == 0
    }
}

// The address: the buffer's bytes from the second on, as many as are asked for, high byte first.
fn address_of(w: usize, buf: &[u8]) -> u32
    requires { (2 ≤ w) × (w ≤ 4) × (5 ≤ length buf.now) }
    ensures { Addressed w buf.now result }
{
    match w {
        address_sizes::TWO => u32::from_be_bytes([0, 0, buf[1], buf[2]]),
        address_sizes::THREE => u32::from_be_bytes([0, buf[1], buf[2], buf[3]]),
        _ => u32::from_be_bytes([buf[1], buf[2], buf[3], buf[4]]),
    }
}

// Copies data into the pool, from a place on.
fn pour(payload: &[u8], pool: &mut [u8], at: usize)
    requires { at + length payload.now ≤ length pool.old }
    ensures { pool.new ≡ pasted pool.old at payload.now }
{
    copying::copy(payload, &mut pool[at..]);
}

// A header or a data record whose count is right: its data goes into the pool, if there is room.
fn lay_down(kind: SType, address: u32, payload: &[u8], pool: &mut [u8], at: usize) -> SAnswer
    requires { digit_of kind < 4 }
    ensures { Reads (says (digit_of kind) address payload.now) pool.old at result pool.new }
{
    let len = payload.len();
    if len > pool.len() || at > pool.len() - len {
        return Err(ReaderError::PoolFull);
    }
    pour(payload, pool, at);
    Ok(SRecord {
        kind,
        address,
        at,
        len,
    })
}

// The m bytes after a type's digit, whose sum is given, judged from refusal 6 on.
fn judge_bytes(kind: SType, buf: &[u8], m: usize, sum: u8, pool: &mut [u8], at: usize) -> SAnswer
    requires { Summed (digit_of kind) buf.now m sum }
    ensures { Reads (judge_bytes (digit_of kind) (take m buf.now)) pool.old at result pool.new }
{
    let w = kind.width();
    let last = m - 1;
    let payload = &buf[1 + w..last];
    if sum != GOOD_SUM {
        let stated = buf[last];
        let computed = GOOD_SUM - sum.wrapping_sub(stated);
        return Err(ReaderError::ChecksumMismatch(computed, stated));
    }
    if usize::from(buf[0]) != last {
        return Err(ReaderError::PayloadLengthMismatch);
    }
    let address = address_of(w, buf);
    if kind.holds_data() {
        return lay_down(kind, address, payload, pool, at);
    }
    if payload.len() != 0 {
        return Err(ReaderError::InvalidLengthForType);
    }
    Ok(SRecord {
        kind,
        address,
        at: 0,
        len: 0,
    })
}

// The given refusal, unless a byte after the S is not a digit.
fn digits_or(line: &[u8], e: ReaderError) -> SAnswer
    requires { 0 < length line.now }
    ensures { result ≡ (if all_digits (drop 1 line.now) then Err e else Err (invalid_at line.now)) }
{
    let good = digits::first_other(&line[1..]);
    if good < line.len() - 1 {
        return Err(ReaderError::ContainsInvalidCharacters(digits::name_place(good + 1)));
    }
    Err(e)
}

// A line of a type, with a buffer lent.
fn read_typed(kind: SType, buf: &mut [u8], line: &[u8], pool: &mut [u8], at: usize) -> SAnswer
    requires { Starting (digit_of kind) buf.old line.now }
    ensures { ReadSRecord line.now pool.old at result pool.new }
{
    let n = line.len() - 2;
    if n < char_counts::COUNT_AND_CHECKSUM + 2 * kind.width() {
        return digits_or(line, ReaderError::RecordTooShort);
    }
    if n > char_counts::MOST_DIGITS {
        return digits_or(line, ReaderError::RecordTooLong);
    }
    if n % 2 != 0 {
        return digits_or(line, ReaderError::RecordNotEvenLength);
    }
    let scan = digits::decode(&line[2..], buf);
    if !scan.whole {
        let good = digits::first_other(&line[1..]);
        return Err(ReaderError::ContainsInvalidCharacters(digits::name_place(good + 1)));
    }
    judge_bytes(kind, buf, n / 2, scan.sum, pool, at)
}

// One line to a record or a refusal. The data of a header or a data record goes into the pool at a position; position and length of any other
// record are 0.
pub fn read_srecord(line: &[u8], pool: &mut [u8], at: usize) -> SAnswer
    ensures { ReadSRecord line.now pool.old at result pool.new }
{
    let mut buf = [0u8; byte_counts::MOST];
    match line {
        [chars::START] => Err(ReaderError::RecordTooShort),
        [chars::START, c, ..] => {
            let digit = digits::digit_value(*c);
            match type_of(digit) {
                Some(kind) => read_typed(kind, &mut buf, line, pool, at),
                None => digits_or(line, ReaderError::UnsupportedRecordType(digit)),
            }
        }
        _ => Err(ReaderError::MissingStartCode),
    }
}

// Why a record is not written.
#[derive(Clone, Copy)]
pub enum SWriterError {
    // The data does not lie in the pool.
    PayloadOutsidePool,
    // Data in an S5 or an end.
    InvalidLengthForType,
    // More data than the count can cover, 252, 251 or 250 bytes by the address's size; and its length.
    DataExceedsMaximumLength(usize),
    // An address beyond its type's bytes.
    AddressTooWide,
    OutputFull,
}

// What the record writer answers: the length of what was written, or why nothing was.
pub type SWritten = Result<usize, SWriterError>;

// Whether an address is no larger than w bytes, 2 to 4, can hold.
#[tactic(auto, unfolding(crate::specs::Written::beyond))]
fn fits_in(w: usize, address: u32) -> bool
    ensures { result ≡ nat_lt address (beyond w) }
{
    match w {
        address_sizes::TWO => address < address_limits::TWO,
        address_sizes::THREE => address < address_limits::THREE,
        _ => true,
    }
}

// The digits of bytes at a place where they fit, and the sum of a sum before and of the bytes.
fn put(bytes: &[u8], sum: u8, out: &mut [u8], at: usize) -> u8
    requires { at + 2 * length bytes.now ≤ length out.old }
    ensures { Row bytes.now sum out.old at result out.new }
{
    digits::spell(bytes, sum, &mut out[at..])
}

// A line, whole, from the output's start on.
fn put_line(kind: SType, address: u32, payload: &[u8], out: &mut [u8])
    requires { Fitting (digit_of kind) payload.now out.old }
    ensures { out.new ≡ pasted out.old 0 (written (digit_of kind) address payload.now) }
{
    let n = payload.len();
    let w = kind.width();
    let bytes = address.to_be_bytes();
    let skip = address_sizes::FOUR - w;
    let count = [(w + n + 1) as u8];
    out[0] = chars::START;
    out[1] = b'0' + kind.digit();
    let first = put(&count, 0, out, 2);
    let second = put(&bytes[skip..], first, out, char_counts::BEFORE_ADDRESS);
    let from = char_counts::BEFORE_ADDRESS + 2 * w;
    let sum = put(payload, second, out, from);
    let check = [GOOD_SUM - sum];
    put(&check, 0, out, from + 2 * n);
}

// The line of a record that has one, where it fits.
fn put_record(record: SRecord, pool: &[u8], out: &mut [u8])
    requires { Ready «record» pool.now out.old }
    ensures { out.new ≡ pasted out.old 0 (line «record» pool.now) }
{
    let payload = &pool[record.at..record.at + record.len];
    put_line(record.kind, record.address, payload, out);
}

// The length of a record's line, or why it has none.
fn measure(record: SRecord, pool: &[u8]) -> SWritten
    ensures { told_swritten result ≡ place_behind (line_text «record» pool.now) 0 }
{
    let w = record.kind.width();
    let len = record.len;
    if len > pool.len() || record.at > pool.len() - len {
        return Err(SWriterError::PayloadOutsidePool);
    }
    if !record.kind.may_hold(len) {
        return Err(SWriterError::InvalidLengthForType);
    }
    if len > byte_counts::MOST_COUNTED - w {
        return Err(SWriterError::DataExceedsMaximumLength(len));
    }
    if !fits_in(w, record.address) {
        return Err(SWriterError::AddressTooWide);
    }
    Ok(char_counts::WITHOUT_ADDRESS + 2 * w + 2 * len)
}

// A record's line, from the output's start on: its length, or why it is not written.
pub fn to_srecord_string(record: SRecord, pool: &[u8], out: &mut [u8]) -> SWritten
    ensures { ToSRecordString «record» pool.now out.old result out.new }
{
    let n = measure(record, pool)?;
    if n > out.len() {
        return Err(SWriterError::OutputFull);
    }
    put_record(record, pool, out);
    Ok(n)
}
