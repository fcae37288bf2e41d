#![tactic(auto)]
// Intel HEX written: one record to a line, a list to an object's text, and the survey and the step that it is made of.
ghost use Rattle.std.specs.Prelude.{◌≡◌, ◌+◌, ◌*◌, ◌/◌, ◌%◌, ◌<◌, ◌≤◌, [], ◌∷◌, length};
ghost use Rattle.digits.specs.Common.{pasted};
ghost use Rattle.std.specs.Prelude.{if◌then◌else◌};
ghost use Rattle.record.specs.Written.{written};
ghost use Rattle.digits.specs.Spelling.{spelt};
ghost use Rattle.writer.specs.Told.{told_written};
ghost use Rattle.writer.specs.Text.{place_behind};
ghost use Rattle.writer.specs.Line.{ToRecordString, WriteStep, WriteNext, line, line_text};
ghost use Rattle.writer.specs.Object.{is_end, WriteObject};
ghost use Rattle.writer.specs.Survey.{SurveyNew, SurveyAdd, SurveyAnswer, SurveyBegin, cap, longer};
ghost use Rattle.writer.specs.Helpers.{Head, Fitting, Ready};
ghost use Rattle.writer.specs.Claims.{Surveys};

use record::{Record, char_counts, chars, payload_sizes, types};

// Why a record or an object is not written.
#[derive(Clone, Copy)]
pub enum WriterError {
    // A payload of more than 255 bytes, and its length.
    DataExceedsMaximumLength(usize),
    MissingEndOfFileRecord,
    // More than one end record, and how many.
    MultipleEndOfFileRecords(usize),
    PayloadOutsidePool,
    OutputFull,
}

// What a writer answers: the place behind what was written, or why nothing was.
pub type Written = Result<usize, WriterError>;

// A line up to its payload: colon, length, address, type. Gives the sum of the bytes.
fn put_head(n: u8, address: u16, kind: u8, out: &mut [u8], at: usize) -> u8
    requires { at + 9 ≤ length out.old }
    ensures { Head n address kind out.old at result out.new }
{
    out[at] = chars::COLON;
    let [high, low] = address.to_be_bytes();
    digits::spell(&[n, high, low, kind], 0, &mut out[at + 1..])
}

// A line, whole, at a place where it fits.
fn put_line(kind: u8, address: u16, payload: &[u8], out: &mut [u8], at: usize)
    requires { Fitting payload.now out.old at }
    ensures { out.new ≡ pasted out.old at (written kind address payload.now) }
{
    let n = payload.len();
    let first = put_head(n as u8, address, kind, out, at);
    let from = at + char_counts::BEFORE_PAYLOAD;
    let sum = digits::spell(payload, first, &mut out[from..]);
    digits::spell(&[0u8.wrapping_sub(sum)], 0, &mut out[from + 2 * n..]);
}

// The line of a record that has one, at a place where it fits. The address of all but data is 0000.
fn put_record(record: Record, pool: &[u8], out: &mut [u8], at: usize)
    requires { Ready «record» pool.now out.old at }
    ensures { out.new ≡ pasted out.old at (line «record» pool.now) }
{
    match record {
        Record::Data {
            offset,
            at: from,
            len,
        } => put_line(types::DATA, offset, &pool[from..from + len], out, at),
        Record::EndOfFile => put_line(types::END_OF_FILE, 0, &[], out, at),
        Record::ExtendedSegmentAddress(a) => {
            put_line(
                types::EXTENDED_SEGMENT_ADDRESS,
                0,
                &a.to_be_bytes(),
                out,
                at,
            )
        }
        Record::StartSegmentAddress { cs, ip } => {
            let [a, b] = cs.to_be_bytes();
            let [c, d] = ip.to_be_bytes();
            put_line(types::START_SEGMENT_ADDRESS, 0, &[a, b, c, d], out, at)
        }
        Record::ExtendedLinearAddress(a) => {
            put_line(types::EXTENDED_LINEAR_ADDRESS, 0, &a.to_be_bytes(), out, at)
        }
        Record::StartLinearAddress(a) => {
            put_line(types::START_LINEAR_ADDRESS, 0, &a.to_be_bytes(), out, at)
        }
    }
}

// The length of a record's line, or why it has none.
fn measure(record: Record, pool: &[u8]) -> Written
    ensures { told_written result ≡ place_behind (line_text «record» pool.now) 0 }
{
    match record {
        Record::Data { at, len, .. } => {
            if len > pool.len() || at > pool.len() - len {
                return Err(WriterError::PayloadOutsidePool);
            }
            if len > payload_sizes::MOST_DATA {
                return Err(WriterError::DataExceedsMaximumLength(len));
            }
            Ok(char_counts::NO_PAYLOAD + 2 * len)
        }
        Record::EndOfFile => Ok(char_counts::NO_PAYLOAD),
        Record::ExtendedSegmentAddress(_) => Ok(char_counts::TWO_BYTES),
        Record::StartSegmentAddress { .. } => Ok(char_counts::FOUR_BYTES),
        Record::ExtendedLinearAddress(_) => Ok(char_counts::TWO_BYTES),
        Record::StartLinearAddress(_) => Ok(char_counts::FOUR_BYTES),
    }
}

// A record's line, from the output's start on: its length, or why it is not written.
pub fn to_record_string(record: Record, pool: &[u8], out: &mut [u8]) -> Written
    ensures { ToRecordString «record» pool.now out.old result out.new }
{
    let n = measure(record, pool)?;
    if n > out.len() {
        return Err(WriterError::OutputFull);
    }
    put_record(record, pool, out, 0);
    Ok(n)
}

// A record's line and its LF at a place of the output: the place behind them, or why they are not written.
pub fn write_step(record: Record, pool: &[u8], out: &mut [u8], at: usize) -> Written
    ensures { WriteStep «record» pool.now out.old at result out.new }
{
    let n = measure(record, pool)?;
    if at > out.len() || n >= out.len() - at {
        return Err(WriterError::OutputFull);
    }
    put_record(record, pool, out, at);
    let end = at + n;
    out[end] = chars::LF;
    Ok(end + 1)
}

// A step behind what is done: a refusal stays, and nothing is written any more.
pub fn write_next(done: Written, record: Record, pool: &[u8], out: &mut [u8]) -> Written
    ensures { WriteNext done «record» pool.now out.old result out.new }
{
    let at = done?;
    write_step(record, pool, out, at)
}

// Whether a record is an end.
fn is_end(record: Record) -> bool
    ensures { result ≡ is_end «record» }
{
    matches!(record, Record::EndOfFile)
}

// The length of what was surveyed so far with one more line and its LF, or the first refusal.
fn longer(done: Written, line: Written) -> Written
    ensures { told_written result ≡ longer (told_written done) (told_written line) }
{
    let n = done?;
    let m = line?;
    Ok(n.saturating_add(m.saturating_add(1)))
}

// What an object's answer needs of the records so far.
#[derive(Clone, Copy)]
pub struct Survey {
    // How many are ends.
    pub ends: usize,
    // Whether the last is one.
    pub ended: bool,
    // The length of all lines, each with its LF, or the first refusal of one.
    pub total: Written,
}

impl Survey {
    // Of no records.
    pub fn new() -> Survey
        ensures { SurveyNew result }
    {
        Survey {
            ends: 0,
            ended: false,
            total: Ok(0),
        }
    }

    // With one record more.
    pub fn add(self, record: Record, pool: &[u8]) -> Survey
        ensures { SurveyAdd self «record» pool.now result }
    {
        let ended = is_end(record);
        Survey {
            ends: self.ends.saturating_add(usize::from(ended)),
            ended,
            total: longer(self.total, measure(record, pool)),
        }
    }

    // The answer for the whole, if the output has this much room: its length, or why it is not written.
    pub fn answer(self, room: usize) -> Written
        ensures { SurveyAnswer self room result }
    {
        if !self.ended {
            return Err(WriterError::MissingEndOfFileRecord);
        }
        if self.ends > 1 {
            return Err(WriterError::MultipleEndOfFileRecords(self.ends));
        }
        let n = self.total?;
        if n > room {
            return Err(WriterError::OutputFull);
        }
        Ok(n)
    }

    // Where to begin to write: at the output's start, if the whole is written, and else the refusal.
    pub fn begin(self, room: usize) -> Written
        ensures { SurveyBegin self room result }
    {
        self.answer(room)?;
        Ok(0)
    }
}

// The survey of a lent list.
fn survey_list(list: &[Record], pool: &[u8]) -> Survey
    ensures { Surveys pool.now list.now result }
{
    let mut survey = Survey::new();
    for record in list {
        survey = survey.add(*record, pool);
    }
    survey
}

// A lent list, a line with its LF for each record, from the output's start on: the length of all, or why nothing is written.
pub fn create_object_file_representation(records: &[Record], pool: &[u8], out: &mut [u8]) -> Written
    ensures { WriteObject records.now pool.now out.old result out.new }
{
    let mut at = survey_list(records, pool).begin(out.len())?;
    for record in records {
        at = write_step(*record, pool, out, at)?;
    }
    Ok(at)
}
