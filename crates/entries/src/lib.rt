#![tactic(auto)]
// Records in numbers, lists of records in bytes, and windows of a table in bytes, as C has them.
ghost use Rattle.std.specs.Prelude.{◌≡◌, ◌+◌, ◌≤◌, length};
ghost use Rattle.entries.specs.Entry.{two_at, four_at, eight_at, record_of, record_at, entry_of, RowAt};
ghost use Rattle.entries.specs.Helpers.{IsList, ListSurveyAs, Stepped};
ghost use Rattle.entries.specs.Attempts.{WriteRecord, WriteSRecord, WriteList};

use record::{Record, types};
use srec::{SRecord, SWritten};
use window::Row;
use writer::{Survey, Written};

// The bytes of a record in a list, and of a window in a table.
const ENTRY: usize = 24;

// The record of a type and its numbers, if they say one.
#[tactic(auto, unfolding(crate::specs::Entry::record_of))]
fn record_from(kind: u8, number: u32, second: u16, at: usize, len: usize) -> Option<Record>
    ensures { entry_of result ≡ record_of kind number second at len }
{
    let short = u16::try_from(number).ok();
    match kind {
        types::DATA => Some(Record::Data {
            offset: short?,
            at,
            len,
        }),
        types::END_OF_FILE => Some(Record::EndOfFile),
        types::EXTENDED_SEGMENT_ADDRESS => Some(Record::ExtendedSegmentAddress(short?)),
        types::START_SEGMENT_ADDRESS => Some(Record::StartSegmentAddress {
            cs: short?,
            ip: second,
        }),
        types::EXTENDED_LINEAR_ADDRESS => Some(Record::ExtendedLinearAddress(short?)),
        types::START_LINEAR_ADDRESS => Some(Record::StartLinearAddress(number)),
        _ => None,
    }
}

// A record, given in numbers, to its line; none if they say no record.
pub fn write_record(
    kind: u8,
    number: u32,
    second: u16,
    at: usize,
    len: usize,
    pool: &[u8],
    out: &mut [u8],
) -> Option<Written>
    ensures { WriteRecord kind number second at len pool.now out.old result out.new }
{
    let record = record_from(kind, number, second, at, len)?;
    Some(writer::to_record_string(record, pool, out))
}

// An S-record, given in numbers, to its line; none if its digit names no type.
pub fn write_srecord(
    kind: u8,
    address: u32,
    at: usize,
    len: usize,
    pool: &[u8],
    out: &mut [u8],
) -> Option<SWritten>
    ensures { WriteSRecord kind address at len pool.now out.old result out.new }
{
    let record = SRecord {
        kind: srec::type_of(kind)?,
        address,
        at,
        len,
    };
    Some(srec::to_srecord_string(record, pool, out))
}

// The number of two bytes, low byte first, at a place, and so of four and of eight.
fn two_at(bytes: &[u8], p: usize) -> u16
    requires { p + 2 ≤ length bytes.now }
    ensures { result ≡ two_at bytes.now p }
{
    u16::from_le_bytes([bytes[p], bytes[p + 1]])
}

fn four_at(bytes: &[u8], p: usize) -> u32
    requires { p + 4 ≤ length bytes.now }
    ensures { result ≡ four_at bytes.now p }
{
    u32::from_le_bytes([bytes[p], bytes[p + 1], bytes[p + 2], bytes[p + 3]])
}

fn eight_at(bytes: &[u8], p: usize) -> usize
    requires { p + 8 ≤ length bytes.now }
    ensures { result ≡ eight_at bytes.now p }
{
    usize::from_le_bytes([
        bytes[p],
        bytes[p + 1],
        bytes[p + 2],
        bytes[p + 3],
        bytes[p + 4],
        bytes[p + 5],
        bytes[p + 6],
        bytes[p + 7],
    ])
}

// The record of an entry of a list.
#[tactic(auto, unfolding(crate::specs::Entry::record_at))]
fn record_in(entry: &[u8]) -> Option<Record>
    requires { 24 ≤ length entry.now }
    ensures { entry_of result ≡ record_at entry.now 0 }
{
    record_from(
        entry[0],
        four_at(entry, 4),
        two_at(entry, 2),
        eight_at(entry, 8),
        eight_at(entry, 16),
    )
}

// Window i of a table in bytes, the first is 0; a window of nobody where the table has no such one. It is not built into its caller, which
// asks for sixteen windows one by one: built in sixteen times, it takes 2,000 bytes more.
#[inline(never)]
pub fn row_at(table: &[u8], i: usize) -> Row
    ensures { RowAt table.now i result }
{
    if table.len() / ENTRY <= i {
        return Row {
            owner: 0,
            first: 0,
            size: 0,
            place: 0,
        };
    }
    let p = ENTRY * i;
    Row {
        owner: four_at(table, p) as usize,
        first: four_at(table, p + 4) as usize,
        size: eight_at(table, p + 8),
        place: eight_at(table, p + 16),
    }
}

// The survey of a list; none if its bytes are not a list of records.
fn survey_list(list: &[u8], pool: &[u8]) -> Option<Survey>
    ensures { ListSurveyAs list.now pool.now result }
{
    if list.len() % ENTRY != 0 {
        return None;
    }
    let mut survey = Survey::new();
    for entry in list.chunks_exact(ENTRY) {
        survey = survey.add(record_in(entry)?, pool);
    }
    Some(survey)
}

// Each record of a list, from a start on.
fn write_each(list: &[u8], pool: &[u8], out: &mut [u8], start: Written) -> Written
    requires { IsList list.now }
    ensures { Stepped list.now pool.now out.old start result out.new }
{
    let mut done = start;
    for entry in list.chunks_exact(ENTRY) {
        done = writer::write_next(done, record_in(entry).unwrap(), pool, out);
    }
    done
}

// A list of records in bytes to an object's text: surveyed first, then written; none if the bytes are not a list of records.
pub fn write_list(list: &[u8], pool: &[u8], out: &mut [u8]) -> Option<Written>
    ensures { WriteList list.now pool.now out.old result out.new }
{
    let start = survey_list(list, pool)?.begin(out.len());
    Some(write_each(list, pool, out, start))
}
