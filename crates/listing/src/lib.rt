#![tactic(auto)]
// The listing of a text: a line for each answer of the reader, and how many there are; as a whole, or line by line.
ghost use Rattle.std.specs.Prelude.{◌≡◌, [], ◌∷◌, ◌++◌, ◌+◌, ◌*◌, ◌≤◌, ◌<◌, length};
ghost use Rattle.record.specs.Record.{meant};
ghost use Rattle.record.specs.Written.{two_bytes};
ghost use Rattle.digits.specs.Spelling.{spelt};
ghost use Rattle.record.specs.Meaning.{data_at};
ghost use Rattle.reader.specs.Told.{refusal_of};
ghost use Rattle.listing.specs.Listing.{decimal, spaced, record_entry, refusal_entry, shown, heading, count_line, answers};
ghost use Rattle.listing.specs.Listed.{text_room, line_room, record_room, reply_room, Lists, ListsReply, ListsFirst, ListsLast};
ghost use Rattle.listing.specs.Helpers.{Puts, Printable, FitsIn, numbered, values_put, EntriesPut, HasRoom};
ghost use Rattle.listing.specs.Status.{no_line, verdict_from, ListingOptions, VerdictAfter, ExitStatus, TextStatus};

use reader::{ReaderError, ReaderOptions, Reply, State, Values};
use record::{Record, chars};

// What the answers of a text come to so far.
#[derive(Clone, Copy)]
pub struct Verdict {
    // A line was refused.
    pub faulty: bool,
    // The last line is an end record.
    pub ended: bool,
}

// The longest text that is listed as a whole.
const LONGEST_TEXT: usize = 65536;

// The place behind the entries, and how many there are.
#[derive(Clone, Copy)]
struct Entries {
    at: usize,
    count: usize,
}

// One character, at a place; the place behind it is answered, as by all that follow.
fn put_char(c: u8, out: &mut [u8], at: usize) -> usize
    requires { at + 1 ≤ length out.old }
    ensures { Puts out.old at (c ∷ []) result out.new }
{
    out[at] = c;
    at + 1
}

// A byte as two capital digits.
fn put_byte(b: u8, out: &mut [u8], at: usize) -> usize
    requires { at + 2 ≤ length out.old }
    ensures { Puts out.old at (spelt (b ∷ [])) result out.new }
{
    let low = put_char(digits::capital_digit(b / 16), out, at);
    put_char(digits::capital_digit(b), out, low)
}

// Two bytes, high byte first.
fn put_word(x: u16, out: &mut [u8], at: usize) -> usize
    requires { at + 4 ≤ length out.old }
    ensures { Puts out.old at (spelt (two_bytes x)) result out.new }
{
    put_bytes(&x.to_be_bytes(), out, at)
}

// Characters as they are.
fn put_text(s: &[u8], out: &mut [u8], at: usize) -> usize
    requires { at + length s.now ≤ length out.old }
    ensures { Puts out.old at s.now result out.new }
{
    let n = copying::copy(s, &mut out[at..]);
    at + n
}

// Bytes as capital digits.
fn put_bytes(s: &[u8], out: &mut [u8], at: usize) -> usize
    requires { at + 2 * length s.now ≤ length out.old }
    ensures { Puts out.old at (spelt s.now) result out.new }
{
    let mut place = at;
    for b in s {
        place = put_byte(*b, out, place);
    }
    place
}

// A number in decimal.
fn put_decimal(n: usize, out: &mut [u8], at: usize) -> usize
    requires { at + length (decimal n) ≤ length out.old }
    ensures { Puts out.old at (decimal n) result out.new }
{
    if n < 10 {
        return put_char(digits::capital_digit(n as u8), out, at);
    }
    let last = put_decimal(n / 10, out, at);
    put_char(digits::capital_digit((n % 10) as u8), out, last)
}

// A data record: no space behind its address where it has no payload.
fn put_data(offset: u16, payload: &[u8], out: &mut [u8], at: usize) -> usize
    requires { at + length (record_entry (data_at offset payload.now)) ≤ length out.old }
    ensures { Puts out.old at (record_entry (data_at offset payload.now)) result out.new }
{
    let address = put_text(b"D ", out, at);
    let behind = put_word(offset, out, address);
    if payload.len() == 0 {
        return behind;
    }
    let bytes = put_char(b' ', out, behind);
    put_bytes(payload, out, bytes)
}

// A record of a type from 02 to 05, by its type's digit: two bytes of its payload.
fn put_numbered(kind: u8, x: u16, out: &mut [u8], at: usize) -> usize
    requires { at + 7 ≤ length out.old }
    ensures { Puts out.old at (numbered kind (two_bytes x)) result out.new }
{
    let digit = put_char(b'X', out, at);
    let space = put_char(kind, out, digit);
    let number = put_char(b' ', out, space);
    put_word(x, out, number)
}

// The same with four bytes.
fn put_long(kind: u8, high: u16, low: u16, out: &mut [u8], at: usize) -> usize
    requires { at + 11 ≤ length out.old }
    ensures { Puts out.old at (numbered kind (two_bytes high ++ two_bytes low)) result out.new }
{
    let rest = put_numbered(kind, high, out, at);
    put_word(low, out, rest)
}

// A record, whose payload lies in the pool.
fn put_record(given: Record, pool: &[u8], out: &mut [u8], at: usize) -> usize
    requires { Printable given pool.now out.old at }
    ensures { Puts out.old at (record_entry (meant given pool.now)) result out.new }
{
    match given {
        Record::Data {
            offset,
            at: from,
            len,
        } => {
            let end = from + len;
            put_data(offset, &pool[from..end], out, at)
        }
        Record::EndOfFile => put_char(b'E', out, at),
        Record::ExtendedSegmentAddress(x) => put_numbered(b'2', x, out, at),
        Record::StartSegmentAddress { cs, ip } => put_long(b'3', cs, ip, out, at),
        Record::ExtendedLinearAddress(x) => put_numbered(b'4', x, out, at),
        Record::StartLinearAddress(x) => {
            put_long(b'5', (x / 65536) as u16, (x % 65536) as u16, out, at)
        }
    }
}

// A space and a byte.
fn put_value(v: u8, out: &mut [u8], at: usize) -> usize
    requires { at + 3 ≤ length out.old }
    ensures { Puts out.old at (spaced (v ∷ [])) result out.new }
{
    let digits = put_char(b' ', out, at);
    put_byte(v, out, digits)
}

// A space and a place of a line, in four digits.
fn put_place(place: u16, out: &mut [u8], at: usize) -> usize
    requires { at + 5 ≤ length out.old }
    ensures { Puts out.old at (spaced (two_bytes place)) result out.new }
{
    let digits = put_char(b' ', out, at);
    put_word(place, out, digits)
}

// The values of a refusal.
fn put_values(values: Values, out: &mut [u8], at: usize) -> usize
    requires { at + length (values_put values) ≤ length out.old }
    ensures { Puts out.old at (values_put values) result out.new }
{
    match values {
        Values::Nothing => at,
        Values::Position(place) => put_place(place, out, at),
        Values::Byte(byte) => put_value(byte, out, at),
        Values::Bytes(first, second) => {
            let next = put_value(first, out, at);
            put_value(second, out, next)
        }
    }
}

// A refusal: its number, then its values.
fn put_refusal(e: ReaderError, out: &mut [u8], at: usize) -> usize
    requires { at + length (refusal_entry (refusal_of e)) ≤ length out.old }
    ensures { Puts out.old at (refusal_entry (refusal_of e)) result out.new }
{
    let figures = e.figures();
    let number = put_text(b"! ", out, at);
    let values = put_decimal(usize::from(figures.number), out, number);
    put_values(figures.values, out, values)
}

// The line of a reply; none of "done".
fn put_reply(reply: Reply, pool: &[u8], out: &mut [u8], at: usize) -> usize
    requires { FitsIn reply pool.now out.old at }
    ensures { Puts out.old at (shown reply pool.now) result out.new }
{
    match reply {
        Some(Ok(given)) => {
            let end = put_record(given, pool, out, at);
            put_char(chars::LF, out, end)
        }
        Some(Err(e)) => {
            let end = put_refusal(e, out, at);
            put_char(chars::LF, out, end)
        }
        None => at,
    }
}

// The listing's two stops: it goes on after a refused line, and stops at an end record.
pub fn listing_options() -> ReaderOptions
    ensures { ListingOptions result }
{
    ReaderOptions {
        stop_after_first_error: false,
        stop_after_eof: true,
    }
}

// A line for each answer of a reader that stops at an end record and not at a refusal. No payload is longer than the pool.
fn put_entries(text: &[u8], out: &mut [u8], at: usize) -> Entries
    requires { HasRoom text.now out.old at }
    ensures { EntriesPut text.now out.old at result.at result.count out.new }
{
    let mut pool = [0u8; 256];
    let mut state = State::new_with_options(listing_options());
    let mut place = at;
    let mut count = 0;
    // A loop: each turn reads a line, so there is no index to count.
    loop {
        let step = state.next(text, &mut pool, 0);
        if step.reply.is_none() {
            return Entries { at: place, count };
        }
        place = put_reply(step.reply, &pool, out, place);
        state = step.state;
        count += 1;
    }
}

// The first line of a listing.
fn put_first(out: &mut [u8], at: usize) -> usize
    requires { at + 8 ≤ length out.old }
    ensures { Puts out.old at heading result out.new }
{
    put_text(b"records\n", out, at)
}

// The last line of a listing.
fn put_last(count: usize, out: &mut [u8], at: usize) -> usize
    requires { at + length (count_line count) ≤ length out.old }
    ensures { Puts out.old at (count_line count) result out.new }
{
    let behind = put_decimal(count, out, at);
    put_text(b" answers\n", out, behind)
}

// Whether an output has room for a line with a payload of so many bytes: two characters for each, and less than 32 for the rest.
fn has_room(given: usize, out: usize) -> bool
    ensures { result ≡ line_room given out }
{
    out >= 32 && given <= (out - 32) / 2
}

// The same for the line of a record, whose payload must lie in a pool of so many bytes.
fn record_room(given: Record, pool: usize, out: usize) -> bool
    ensures { result ≡ record_room given pool out }
{
    match given {
        Record::Data { offset: _, at, len } => {
            at <= pool && len <= pool - at && has_room(len, out)
        }
        Record::EndOfFile
        | Record::ExtendedSegmentAddress(_)
        | Record::StartSegmentAddress { cs: _, ip: _ }
        | Record::ExtendedLinearAddress(_)
        | Record::StartLinearAddress(_) => has_room(0, out),
    }
}

// The same for the line of a reply.
fn reply_room(reply: Reply, pool: usize, out: usize) -> bool
    ensures { result ≡ reply_room reply pool out }
{
    match reply {
        Some(Ok(given)) => record_room(given, pool, out),
        Some(Err(_)) | None => has_room(0, out),
    }
}

// The same for the listing of a text of so many bytes: one character more for each. A line of n bytes with its LF is listed in at
// most 3n characters, and the rest, the first and the last line and what a missing LF may take, in less than 32.
fn text_room(given: usize, out: usize) -> bool
    ensures { result ≡ text_room given out }
{
    given <= out && has_room(given, out - given)
}

// The listing of a text, at the output's beginning. There is no room in less than 32 bytes and three for each byte of the text.
pub fn list(text: &[u8], out: &mut [u8]) -> Option<usize>
    ensures { Lists text.now out.old result out.new }
{
    if !text_room(text.len(), out.len()) {
        return None;
    }
    if text.len() > LONGEST_TEXT {
        return Some(put_text(b"input too long\n", out, 0));
    }
    let first = put_first(out, 0);
    let entries = put_entries(text, out, first);
    Some(put_last(entries.count, out, entries.at))
}

// The line of a reply, at the output's beginning; none of "done". There is no room in less than 32 bytes and two for each byte
// of its payload, nor for a payload that does not lie in the pool.
pub fn list_reply(reply: Reply, pool: &[u8], out: &mut [u8]) -> Option<usize>
    ensures { ListsReply reply pool.now out.old result out.new }
{
    if !reply_room(reply, pool.len(), out.len()) {
        return None;
    }
    Some(put_reply(reply, pool, out, 0))
}

// The first line of a listing, at the output's beginning. There is no room in less than 32 bytes.
pub fn list_first(out: &mut [u8]) -> Option<usize>
    ensures { ListsFirst out.old result out.new }
{
    if !has_room(0, out.len()) {
        return None;
    }
    Some(put_first(out, 0))
}

// The last line of a listing of so many answers, likewise.
pub fn list_last(count: usize, out: &mut [u8]) -> Option<usize>
    ensures { ListsLast count out.old result out.new }
{
    if !has_room(0, out.len()) {
        return None;
    }
    Some(put_last(count, out, 0))
}

// What the answers come to with one more reply; "done" changes nothing.
pub fn verdict_after(verdict: Verdict, reply: Reply) -> Verdict
    ensures { VerdictAfter verdict reply result }
{
    match reply {
        Some(Ok(given)) => Verdict {
            ended: matches!(given, Record::EndOfFile),
            ..verdict
        },
        Some(Err(_)) => Verdict {
            faulty: true,
            ended: false,
        },
        None => verdict,
    }
}

// The exit status of a listing: 0 where every line is a record and the last one is an end record, 1 where not.
pub fn exit_status(verdict: Verdict) -> u8
    ensures { ExitStatus verdict result }
{
    u8::from(verdict.faulty || !verdict.ended)
}

// What the answers of a whole text come to.
fn text_verdict(text: &[u8]) -> Verdict
    ensures { result ≡ verdict_from no_line (answers text.now) }
{
    let mut pool = [0u8; 256];
    let mut state = State::new_with_options(listing_options());
    let mut verdict = Verdict {
        faulty: false,
        ended: false,
    };
    // A loop: each turn reads a line, so there is no index to count.
    loop {
        let step = state.next(text, &mut pool, 0);
        if step.reply.is_none() {
            return verdict;
        }
        verdict = verdict_after(verdict, step.reply);
        state = step.state;
    }
}

// The exit status of the listing of a whole text: 2 where it is too long to be listed.
pub fn text_status(text: &[u8]) -> u8
    ensures { TextStatus text.now result }
{
    if text.len() > LONGEST_TEXT {
        return 2;
    }
    exit_status(text_verdict(text))
}
