#![tactic(auto)]
// Runs the port on cases from standard input, a line each, and prints each answer, a line each.
//
//   # ..                           a heading, printed again
//   C BYTES                        the checksum of the bytes
//   L POOL POSITION BYTES          the line of these bytes, read into a pool of POOL bytes at POSITION
//   T FLAGS POOL BYTES             the text of these bytes, read into a pool of POOL bytes, each payload at its start
//   W RECORD OUT BYTES             the record, with these bytes as its pool, written to an output of OUT bytes
//   O OUT BYTES RECORD RECORD ..   the object of the records, with these bytes as their pool
//   M FIRST PAGE MARKS BYTES       the text of these bytes, loaded into a page of PAGE bytes from the address FIRST on, with MARKS bytes of marks
//   N OWNER POOL MARKS BYTES WINDOW WINDOW ..
//                                  the text of these bytes, loaded for OWNER through a table into a pool of POOL bytes, with MARKS bytes of marks
//   Q ADDRESS BYTES                the text of these bytes, asked for the byte at ADDRESS
//   K FIRST LENGTH HIGH LOW PAGE MARKS BYTES BYTES ..
//                                  a light for a page of LENGTH places from the address FIRST on, with the count's bytes at the places HIGH and LOW,
//                                  and each of these texts as a dump into one page of PAGE bytes with MARKS bytes of marks
//
// A record is its type, two numbers, and the position and the length of its payload. The first number
// is the offset of data and the number of types 02 to 05 (of 03: CS, and the second is IP). Bit 0 of
// the flags is stop_after_first_error, bit 1 stop_after_eof. With bit 2 the first answer alone is told,
// with both stops on. A text is read by a reader that holds it. For each answer one reader is opened, and
// asked in a loop from the first answer up to that one. An object is written from a lent list, of at most
// 64 records. A window is its owner, its first address, its length and its place in the pool; a case has at
// most 17. A case of K has at least one dump, with one space before each; an empty word is an empty text. A
// dump finds the page and the marks as the one before it left them.
//
// A lent buffer holds one byte in each place before the call: pool EE, output DD, page CC, marks AA.
// After an answer stand ` | ` and the whole buffer; after one of M, N or K the page, and then the marks. A
// page or marks of more than 64 bytes are told in runs, each as its byte, `<` and the place where it
// ends. The answer is one of these:
//
//   D OFFSET POSITION LENGTH    data
//   E                           the end record
//   X2 PAYLOAD                  a record of type 02, and so for 03 to 05
//   done                        the text has no more answers
//   W LENGTH                    so many bytes were written
//   A RECORDS START             loaded, with so many data records; the start is told as its record, X3 or X5, or not at all
//   B BYTE                      the text states this byte at the address
//   none                        it states none there
//   ! NUMBER VALUES             a refusal
//
// The answers of T stand in one line with `; ` between them, up to "done" or refusal 10, and at most
// 40 of them. Behind ` @` stands the number of lines behind which the reader stands then. One more
// call, with a pool of 4,096 bytes, is told at the end without its pool. A first answer alone has no
// ` @`. After a refusal of M, N or Q stand ` @` and the number of its line.
//
// The answer of K is `! 24` alone if the light is not set up. Otherwise it is what each dump comes to, with
// `; ` between them: the color, which is broken, no-count, first, green, stale or restarted; the count that
// is known after the dump, in four digits, or `-` if none is; and the answer of its load, as in M.
//
// The number of a refusal is in decimal, and every other number in hexadecimal with capitals. A
// case that is none of these is answered by `?`. Each case ends in LF, and what a case has beyond
// 4,096 bytes is dropped.

use light::{Color, Light};
use query::Asked;
use reader::{Answer, ReaderError, ReaderOptions, Replied, Reply, Values};
use record::{Record, chars, refusals};
use std::io;
use std::io::Read;
use steps::{LoaderError, Loading, Refused, Start, Tally};
use window::Row;
use writer::{WriterError, Written};

// How many answers of a text are printed at most.
const MOST_ANSWERS: usize = 40;

// The most records of an object in a case, and the most windows of a table.
const MOST_RECORDS: usize = 64;

const MOST_WINDOWS: usize = 17;

// How many numbers of a light stand before its dumps.
const NUMBERS_OF_LIGHT: usize = 6;

// How many bytes of a buffer are printed one by one at most: of a page and of marks, and of any other.
const MOST_OF_PAGE: usize = 64;

const MOST_OF_POOL: usize = 4096;

// How many bytes a case has at most, and how many a page, marks or a pool of windows.
const MOST_OF_CASE: usize = 4096;

const MOST_LENT: usize = 65537;

// What a lent buffer holds in each place before the call.
const POOL_BYTE: u8 = 0xEE;

const OUTPUT_BYTE: u8 = 0xDD;

const PAGE_BYTE: u8 = 0xCC;

const MARKS_BYTE: u8 = 0xAA;

// How many numbers of 16 bits there are, of 32, and of 15 digits.
const WORDS: u64 = 65536;

const ADDRESSES: u64 = 4294967296;

const FIFTEEN_DIGITS: u64 = 1152921504606846976;

// The first n bytes, or all where there are fewer.
fn front(s: &[u8], n: usize) -> &[u8] {
    &s[..n.min(s.len())]
}

// What stands behind the first n bytes.
fn behind(s: &[u8], n: usize) -> &[u8] {
    &s[n.min(s.len())..]
}

fn say_char(rt: &impl Print, c: u8) -> io::Result<()> {
    rt.write_all(&[c])
}

// Prints a number with at least so many digits.
fn say_number(rt: &impl Print, x: u64, width: usize) -> io::Result<()> {
    print!(rt; "{x:0width$X}")
}

// Prints a character, and then a number.
fn say_field(rt: &impl Print, mark: u8, x: u64, width: usize) -> io::Result<()> {
    say_char(rt, mark)?;
    say_number(rt, x, width)
}

// Prints the digits of bytes.
fn say_spelt(rt: &impl Print, bytes: &[u8]) -> io::Result<()> {
    let mut text = [0; 65536];
    digits::spell(bytes, 0, &mut text);
    rt.write_all(front(&text, bytes.len().saturating_mul(2)))
}

// Prints each run of equal bytes: the byte, and the place where the run ends.
fn say_runs(rt: &impl Print, bytes: &[u8]) -> io::Result<()> {
    for (i, b) in bytes.iter().enumerate() {
        let next = i + 1;
        if bytes.get(next) != Some(b) {
            say_field(rt, b' ', u64::from(*b), 2)?;
            say_field(rt, b'<', next as u64, 1)?;
        }
    }
    Ok(())
}

// Prints a buffer: its bytes, or its runs where it has more than so many bytes.
fn say_buffer(rt: &impl Print, bytes: &[u8], most: usize) -> io::Result<()> {
    say_char(rt, b' ')?;
    say_char(rt, b'|')?;
    if bytes.len() > most {
        return say_runs(rt, bytes);
    }
    say_char(rt, b' ')?;
    say_spelt(rt, bytes)
}

// `X` with the type of a record, and its payload with so many digits.
fn say_payload(rt: &impl Print, r: Record, payload: u64, width: usize) -> io::Result<()> {
    say_field(rt, b'X', u64::from(r.record_type()), 1)?;
    say_field(rt, b' ', payload, width)
}

// `D` with offset, position and length, `E`, or `X` with the type and the payload.
fn say_record(rt: &impl Print, r: Record) -> io::Result<()> {
    match r {
        Record::Data { offset, at, len } => {
            say_char(rt, b'D')?;
            say_field(rt, b' ', u64::from(offset), 4)?;
            say_field(rt, b' ', at as u64, 1)?;
            say_field(rt, b' ', len as u64, 1)
        }
        Record::EndOfFile => say_char(rt, b'E'),
        Record::ExtendedSegmentAddress(a) | Record::ExtendedLinearAddress(a) => {
            say_payload(rt, r, u64::from(a), 4)
        }
        Record::StartSegmentAddress { cs, ip } => {
            say_payload(rt, r, u64::from(cs) * WORDS + u64::from(ip), 8)
        }
        Record::StartLinearAddress(a) => say_payload(rt, r, u64::from(a), 8),
    }
}

// `!` and the number of a refusal in decimal.
fn say_refused(rt: &impl Print, number: u8) -> io::Result<()> {
    print!(rt; "! {number}")
}

// The same, with a value in at least so many digits.
fn say_refused_at(rt: &impl Print, number: u8, x: u64, width: usize) -> io::Result<()> {
    say_refused(rt, number)?;
    say_field(rt, b' ', x, width)
}

// A refusal of a line: its number, and its values.
fn say_refusal(rt: &impl Print, e: ReaderError) -> io::Result<()> {
    let figures = e.figures();
    say_refused(rt, figures.number)?;
    match figures.values {
        Values::Nothing => Ok(()),
        Values::Position(place) => say_field(rt, b' ', u64::from(place), 4),
        Values::Byte(byte) => say_field(rt, b' ', u64::from(byte), 2),
        Values::Bytes(first, second) => {
            say_field(rt, b' ', u64::from(first), 2)?;
            say_field(rt, b' ', u64::from(second), 2)
        }
    }
}

// The number at the front, and what stands behind the character that ends it; what does not fit 64 bits is lost.
fn read_number(text: &[u8]) -> (u64, &[u8]) {
    let mut value: u64 = 0;
    for (i, c) in text.iter().enumerate() {
        let d = digits::digit_value(*c);
        if d > 15 {
            return (value, &text[i + 1..]);
        }
        value = value % FIFTEEN_DIGITS * 16 + u64::from(d);
    }
    (value, &text[text.len()..])
}

// Stores the bytes that the digits at the front spell, and answers how many.
fn unspell(text: &[u8], bytes: &mut [u8]) -> usize {
    digits::decode(text, bytes);
    digits::first_other(text) / 2
}

// Lends the first n places of a buffer; nothing where it has fewer.
fn lend(space: &mut [u8], n: u64) -> Option<&mut [u8]> {
    if n > space.len() as u64 {
        return None;
    }
    Some(&mut space[..n as usize])
}

fn say_answer(rt: &impl Print, a: Answer) -> io::Result<()> {
    match a {
        Ok(r) => say_record(rt, r),
        Err(e) => say_refusal(rt, e),
    }
}

// `C BYTES`
fn checksum_case(rt: &impl Print, text: &[u8]) -> io::Result<()> {
    let mut space = [0; MOST_OF_CASE];
    let k = unspell(text, &mut space);
    say_number(rt, u64::from(checksum::checksum(front(&space, k))), 2)
}

// `L POOL POSITION BYTES`
fn line_case(rt: &impl Print, text: &[u8]) -> io::Result<()> {
    let (size, text) = read_number(text);
    let (at, text) = read_number(text);
    let mut space = [0; MOST_OF_CASE];
    let k = unspell(text, &mut space);
    let mut room = [POOL_BYTE; MOST_OF_POOL];
    let Some(pool) = lend(&mut room, size) else {
        return say_char(rt, b'?');
    };
    say_answer(rt, reader::read_record(front(&space, k), pool, at as usize))?;
    say_buffer(rt, pool, MOST_OF_POOL)
}

// Prints a reply, and answers whether the row goes on after it.
fn say_reply(rt: &impl Print, reply: Reply) -> io::Result<bool> {
    match reply {
        Some(Ok(r)) => {
            say_record(rt, r)?;
            Ok(true)
        }
        Some(Err(e)) => {
            say_refusal(rt, e)?;
            Ok(!e.is_pool_full())
        }
        None => {
            say_word(rt, b"done")?;
            Ok(false)
        }
    }
}

// Prints the number of a line, or of the lines that a reader has passed.
fn say_line(rt: &impl Print, line: usize) -> io::Result<()> {
    say_char(rt, b' ')?;
    say_field(rt, b'@', line as u64, 1)
}

// Prints a reply and how many lines the reader has passed then, and answers whether the row goes on.
fn say_step(rt: &impl Print, step: Replied) -> io::Result<bool> {
    let more = say_reply(rt, step.reply)?;
    say_line(rt, step.state.line)?;
    Ok(more)
}

// Prints the answer of a text after n others, with the pool, and answers whether the row goes on. One reader is asked for all of them.
fn say_nth(
    rt: &impl Print,
    text: &[u8],
    pool: &mut [u8],
    options: ReaderOptions,
    n: usize,
) -> io::Result<bool> {
    pool.fill(POOL_BYTE);
    let step = lent::nth_of(text, options, pool, 0, n);
    let more = say_step(rt, step)?;
    say_buffer(rt, pool, MOST_OF_POOL)?;
    say_char(rt, b';')?;
    say_char(rt, b' ')?;
    Ok(more)
}

// Prints the answers of a text, and answers how many stand before the last one.
fn say_row(
    rt: &impl Print,
    text: &[u8],
    pool: &mut [u8],
    options: ReaderOptions,
) -> io::Result<usize> {
    for n in 0..MOST_ANSWERS {
        if !say_nth(rt, text, pool, options, n)? {
            return Ok(n);
        }
    }
    Ok(MOST_ANSWERS - 1)
}

// One more call, with much room, from where the reader stands after the answer that follows n others.
fn read_more(
    rt: &impl Print,
    text: &[u8],
    pool: &mut [u8],
    options: ReaderOptions,
    n: usize,
) -> io::Result<()> {
    let last = lent::nth_of(text, options, pool, 0, n);
    let mut much = [0; MOST_OF_POOL];
    let step = lent::next_of(text, last.state, &mut much, 0);
    say_step(rt, step)?;
    Ok(())
}

fn read_first(rt: &impl Print, text: &[u8], pool: &mut [u8]) -> io::Result<()> {
    let reply = lent::first_record(text, pool, 0);
    say_reply(rt, reply)?;
    say_buffer(rt, pool, MOST_OF_POOL)
}

// The answers of a text with the stops that the flags name, or the first one alone.
fn read_text(rt: &impl Print, text: &[u8], pool: &mut [u8], flags: u64) -> io::Result<()> {
    if flags / 4 % 2 == 1 {
        return read_first(rt, text, pool);
    }
    let options = ReaderOptions {
        stop_after_first_error: flags % 2 == 1,
        stop_after_eof: flags / 2 % 2 == 1,
    };
    let n = say_row(rt, text, pool, options)?;
    read_more(rt, text, pool, options, n)
}

// `T FLAGS POOL BYTES`
fn text_case(rt: &impl Print, text: &[u8]) -> io::Result<()> {
    let (flags, text) = read_number(text);
    let (size, text) = read_number(text);
    let mut space = [0; MOST_OF_CASE];
    let k = unspell(text, &mut space);
    let mut room = [POOL_BYTE; MOST_OF_POOL];
    let Some(pool) = lend(&mut room, size) else {
        return say_char(rt, b'?');
    };
    read_text(rt, front(&space, k), pool, flags)
}

// The record of a type, its numbers, and the place of its payload.
fn record_of(kind: u64, x: u64, second: u64, at: usize, len: usize) -> Record {
    let word = (x % WORDS) as u16;
    match kind {
        0 => Record::Data {
            offset: word,
            at,
            len,
        },
        2 => Record::ExtendedSegmentAddress(word),
        3 => Record::StartSegmentAddress {
            cs: word,
            ip: (second % WORDS) as u16,
        },
        4 => Record::ExtendedLinearAddress(word),
        5 => Record::StartLinearAddress((x % ADDRESSES) as u32),
        _ => Record::EndOfFile,
    }
}

// The record at the front, and what stands behind it.
fn read_record(text: &[u8]) -> (Record, &[u8]) {
    let (kind, text) = read_number(text);
    let (x, text) = read_number(text);
    let (second, text) = read_number(text);
    let (at, text) = read_number(text);
    let (len, text) = read_number(text);
    let given = record_of(kind, x, second, at as usize, len as usize);
    (given, text)
}

fn say_written(rt: &impl Print, w: Written) -> io::Result<()> {
    match w {
        Ok(n) => {
            say_char(rt, b'W')?;
            say_field(rt, b' ', n as u64, 1)
        }
        Err(WriterError::PayloadOutsidePool) => say_refused(rt, refusals::PAYLOAD_OUTSIDE_POOL),
        Err(WriterError::DataExceedsMaximumLength(n)) => {
            say_refused_at(rt, refusals::DATA_EXCEEDS_MAXIMUM_LENGTH, n as u64, 1)
        }
        Err(WriterError::MissingEndOfFileRecord) => {
            say_refused(rt, refusals::MISSING_END_OF_FILE_RECORD)
        }
        Err(WriterError::MultipleEndOfFileRecords(n)) => {
            say_refused_at(rt, refusals::MULTIPLE_END_OF_FILE_RECORDS, n as u64, 1)
        }
        Err(WriterError::OutputFull) => say_refused(rt, refusals::OUTPUT_FULL),
    }
}

// Prints what came of writing, and the output.
fn say_output(rt: &impl Print, w: Written, out: &[u8]) -> io::Result<()> {
    say_written(rt, w)?;
    say_buffer(rt, out, MOST_OF_POOL)
}

// `W RECORD OUT BYTES`
fn record_case(rt: &impl Print, text: &[u8]) -> io::Result<()> {
    let (given, text) = read_record(text);
    let (size, text) = read_number(text);
    let mut space = [0; MOST_OF_CASE];
    let k = unspell(text, &mut space);
    let mut room = [OUTPUT_BYTE; MOST_OF_POOL];
    let Some(out) = lend(&mut room, size) else {
        return say_char(rt, b'?');
    };
    let w = writer::to_record_string(given, front(&space, k), out);
    say_output(rt, w, out)
}

// The object of the records of a text, as a lent list.
fn write_object(rt: &impl Print, text: &[u8], pool: &[u8], out: &mut [u8]) -> io::Result<()> {
    let mut records = [Record::EndOfFile; MOST_RECORDS];
    let mut n = 0;
    let mut rest = text;
    for slot in records.iter_mut() {
        if rest.is_empty() {
            break;
        }
        let (given, more) = read_record(rest);
        *slot = given;
        rest = more;
        n += 1;
    }
    if !rest.is_empty() {
        return say_char(rt, b'?');
    }
    let w = lent::object_of(records, n, pool, out);
    say_output(rt, w, out)
}

// `O OUT BYTES RECORD RECORD ..`
fn object_case(rt: &impl Print, text: &[u8]) -> io::Result<()> {
    let (size, text) = read_number(text);
    let mut space = [0; MOST_OF_CASE];
    let k = unspell(text, &mut space);
    let (_, records) = read_number(text);
    let mut room = [OUTPUT_BYTE; MOST_OF_POOL];
    let Some(out) = lend(&mut room, size) else {
        return say_char(rt, b'?');
    };
    write_object(rt, records, front(&space, k), out)
}

// A start as the record that states it in Intel HEX.
fn say_start(rt: &impl Print, r: Record) -> io::Result<()> {
    say_char(rt, b' ')?;
    say_record(rt, r)
}

fn say_tally(rt: &impl Print, tally: Tally) -> io::Result<()> {
    say_char(rt, b'A')?;
    say_field(rt, b' ', tally.records as u64, 1)?;
    match tally.start {
        None => Ok(()),
        Some(Start::Segment { cs, ip }) => say_start(rt, Record::StartSegmentAddress { cs, ip }),
        Some(Start::Linear(address)) => say_start(rt, Record::StartLinearAddress(address)),
    }
}

// A refusal of a text, and the number of its line.
fn say_stop(rt: &impl Print, refused: Refused) -> io::Result<()> {
    match refused.why {
        LoaderError::Line(why) => say_refusal(rt, why)?,
        LoaderError::MissingEndOfFileRecord => {
            say_refused(rt, refusals::MISSING_END_OF_FILE_RECORD)?
        }
        LoaderError::BadWindow => say_refused(rt, refusals::BAD_WINDOW)?,
        LoaderError::OutsideWindow(a) => {
            say_refused_at(rt, refusals::OUTSIDE_WINDOW, u64::from(a), 8)?
        }
        LoaderError::CountMismatch(stated, seen) => {
            say_refused_at(rt, refusals::COUNT_MISMATCH, stated as u64, 1)?;
            say_field(rt, b' ', seen as u64, 1)?
        }
        LoaderError::StartConflict => say_refused(rt, refusals::START_CONFLICT)?,
        LoaderError::BadTable => say_refused(rt, refusals::BAD_TABLE)?,
    }
    say_line(rt, refused.line)
}

fn say_loading(rt: &impl Print, l: Loading) -> io::Result<()> {
    match l {
        Ok(tally) => say_tally(rt, tally),
        Err(refused) => say_stop(rt, refused),
    }
}

// Prints what came of a load, the page and the marks.
fn say_loaded(rt: &impl Print, l: Loading, page: &[u8], marks: &[u8]) -> io::Result<()> {
    say_loading(rt, l)?;
    say_buffer(rt, page, MOST_OF_PAGE)?;
    say_buffer(rt, marks, MOST_OF_PAGE)
}

// `M FIRST PAGE MARKS BYTES`
fn load_case(rt: &impl Print, text: &[u8]) -> io::Result<()> {
    let (first, text) = read_number(text);
    let (size, text) = read_number(text);
    let (row, text) = read_number(text);
    let mut space = [0; MOST_OF_CASE];
    let k = unspell(text, &mut space);
    let mut room = [PAGE_BYTE; MOST_LENT];
    let mut marked = [MARKS_BYTE; MOST_LENT];
    let (Some(page), Some(marks)) = (lend(&mut room, size), lend(&mut marked, row)) else {
        return say_char(rt, b'?');
    };
    let l = loader::load(front(&space, k), (first % ADDRESSES) as u32, page, marks);
    say_loaded(rt, l, page, marks)
}

// The window at the front, and what stands behind it; none where fewer than four numbers stand there.
fn read_row(text: &[u8]) -> (Option<Row>, &[u8]) {
    let (owner, text) = read_number(text);
    let (first, text) = read_number(text);
    let (size, text) = read_number(text);
    if text.is_empty() {
        return (None, text);
    }
    let (place, text) = read_number(text);
    let row = Row {
        owner: owner as usize,
        first: first as usize,
        size: size as usize,
        place: place as usize,
    };
    (Some(row), text)
}

// Loads for an owner through the table of the windows of a text.
fn load_through(
    rt: &impl Print,
    windows: &[u8],
    bytes: &[u8],
    owner: usize,
    pool: &mut [u8],
    marks: &mut [u8],
) -> io::Result<()> {
    let none = Row {
        owner: 0,
        first: 0,
        size: 0,
        place: 0,
    };
    let mut rows = [none; MOST_WINDOWS];
    let mut n = 0;
    let mut rest = windows;
    for slot in rows.iter_mut() {
        let (row, more) = read_row(rest);
        rest = more;
        let Some(row) = row else {
            break;
        };
        *slot = row;
        n += 1;
    }
    if !rest.is_empty() {
        return say_char(rt, b'?');
    }
    let l = loader::load_table(bytes, owner, &rows[..n], pool, marks);
    say_loaded(rt, l, pool, marks)
}

// `N OWNER POOL MARKS BYTES WINDOW WINDOW ..`
fn table_case(rt: &impl Print, text: &[u8]) -> io::Result<()> {
    let (owner, text) = read_number(text);
    let (size, text) = read_number(text);
    let (row, text) = read_number(text);
    let mut space = [0; MOST_OF_CASE];
    let k = unspell(text, &mut space);
    let (_, windows) = read_number(text);
    let mut room = [PAGE_BYTE; MOST_LENT];
    let mut marked = [MARKS_BYTE; MOST_LENT];
    let (Some(pool), Some(marks)) = (lend(&mut room, size), lend(&mut marked, row)) else {
        return say_char(rt, b'?');
    };
    load_through(rt, windows, front(&space, k), owner as usize, pool, marks)
}

fn say_word(rt: &impl Print, word: &[u8]) -> io::Result<()> {
    rt.write_all(word)
}

fn say_color(rt: &impl Print, color: Color) -> io::Result<()> {
    match color {
        Color::Broken => say_word(rt, b"broken"),
        Color::NoCount => say_word(rt, b"no-count"),
        Color::First => say_word(rt, b"first"),
        Color::Green => say_word(rt, b"green"),
        Color::Stale => say_word(rt, b"stale"),
        Color::Restarted => say_word(rt, b"restarted"),
    }
}

fn say_count(rt: &impl Print, count: Option<u16>) -> io::Result<()> {
    match count {
        None => say_char(rt, b'-'),
        Some(x) => say_number(rt, u64::from(x), 4),
    }
}

// Runs the dump whose bytes stand at the front, prints what it comes to, and returns the light after it.
fn say_dump(
    rt: &impl Print,
    text: &[u8],
    light: Light,
    page: &mut [u8],
    marks: &mut [u8],
) -> io::Result<Light> {
    let mut space = [0; MOST_OF_CASE];
    let k = unspell(text, &mut space);
    let d = light.dump(front(&space, k), page, marks);
    say_color(rt, d.color)?;
    say_char(rt, b' ')?;
    say_count(rt, d.light.known)?;
    say_char(rt, b' ')?;
    say_loading(rt, d.answer)?;
    Ok(d.light)
}

// How many words of digits follow the letter of a case, with one space before each; 0 if any other byte is among them.
fn count_words(text: &[u8]) -> usize {
    let [_, b' ', words @ ..] = text else {
        return 0;
    };
    let mut n: usize = 1;
    for c in words {
        if *c == b' ' {
            n = n.saturating_add(1);
        } else if digits::digit_value(*c) > 15 {
            return 0;
        }
    }
    n
}

// Runs so many dumps, whose bytes stand one after the other.
fn say_dumps(
    rt: &impl Print,
    text: &[u8],
    dumps: usize,
    made: Light,
    page: &mut [u8],
    marks: &mut [u8],
) -> io::Result<()> {
    let mut light = made;
    let mut rest = text;
    for n in 0..dumps {
        if n > 0 {
            say_word(rt, b"; ")?;
        }
        light = say_dump(rt, rest, light, page, marks)?;
        rest = read_number(rest).1;
    }
    Ok(())
}

// The light that four numbers set up, and what stands behind them.
fn read_light(text: &[u8]) -> (Option<Light>, &[u8]) {
    let (first, text) = read_number(text);
    let (length, text) = read_number(text);
    let (high, text) = read_number(text);
    let (low, text) = read_number(text);
    let first = (first % ADDRESSES) as u32;
    let made = light::set_up(first, length as usize, high as usize, low as usize);
    (made, text)
}

// `K FIRST LENGTH HIGH LOW PAGE MARKS BYTES BYTES ..`, of so many words.
fn light_case(rt: &impl Print, text: &[u8], words: usize) -> io::Result<()> {
    if words <= NUMBERS_OF_LIGHT {
        return say_char(rt, b'?');
    }
    let (made, text) = read_light(text);
    let (size, text) = read_number(text);
    let (row, text) = read_number(text);
    let mut room = [PAGE_BYTE; MOST_LENT];
    let mut marked = [MARKS_BYTE; MOST_LENT];
    let (Some(page), Some(marks)) = (lend(&mut room, size), lend(&mut marked, row)) else {
        return say_char(rt, b'?');
    };
    let Some(light) = made else {
        return say_refused(rt, refusals::BAD_PLACE);
    };
    say_dumps(rt, text, words - NUMBERS_OF_LIGHT, light, page, marks)?;
    say_buffer(rt, page, MOST_OF_PAGE)?;
    say_buffer(rt, marks, MOST_OF_PAGE)
}

fn say_asked(rt: &impl Print, a: Asked) -> io::Result<()> {
    match a {
        Ok(Some(byte)) => {
            say_char(rt, b'B')?;
            say_field(rt, b' ', u64::from(byte), 2)
        }
        Ok(None) => say_word(rt, b"none"),
        Err(refused) => say_stop(rt, refused),
    }
}

// `Q ADDRESS BYTES`
fn ask_case(rt: &impl Print, text: &[u8]) -> io::Result<()> {
    let (address, text) = read_number(text);
    let mut space = [0; MOST_OF_CASE];
    let k = unspell(text, &mut space);
    let a = query::ask(front(&space, k), (address % ADDRESSES) as u32);
    say_asked(rt, a)
}

// The answer to a case.
fn answer(rt: &impl Print, text: &[u8]) -> io::Result<()> {
    let [letter, ..] = text else {
        return say_char(rt, b'?');
    };
    let rest = behind(text, 2);
    match *letter {
        b'#' => say_word(rt, text),
        b'C' => checksum_case(rt, rest),
        b'L' => line_case(rt, rest),
        b'T' => text_case(rt, rest),
        b'W' => record_case(rt, rest),
        b'O' => object_case(rt, rest),
        b'M' => load_case(rt, rest),
        b'N' => table_case(rt, rest),
        b'Q' => ask_case(rt, rest),
        b'K' => light_case(rt, rest, count_words(text)),
        _ => say_char(rt, b'?'),
    }
}

// Goes on with a byte of the input: a line that it ends is run. Answers the length of the line so far.
fn take(rt: &impl Print, b: u8, line: &mut [u8], n: usize) -> io::Result<usize> {
    if b == chars::LF {
        answer(rt, front(line, n))?;
        say_char(rt, chars::LF)?;
        return Ok(0);
    }
    if n < line.len() {
        line[n] = b;
        return Ok(n + 1);
    }
    Ok(n)
}

// Runs the cases of the input, which it reads byte by byte. Nothing says that an input ends, so the turns are counted up to a number
// that no run reaches.
fn all(rt: &impl Print, from: &mut impl Read, line: &mut [u8]) -> io::Result<()> {
    let mut n = 0;
    for _ in 0..u64::MAX {
        let mut c = [0u8; 1];
        if from.read(&mut c)? == 0 {
            break;
        }
        n = take(rt, c[0], line, n)?;
    }
    Ok(())
}

fn main(rt: HostRuntime) -> io::Result<()> {
    let mut line = [0; MOST_OF_CASE];
    all(&rt, &mut rt.stdin(), &mut line)
}
