#![tactic(auto)]
// Answers, states and places in numbers, as C has them.
ghost use Rattle.std.specs.Prelude.{◌≡◌, ◌+◌, ◌<◌, Ok};
ghost use Rattle.std.proofs.Math.Option.{some};
ghost use Rattle.reader.specs.Told.{told, refusal_of};
ghost use Rattle.reader.specs.Text.{told_reply};
ghost use Rattle.writer.specs.Told.{told_written, writer_refusal};
ghost use Rattle.srec.specs.Answer.{told_sanswer};
ghost use Rattle.srec.specs.Writer.{told_swritten, swriter_refusal};
ghost use Rattle.entries.specs.Attempts.{told_attempt, told_sattempt};
ghost use Rattle.chunks.specs.Next.{word_of};
ghost use Rattle.steps.specs.Told.{told_loading, loader_refusal, tallied};
ghost use Rattle.steps.specs.Steps.{accepted};
ghost use Rattle.page.specs.Told.{told_page, page_refusal};
ghost use Rattle.salvage.specs.Told.{told_salvage, salvage_refusal};
ghost use Rattle.query.specs.Ask.{told_asked};
ghost use Rattle.codes.specs.Codes.{CodedAs, refused_with, reading, reading_chunk, writing, loading, salvaging, asking, LineAt, AskedLine, StartKind, CodeTable};
ghost use Rattle.codes.specs.Lights.{count_from, ColorNumber, CountNumber, LightFrom, CodeMade};
ghost use Rattle.codes.specs.Listeners.{kind_of, KindFlag, base_of, BaseFlag, base_number, start_of, StartFlag, StartNumber, ListenerFrom, bare, StandOf, CodeSaid, SaidLine, SaidStart, CodeCommitted, AnswerFrom};
ghost use Rattle.codes.specs.States.{bit, Flag, StateFrom, FlagsFrom, ChunksFrom, ChunkFlagsFrom, SpotAs, PlaceFrom};

use chunks::{ChunkReply, Chunks, Place};
use intake::{Intake, Kind};
use light::{Color, Light};
use listen::{CommitError, Committed, Listener, Said};
use loader::Base;
use page::{PageError, Paged};
use query::Asked;
use reader::{Answer, ReaderError, ReaderOptions, Reply, State, Values};
use record::{Record, refusals, types};
use salvage::{SalvageError, Salvaged, Saved};
use srec::{SAnswer, SRecord, SWriterError, SWritten};
use steps::{LoaderError, Loading, Refused, Start, Tally};
use writer::{WriterError, Written};

// The codes that are not the type of a record. A refusal's number is added to REFUSED.
const OK: u32 = 0;

const REFUSED: u32 = 256;

const DONE: u32 = 512;

const USED_UP: u32 = 513;

const NOT_STATED: u32 = 514;

const PASSED: u32 = 515;

const NOT_READY: u32 = 516;

const BAD_RECORD: u32 = 1024;

// The kind of a start that no record states.
const NO_START: u8 = 0;

// The count of a light that knows none. Every number from here on means that.
const COUNT_UNKNOWN: u32 = 65536;

// The flags of a reader. Each bit has its own meaning, and CR_WAITS is one of them too.
const STOP_AFTER_FIRST_ERROR: u8 = 1;

const STOP_AFTER_EOF: u8 = 2;

const FINISHED: u8 = 4;

// The flags of a listener. The remainder by PLACES is where it stands, and each bit from SRECORDS on has its own meaning.
const PLACES: u8 = 4;

const FRONT: u8 = 0;

const TAKING: u8 = 1;

const SKIPPING: u8 = 2;

const READY: u8 = 3;

const SRECORDS: u8 = 4;

const CR_WAITS: u8 = 8;

const LINEAR_BASE: u8 = 16;

const SEGMENT_START: u8 = 32;

const LINEAR_START: u8 = 64;

// In the number of a start CS is the high half, and IP the low one.
const CS_UNIT: u32 = 65536;

// An answer in numbers: its code, and up to three values, 0 where there is none.
#[derive(Clone, Copy)]
pub struct Coded {
    pub code: u32,
    pub a: u64,
    pub b: u64,
    pub c: u64,
}

// A code and its three values, most of which are 0.
fn four(code: u32, a: u64, b: u64, c: u64) -> Coded
    ensures { result ≡ record { code = code; a = a; b = b; c = c } }
{
    Coded { code, a, b, c }
}

// A refusal by its number, and two values.
fn refused(number: u8, a: u64, b: u64) -> Coded
    ensures { result ≡ record { code = 256 + number; a = a; b = b; c = 0 } }
{
    four(REFUSED + (number as u32), a, b, 0)
}

fn code_record(given: Record) -> Coded
    ensures { CodedAs (reading (told (Ok given))) result }
{
    match given {
        Record::Data { offset, at, len } => four(0, offset as u64, at as u64, len as u64),
        Record::EndOfFile => four(1, 0, 0, 0),
        Record::ExtendedSegmentAddress(n) => four(2, n as u64, 0, 0),
        Record::StartSegmentAddress { cs, ip } => four(3, cs as u64, ip as u64, 0),
        Record::ExtendedLinearAddress(n) => four(4, n as u64, 0, 0),
        Record::StartLinearAddress(n) => four(5, n as u64, 0, 0),
    }
}

fn code_error(e: ReaderError) -> Coded
    ensures { CodedAs (refused_with (refusal_of e)) result }
{
    let figures = e.figures();
    match figures.values {
        Values::Nothing => refused(figures.number, 0, 0),
        Values::Position(place) => refused(figures.number, place as u64, 0),
        Values::Byte(byte) => refused(figures.number, byte as u64, 0),
        Values::Bytes(first, second) => refused(figures.number, first as u64, second as u64),
    }
}

pub fn code_answer(answer: Answer) -> Coded
    ensures { CodedAs (reading (told answer)) result }
{
    match answer {
        Ok(r) => code_record(r),
        Err(e) => code_error(e),
    }
}

// The digit of the type, then address, position and length.
fn code_srecord(given: SRecord) -> Coded
    ensures { CodedAs (reading (told_sanswer (Ok given))) result }
{
    four(
        given.kind.digit() as u32,
        given.address as u64,
        given.at as u64,
        given.len as u64,
    )
}

pub fn code_sanswer(answer: SAnswer) -> Coded
    ensures { CodedAs (reading (told_sanswer answer)) result }
{
    match answer {
        Ok(r) => code_srecord(r),
        Err(e) => code_error(e),
    }
}

pub fn code_reply(reply: Reply) -> Coded
    ensures { CodedAs (reading (told_reply reply)) result }
{
    match reply {
        Some(Ok(r)) => code_record(r),
        Some(Err(e)) => code_error(e),
        None => four(DONE, 0, 0, 0),
    }
}

pub fn code_chunk_reply(reply: ChunkReply) -> Coded
    ensures { CodedAs (reading_chunk (word_of reply)) result }
{
    match reply {
        ChunkReply::Read(r) => code_record(r),
        ChunkReply::Refused(e) => code_error(e),
        ChunkReply::UsedUp => four(USED_UP, 0, 0, 0),
        ChunkReply::Done => four(DONE, 0, 0, 0),
        ChunkReply::CarryTooSmall => refused(refusals::CARRY_TOO_SMALL, 0, 0),
    }
}

fn code_writer_error(e: WriterError) -> Coded
    ensures { CodedAs (refused_with (writer_refusal e)) result }
{
    match e {
        WriterError::PayloadOutsidePool => refused(refusals::PAYLOAD_OUTSIDE_POOL, 0, 0),
        WriterError::DataExceedsMaximumLength(n) => refused(
            refusals::DATA_EXCEEDS_MAXIMUM_LENGTH,
            n as u64,
            0,
        ),
        WriterError::MissingEndOfFileRecord => refused(refusals::MISSING_END_OF_FILE_RECORD, 0, 0),
        WriterError::MultipleEndOfFileRecords(n) => refused(
            refusals::MULTIPLE_END_OF_FILE_RECORDS,
            n as u64,
            0,
        ),
        WriterError::OutputFull => refused(refusals::OUTPUT_FULL, 0, 0),
    }
}

// A length, or a refusal. The same is said of S-records and of pages by functions of their own: one for all would be handed the function of the error, and
// be no shorter.
fn code_written(answer: Written) -> Coded
    ensures { CodedAs (writing (some (told_written answer))) result }
{
    match answer {
        Ok(n) => four(OK, n as u64, 0, 0),
        Err(e) => code_writer_error(e),
    }
}

// What comes of an attempt to write, in numbers.
pub fn code_attempt(attempt: Option<Written>) -> Coded
    ensures { CodedAs (writing (told_attempt attempt)) result }
{
    match attempt {
        Some(answer) => code_written(answer),
        None => four(BAD_RECORD, 0, 0, 0),
    }
}

fn code_swriter_error(e: SWriterError) -> Coded
    ensures { CodedAs (refused_with (swriter_refusal e)) result }
{
    match e {
        SWriterError::PayloadOutsidePool => refused(refusals::PAYLOAD_OUTSIDE_POOL, 0, 0),
        SWriterError::InvalidLengthForType => refused(refusals::INVALID_LENGTH_FOR_TYPE, 0, 0),
        SWriterError::DataExceedsMaximumLength(n) => refused(
            refusals::DATA_EXCEEDS_MAXIMUM_LENGTH,
            n as u64,
            0,
        ),
        SWriterError::AddressTooWide => refused(refusals::ADDRESS_TOO_WIDE, 0, 0),
        SWriterError::OutputFull => refused(refusals::OUTPUT_FULL, 0, 0),
    }
}

fn code_swritten(answer: SWritten) -> Coded
    ensures { CodedAs (writing (some (told_swritten answer))) result }
{
    match answer {
        Ok(n) => four(OK, n as u64, 0, 0),
        Err(e) => code_swriter_error(e),
    }
}

// What comes of an attempt to write an S-record, in numbers.
pub fn code_sattempt(attempt: Option<SWritten>) -> Coded
    ensures { CodedAs (writing (told_sattempt attempt)) result }
{
    match attempt {
        Some(answer) => code_swritten(answer),
        None => four(BAD_RECORD, 0, 0, 0),
    }
}

fn code_loader_error(e: LoaderError) -> Coded
    ensures { CodedAs (refused_with (loader_refusal e)) result }
{
    match e {
        LoaderError::Line(why) => code_error(why),
        LoaderError::MissingEndOfFileRecord => refused(refusals::MISSING_END_OF_FILE_RECORD, 0, 0),
        LoaderError::BadWindow => refused(refusals::BAD_WINDOW, 0, 0),
        LoaderError::OutsideWindow(address) => refused(refusals::OUTSIDE_WINDOW, address as u64, 0),
        LoaderError::CountMismatch(stated, seen) => refused(
            refusals::COUNT_MISMATCH,
            stated as u64,
            seen as u64,
        ),
        LoaderError::StartConflict => refused(refusals::START_CONFLICT, 0, 0),
        LoaderError::BadTable => refused(refusals::BAD_TABLE, 0, 0),
    }
}

// An accepted load: the number of data records, then CS and IP, or the linear address.
fn code_tally(tally: Tally) -> Coded
    ensures { CodedAs (loading (accepted (tallied tally))) result }
{
    let records = tally.records as u64;
    match tally.start {
        None => four(OK, records, 0, 0),
        Some(Start::Segment { cs, ip }) => four(OK, records, cs as u64, ip as u64),
        Some(Start::Linear(address)) => four(OK, records, address as u64, 0),
    }
}

pub fn code_loading(answer: Loading) -> Coded
    ensures { CodedAs (loading (told_loading answer)) result }
{
    match answer {
        Ok(tally) => code_tally(tally),
        Err(r) => code_loader_error(r.why),
    }
}

// The number of the line that a refusal names.
pub fn line_at(answer: Loading) -> usize
    ensures { LineAt (told_loading answer) result }
{
    match answer {
        Ok(_) => 0,
        Err(r) => r.line,
    }
}

// The kind of start that an accepted load reports: the type of the record that states it in Intel HEX, and 0 for none.
pub fn start_kind(answer: Loading) -> u8
    ensures { StartKind (told_loading answer) result }
{
    match answer {
        Ok(
            Tally {
                start: Some(Start::Segment { .. }),
                ..
            },
        ) => types::START_SEGMENT_ADDRESS,
        Ok(
            Tally {
                start: Some(Start::Linear(_)),
                ..
            },
        ) => types::START_LINEAR_ADDRESS,
        _ => NO_START,
    }
}

fn code_page_error(e: PageError) -> Coded
    ensures { CodedAs (refused_with (page_refusal e)) result }
{
    match e {
        PageError::BadWindow => refused(refusals::BAD_WINDOW, 0, 0),
        PageError::BadMark(place) => refused(refusals::BAD_MARK, place as u64, 0),
        PageError::OutputFull => refused(refusals::OUTPUT_FULL, 0, 0),
    }
}

pub fn code_paged(answer: Paged) -> Coded
    ensures { CodedAs (writing (some (told_page answer))) result }
{
    match answer {
        Ok(n) => four(OK, n as u64, 0, 0),
        Err(e) => code_page_error(e),
    }
}

fn code_salvage_error(e: SalvageError) -> Coded
    ensures { CodedAs (refused_with (salvage_refusal e)) result }
{
    match e {
        SalvageError::OutputFull => refused(refusals::OUTPUT_FULL, 0, 0),
        SalvageError::ListFull => refused(refusals::LIST_FULL, 0, 0),
    }
}

// The length of the clean file, and how many entries the list has.
pub fn code_salvaged(answer: Salvaged) -> Coded
    ensures { CodedAs (salvaging (told_salvage answer)) result }
{
    match answer {
        Ok(Saved { length, entries }) => four(OK, length as u64, entries as u64, 0),
        Err(e) => code_salvage_error(e),
    }
}

// A byte that was asked, or that none is stated.
pub fn code_asked(answer: Asked) -> Coded
    ensures { CodedAs (asking (told_asked answer)) result }
{
    match answer {
        Ok(Some(byte)) => four(OK, byte as u64, 0, 0),
        Ok(None) => four(NOT_STATED, 0, 0, 0),
        Err(r) => code_loader_error(r.why),
    }
}

// The number of the line at which a text that was asked is refused.
pub fn asked_line(answer: Asked) -> usize
    ensures { AskedLine (told_asked answer) result }
{
    match answer {
        Ok(_) => 0,
        Err(r) => r.line,
    }
}

// Is this bit of the flags set? It is named by its value. A quotient and no `&`, as the contracts have it.
fn is_set(flags: u8, unit: u8) -> bool
    requires { 0 < unit }
    ensures { result ≡ bit flags unit }
{
    flags / unit % 2 == 1
}

// The state that stands in numbers: bit 0 of the flags is stop_after_first_error, bit 1 stop_after_eof, bit 2 finished.
pub fn state_from(position: usize, line: usize, flags: u8) -> State
    ensures { StateFrom position line flags result }
{
    State {
        position,
        line,
        finished: is_set(flags, FINISHED),
        options: ReaderOptions {
            stop_after_first_error: is_set(flags, STOP_AFTER_FIRST_ERROR),
            stop_after_eof: is_set(flags, STOP_AFTER_EOF),
        },
    }
}

// A bit's share of the flags, which are summed.
fn flag(set: bool, value: u8) -> u8
    ensures { Flag set value result }
{
    if set { value } else { 0 }
}

pub fn flags_from(s: State) -> u8
    ensures { FlagsFrom s result }
{
    flag(s.options.stop_after_first_error, STOP_AFTER_FIRST_ERROR)
        + (flag(s.options.stop_after_eof, STOP_AFTER_EOF) + flag(s.finished, FINISHED))
}

// The state of a reader of chunks that stands in numbers: bit 3 of the flags is cr.
pub fn chunks_from(
    position: usize,
    line: usize,
    empties: usize,
    used: usize,
    skipped: u16,
    flags: u8,
) -> Chunks
    ensures { ChunksFrom position line empties used skipped flags result }
{
    let state = state_from(position, line, flags);
    Chunks {
        position,
        line,
        empties,
        used,
        skipped,
        cr: is_set(flags, CR_WAITS),
        finished: state.finished,
        options: state.options,
    }
}

pub fn chunk_flags_from(s: Chunks) -> u8
    ensures { ChunkFlagsFrom s result }
{
    flag(s.options.stop_after_first_error, STOP_AFTER_FIRST_ERROR)
        + (flag(s.options.stop_after_eof, STOP_AFTER_EOF)
            + (flag(s.finished, FINISHED) + flag(s.cr, CR_WAITS)))
}

// A place in numbers: 0 for nowhere, 1 for the chunk, 2 for the carry; where it begins there, and how long it is.
#[derive(Clone, Copy)]
pub struct Spot {
    pub lies: u8,
    pub from: usize,
    pub len: usize,
}

pub fn spot_of(place: Place) -> Spot
    ensures { SpotAs place result }
{
    match place {
        Place::Nowhere => Spot {
            lies: 0,
            from: 0,
            len: 0,
        },
        Place::InChunk { from, len } => Spot { lies: 1, from, len },
        Place::InCarry { len } => Spot {
            lies: 2,
            from: 0,
            len,
        },
    }
}

pub fn place_from(lies: u8, from: usize, len: usize) -> Place
    ensures { PlaceFrom lies from len result }
{
    match lies {
        1 => Place::InChunk { from, len },
        2 => Place::InCarry { len },
        _ => Place::Nowhere,
    }
}

// Whether a window table is refused.
pub fn code_table(bad: bool) -> u32
    ensures { CodeTable bad result }
{
    if bad {
        REFUSED + (refusals::BAD_TABLE as u32)
    } else {
        OK
    }
}

// The number of a color. 0 is "broken", so that a number that was never written is not green.
pub fn color_number(color: Color) -> u8
    ensures { ColorNumber color result }
{
    color as u8
}

// A count in a number, if one is known.
pub fn count_number(known: Option<u16>) -> u32
    ensures { CountNumber known result }
{
    known.map_or(COUNT_UNKNOWN, |count| count as u32)
}

fn count_from(known: u32) -> Option<u16>
    ensures { result ≡ count_from known }
{
    u16::try_from(known).ok()
}

// The light that stands in numbers.
pub fn light_from(first: u32, length: usize, high: usize, low: usize, known: u32) -> Light
    ensures { LightFrom first length high low known result }
{
    Light {
        first,
        length,
        high,
        low,
        known: count_from(known),
    }
}

// Whether a light was set up.
pub fn code_made(made: Option<Light>) -> u32
    ensures { CodeMade made result }
{
    match made {
        Some(_) => OK,
        None => REFUSED + (refusals::BAD_PLACE as u32),
    }
}

// A listener in numbers. Bits 0 and 1 of the flags say where it stands: at the front of a text, in a dump, passing over, or ready. Bit 2 is S-records, bit 3 a CR that waits, bit 4 a linear base, bit 5 a start by CS and IP, bit 6 a linear start. What is not used is 0.
#[derive(Clone, Copy)]
pub struct Stand {
    pub flags: u8,
    pub skipped: u16,
    pub base: u16,
    pub begin: u32,
    pub lines: usize,
    pub used: usize,
    pub records: usize,
}

fn kind_from(flags: u8) -> Kind
    ensures { result ≡ kind_of flags }
{
    if is_set(flags, SRECORDS) {
        Kind::SRecords
    } else {
        Kind::Hex
    }
}

fn kind_flag(kind: Kind) -> u8
    ensures { KindFlag kind result }
{
    match kind {
        Kind::Hex => 0,
        Kind::SRecords => SRECORDS,
    }
}

fn base_from(flags: u8, base: u16) -> Base
    ensures { result ≡ base_of flags base }
{
    if is_set(flags, LINEAR_BASE) {
        Base::Linear(base)
    } else {
        Base::Segment(base)
    }
}

fn base_flag(base: Base) -> u8
    ensures { BaseFlag base result }
{
    match base {
        Base::Segment(_) => 0,
        Base::Linear(_) => LINEAR_BASE,
    }
}

fn base_number(base: Base) -> u16
    ensures { result ≡ base_number base }
{
    match base {
        Base::Segment(n) | Base::Linear(n) => n,
    }
}

fn start_from(flags: u8, begin: u32) -> Option<Start>
    ensures { result ≡ start_of flags begin }
{
    if is_set(flags, LINEAR_START) {
        Some(Start::Linear(begin))
    } else if is_set(flags, SEGMENT_START) {
        Some(Start::Segment {
            cs: (begin / CS_UNIT) as u16,
            ip: (begin % CS_UNIT) as u16,
        })
    } else {
        None
    }
}

fn start_flag(start: Option<Start>) -> u8
    ensures { StartFlag start result }
{
    match start {
        None => 0,
        Some(Start::Segment { .. }) => SEGMENT_START,
        Some(Start::Linear(_)) => LINEAR_START,
    }
}

fn start_number(start: Option<Start>) -> u32
    ensures { StartNumber start result }
{
    match start {
        None => 0,
        Some(Start::Segment { cs, ip }) => CS_UNIT * (cs as u32) + (ip as u32),
        Some(Start::Linear(address)) => address,
    }
}

// The listener that stands in these numbers.
pub fn listener_from(
    flags: u8,
    skipped: u16,
    base: u16,
    begin: u32,
    lines: usize,
    used: usize,
    records: usize,
) -> Listener
    ensures { ListenerFrom flags skipped base begin lines used records result }
{
    let kind = kind_from(flags);
    let cr = is_set(flags, CR_WAITS);
    match flags % PLACES {
        FRONT => Listener::Front(kind, cr),
        READY => Listener::Ready(kind),
        place => Listener::Within(Intake {
            kind,
            tail: place == SKIPPING,
            line: lines,
            used,
            skipped,
            cr,
            base: base_from(flags, base),
            tally: Tally {
                records,
                start: start_from(flags, begin),
            },
        }),
    }
}

fn within(s: Intake) -> Stand
    ensures { StandOf (Listener.Within s) result }
{
    let start = s.tally.start;
    Stand {
        flags: TAKING
            + (flag(s.tail, SKIPPING - TAKING)
                + (kind_flag(s.kind)
                    + (flag(s.cr, CR_WAITS) + (base_flag(s.base) + start_flag(start))))),
        skipped: s.skipped,
        base: base_number(s.base),
        begin: start_number(start),
        lines: s.line,
        used: s.used,
        records: s.tally.records,
    }
}

fn bare(flags: u8) -> Stand
    ensures { result ≡ bare flags }
{
    Stand {
        flags,
        skipped: 0,
        base: 0,
        begin: 0,
        lines: 0,
        used: 0,
        records: 0,
    }
}

// The numbers of a listener.
pub fn stand_of(l: Listener) -> Stand
    ensures { StandOf l result }
{
    match l {
        Listener::Front(kind, cr) => bare(kind_flag(kind) + flag(cr, CR_WAITS)),
        Listener::Within(s) => within(s),
        Listener::Ready(kind) => bare(READY + kind_flag(kind)),
    }
}

// What is said of a chunk or a pause, in numbers.
pub fn code_said(said: Said) -> Coded
    ensures { CodeSaid said result }
{
    match said {
        Said::WantsMore => four(USED_UP, 0, 0, 0),
        Said::Decided(answer) => code_loading(answer),
        Said::Passed => four(PASSED, 0, 0, 0),
        Said::Quiet => four(DONE, 0, 0, 0),
        Said::CarryTooSmall => refused(refusals::CARRY_TOO_SMALL, 0, 0),
    }
}

// The number of the line that a refusal names, and 0 for all else.
pub fn said_line(said: Said) -> usize
    ensures { SaidLine said result }
{
    match said {
        Said::Decided(answer) => line_at(answer),
        _ => 0,
    }
}

// The kind of start that an accepted dump reports, and 0 for all else.
pub fn said_start(said: Said) -> u8
    ensures { SaidStart said result }
{
    match said {
        Said::Decided(answer) => start_kind(answer),
        _ => NO_START,
    }
}

// What a commit comes to, in numbers.
pub fn code_committed(c: Committed) -> u32
    ensures { CodeCommitted c result }
{
    match c {
        Ok(_) => OK,
        Err(CommitError::NotReady) => NOT_READY,
        Err(CommitError::BadWindow) => REFUSED + (refusals::BAD_WINDOW as u32),
    }
}

// An answer that says no more than whether a load was accepted: code 0 is that it was.
pub fn answer_from(code: u32) -> Loading
    ensures { AnswerFrom code result }
{
    if code == OK {
        Ok(Tally {
            records: 0,
            start: None,
        })
    } else {
        Err(LoaderError::MissingEndOfFileRecord.at(0))
    }
}
