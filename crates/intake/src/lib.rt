#![tactic(auto)]
// A load that is fed, or a tail that is passed over: a text that comes in chunks is taken line by line, and decided as soon as a line decides it.
ghost use Rattle.std.specs.Prelude.{◌≡◌, false, ◌||◌, length, nat_lt};
ghost use Rattle.window.specs.Window.{unfit};
ghost use Rattle.steps.specs.Told.{told_loading};
ghost use Rattle.intel.specs.Placing.{intel};
ghost use Rattle.srecload.specs.Placing.{s_records};
ghost use Rattle.intake.specs.Past.{ends_text};
ghost use Rattle.intake.specs.Ways.{way_of};
ghost use Rattle.intake.specs.Intake.{fresh, spoilt, Feeds};
ghost use Rattle.intake.specs.Ending.{Begins, BeginsTail, answers, EndsSo, Finishes};
ghost use Rattle.intake.specs.Helpers.{verdict_in_line, Turned, is_end, passes, UnderWay, LineHeard, HeardSo, AllSo, walk_of, paused};

use chunks::{Chunks, LineReply};
use loader::Base;
use reader::ReaderOptions;
use record::{Record, char_counts, payload_sizes};
use srec::SType;
use steps::{LoaderError, Loading, Tally};

// The most data bytes that an S-record has.
const MOST_DATA: usize = 252;

// The kind of text that is fed.
#[derive(Clone, Copy)]
pub enum Kind {
    Hex,
    SRecords,
}

// Where a load stands between two chunks.
#[derive(Clone, Copy)]
pub struct Intake {
    pub kind: Kind,
    // Is everything through the next end record passed over? Then nothing is staged and no line is refused.
    pub tail: bool,
    // How many lines have ended.
    pub line: usize,
    // The line that is begun: `used` bytes of the carry, and a CR after them where `cr` is set. Of a line over 522 bytes so many digits were left
    // out before the last of those bytes, 65,535 for any number beyond that.
    pub used: usize,
    pub skipped: u16,
    pub cr: bool,
    // The base in force, and what was met so far. S-records have no base, and no start before their end. A tail leaves both as they are.
    pub base: Base,
    pub tally: Tally,
}

// What a chunk comes to.
#[derive(Clone, Copy)]
pub enum Reply {
    // No line has decided, and the next chunk is wanted.
    WantsMore(Intake),
    // The answer of the load, and how many bytes of the chunk were used.
    Decided(Loading, usize),
    // A carry under 522 bytes, or a state that counts more than 522 used.
    CarryTooSmall,
}

// How lines are taken: those of a kind of text, or of a tail of one.
#[derive(Clone, Copy)]
struct Mode {
    kind: Kind,
    tail: bool,
}

// Where a load stands in a chunk.
#[derive(Clone, Copy)]
struct Walk {
    reader: Chunks,
    base: Base,
    tally: Tally,
}

// What a line comes to: the base and the tally after it, or the answer. No Result, since neither is an error: an answer may be an acceptance.
#[derive(Clone, Copy)]
enum Turn {
    On(Base, Tally),
    Stop(Loading),
}

// What the next line of a chunk comes to: there is none, the load goes on, or it is decided after so many bytes.
#[derive(Clone, Copy)]
enum Heard {
    UsedUp(Walk),
    On(Walk),
    Stop(Loading, usize),
}

// The answer to the bytes that are kept of a line, as the answer to the line.
fn in_line(answer: Loading, skipped: u16) -> Loading
    ensures { told_loading result ≡ verdict_in_line skipped (told_loading answer) }
{
    answer.map_err(|refused| match refused.why {
        LoaderError::Line(e) => {
            LoaderError::Line(chunks::refusal_in_line(e, skipped)).at(refused.line)
        }
        _ => refused,
    })
}

// Takes a line of Intel HEX of which these bytes are kept, with so many digits left out.
// The window's first address, page and marks stay three parameters here and below: the loaders take them so, and a struct that borrows both slices would
// be taken apart at each call.
fn take_hex(
    line: &[u8],
    skipped: u16,
    number: usize,
    w: Walk,
    first: u32,
    page: &mut [u8],
    marks: &mut [u8],
) -> Turn
    requires { unfit first (length page.old) (length marks.old) ≡ false }
    ensures { Turned (way_of Kind.Hex false) line.now skipped number w.base w.tally first page.old marks.old result page.new marks.new }
{
    match loader::take_line(line, number, w.base, w.tally, first, page, marks) {
        loader::Taken::On(after, t) => Turn::On(after, t),
        loader::Taken::Stop(answer) => Turn::Stop(in_line(answer, skipped)),
    }
}

// The same for a line of S-records.
fn take_srecord(
    line: &[u8],
    skipped: u16,
    number: usize,
    w: Walk,
    first: u32,
    page: &mut [u8],
    marks: &mut [u8],
) -> Turn
    requires { unfit first (length page.old) (length marks.old) ≡ false }
    ensures { Turned (way_of Kind.SRecords false) line.now skipped number w.base w.tally first page.old marks.old result page.new marks.new }
{
    match srecload::take_line(line, number, w.tally.records, first, page, marks) {
        srecload::Taken::On(records) => Turn::On(
            w.base,
            Tally {
                records,
                start: None,
            },
        ),
        srecload::Taken::Stop(answer) => Turn::Stop(in_line(answer, skipped)),
    }
}

// Is a line of Intel HEX the end record?
fn is_end_hex(line: &[u8]) -> bool
    ensures { result ≡ ends_text intel line.now }
{
    let mut pool = [0u8; payload_sizes::MOST_DATA];
    match reader::read_record(line, &mut pool, 0) {
        Ok(given) => matches!(given, Record::EndOfFile),
        Err(_) => false,
    }
}

// Is a line of S-records an end record? Types 7 to 9 are.
fn is_end_srecord(line: &[u8]) -> bool
    ensures { result ≡ ends_text s_records line.now }
{
    let mut pool = [0u8; MOST_DATA];
    match srec::read_srecord(line, &mut pool, 0) {
        Ok(given) => matches!(given.kind, SType::S7 | SType::S8 | SType::S9),
        Err(_) => false,
    }
}

// Does a line of this kind end its text?
fn is_end(kind: Kind, line: &[u8]) -> bool
    ensures { result ≡ is_end kind line.now }
{
    match kind {
        Kind::Hex => is_end_hex(line),
        Kind::SRecords => is_end_srecord(line),
    }
}

// Passes over a line of a tail: only the end decides, and nothing was met.
fn pass(kind: Kind, line: &[u8], w: Walk) -> Turn
    ensures { result ≡ passes (is_end kind line.now) w.base w.tally }
{
    if is_end(kind, line) {
        Turn::Stop(Ok(Tally {
            records: 0,
            start: None,
        }))
    } else {
        Turn::On(w.base, w.tally)
    }
}

// Takes a line of either kind, or passes over it.
fn take(
    mode: Mode,
    line: &[u8],
    skipped: u16,
    number: usize,
    w: Walk,
    first: u32,
    page: &mut [u8],
    marks: &mut [u8],
) -> Turn
    requires { unfit first (length page.old) (length marks.old) ≡ false }
    ensures { Turned (way_of mode.kind mode.tail) line.now skipped number w.base w.tally first page.old marks.old result page.new marks.new }
{
    if mode.tail {
        return pass(mode.kind, line, w);
    }
    match mode.kind {
        Kind::Hex => take_hex(line, skipped, number, w, first, page, marks),
        Kind::SRecords => take_srecord(line, skipped, number, w, first, page, marks),
    }
}

// Takes the line that was found last, with where the reader stands after it.
fn hear(
    mode: Mode,
    line: &[u8],
    skipped: u16,
    after: Chunks,
    w: Walk,
    first: u32,
    page: &mut [u8],
    marks: &mut [u8],
) -> Heard
    requires { unfit first (length page.old) (length marks.old) ≡ false }
    ensures { LineHeard (way_of mode.kind mode.tail) line.now skipped after w first page.old marks.old result page.new marks.new }
{
    match take(mode, line, skipped, after.line, w, first, page, marks) {
        Turn::On(base, tally) => Heard::On(Walk {
            reader: after,
            base,
            tally,
        }),
        Turn::Stop(answer) => Heard::Stop(answer, after.position),
    }
}

// The next line of a chunk, and what it comes to.
fn take_next(
    mode: Mode,
    w: Walk,
    chunk: &[u8],
    carry: &mut [u8],
    first: u32,
    page: &mut [u8],
    marks: &mut [u8],
) -> Heard
    requires { UnderWay w.reader carry.old × (unfit first (length page.old) (length marks.old) ≡ false) }
    ensures { HeardSo (way_of mode.kind mode.tail) first w chunk.now carry.old page.old marks.old result carry.new page.new marks.new }
{
    let step = w.reader.next_line(chunk, carry);
    let after = step.state;
    match step.reply {
        LineReply::InChunk { from, len } => {
            let to = from + len;
            hear(mode, &chunk[from..to], 0, after, w, first, page, marks)
        }
        LineReply::InCarry { len, skipped } => {
            hear(mode, &carry[..len], skipped, after, w, first, page, marks)
        }
        LineReply::UsedUp => Heard::UsedUp(Walk { reader: after, ..w }),
        LineReply::Done | LineReply::CarryTooSmall => Heard::UsedUp(w),
    }
}

// What was met, as a state holds it: S-records state no start before their end.
fn met(mode: Mode, tally: Tally) -> Tally
    ensures { result ≡ (way_of mode.kind mode.tail).held tally }
{
    if mode.tail {
        return tally;
    }
    match mode.kind {
        Kind::Hex => tally,
        Kind::SRecords => Tally {
            start: None,
            ..tally
        },
    }
}

// Where a load stands after a chunk that is used up. Of a line of which fewer than 522 bytes are used no digit was left out.
fn pause(mode: Mode, w: Walk) -> Intake
    ensures { result ≡ paused mode.kind mode.tail w }
{
    let reader = w.reader;
    Intake {
        kind: mode.kind,
        tail: mode.tail,
        line: reader.line.wrapping_add(reader.empties),
        used: reader.used,
        skipped: if reader.used < char_counts::MOST_KEPT {
            0
        } else {
            reader.skipped
        },
        cr: reader.cr,
        base: w.base,
        tally: met(mode, w.tally),
    }
}

// All lines of a chunk, up to one that decides, and the reply.
fn take_all(
    mode: Mode,
    w: Walk,
    chunk: &[u8],
    carry: &mut [u8],
    first: u32,
    page: &mut [u8],
    marks: &mut [u8],
) -> Reply
    requires { UnderWay w.reader carry.old × (unfit first (length page.old) (length marks.old) ≡ false) }
    ensures { AllSo mode.kind mode.tail first w chunk.now carry.old page.old marks.old result carry.new page.new marks.new }
{
    let mut there = w;
    // No `for`: each turn takes a whole line, so there is no index to count.
    loop {
        match take_next(mode, there, chunk, carry, first, page, marks) {
            Heard::UsedUp(end) => return Reply::WantsMore(pause(mode, end)),
            Heard::On(next) => there = next,
            Heard::Stop(answer, used) => return Reply::Decided(answer, used),
        }
    }
}

// Where a load stands at the front of a chunk.
fn stand(s: Intake) -> Walk
    ensures { result ≡ walk_of s }
{
    Walk {
        reader: Chunks {
            position: 0,
            line: s.line,
            empties: 0,
            used: s.used,
            skipped: s.skipped,
            cr: s.cr,
            finished: false,
            options: ReaderOptions::default(),
        },
        base: s.base,
        tally: s.tally,
    }
}

// The answer where the text ends after a line.
fn answer_after(turn: Turn) -> Loading
    ensures { result ≡ answers turn }
{
    match turn {
        Turn::On(_, _) => Err(LoaderError::MissingEndOfFileRecord.at(0)),
        Turn::Stop(answer) => answer,
    }
}

// The last line of a text, and the answer.
fn take_last(s: Intake, carry: &mut [u8], first: u32, page: &mut [u8], marks: &mut [u8]) -> Loading
    requires { (spoilt s carry.old ≡ false) × (unfit first (length page.old) (length marks.old) ≡ false) }
    ensures { EndsSo (way_of s.kind s.tail) first s carry.old page.old marks.old result page.new marks.new }
{
    let w = stand(s);
    let step = w.reader.last_line(carry);
    let after = step.state;
    match step.reply {
        LineReply::InCarry { len, skipped } => answer_after(take(
            s.mode(),
            &carry[..len],
            skipped,
            after.line,
            w,
            first,
            page,
            marks,
        )),
        _ => Err(LoaderError::MissingEndOfFileRecord.at(0)),
    }
}

// Before the first line of a text, or of a tail.
fn renew(kind: Kind, tail: bool) -> Intake
    ensures { result ≡ fresh kind tail }
{
    Intake {
        kind,
        tail,
        line: 0,
        used: 0,
        skipped: 0,
        cr: false,
        base: Base::Segment(0),
        tally: Tally {
            records: 0,
            start: None,
        },
    }
}

impl Intake {
    // How the lines of this load are taken.
    fn mode(self) -> Mode
        ensures { result ≡ record { kind = self.kind; tail = self.tail } }
    {
        Mode {
            kind: self.kind,
            tail: self.tail,
        }
    }

    // Is a carry of so many bytes too small, or are more than 522 counted as used?
    fn is_spoilt(self, carry: usize) -> bool
        ensures { result ≡ (nat_lt carry 522 || nat_lt 522 self.used) }
    {
        carry < char_counts::MOST_KEPT || self.used > char_counts::MOST_KEPT
    }

    // At the beginning of a text of this kind: no place of the staging page is stated yet.
    pub fn begin(kind: Kind, stated: &mut [u8]) -> Intake
        ensures { Begins kind stated.old result stated.new }
    {
        marks::clear(stated);
        renew(kind, false)
    }

    // Where a tail of such a text begins, or anything that is to be passed over: the load is decided after the next end record.
    pub fn begin_tail(kind: Kind) -> Intake
        ensures { BeginsTail kind result }
    {
        renew(kind, true)
    }

    // Feeds a chunk: its lines are taken into the staging page as they end, up to one that decides.
    pub fn feed(
        self,
        chunk: &[u8],
        carry: &mut [u8],
        first: u32,
        stage: &mut [u8],
        stated: &mut [u8],
    ) -> Reply
        ensures { Feeds self chunk.now carry.old first stage.old stated.old result carry.new stage.new stated.new }
    {
        if self.is_spoilt(carry.len()) {
            return Reply::CarryTooSmall;
        }
        if window::is_unfit(first, stage.len(), stated.len()) {
            return Reply::Decided(Err(LoaderError::BadWindow.at(0)), 0);
        }
        take_all(self.mode(), stand(self), chunk, carry, first, stage, stated)
    }

    // Ends the text: the line that is begun is its last. None for a carry under 522 bytes, or a state that counts more than 522 used.
    pub fn finish(
        self,
        carry: &mut [u8],
        first: u32,
        stage: &mut [u8],
        stated: &mut [u8],
    ) -> Option<Loading>
        ensures { Finishes self carry.old first stage.old stated.old result carry.new stage.new stated.new }
    {
        if self.is_spoilt(carry.len()) {
            return None;
        }
        if window::is_unfit(first, stage.len(), stated.len()) {
            return Some(Err(LoaderError::BadWindow.at(0)));
        }
        Some(take_last(self, carry, first, stage, stated))
    }
}
