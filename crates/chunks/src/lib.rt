#![tactic(auto)]
// A text that comes in chunks, read to the answers of the whole text.
ghost use Rattle.std.specs.Prelude.{◌≡◌, ◌+◌, ◌≤◌, false, length, drop};
ghost use Rattle.std.proofs.Math.Option.{none};
ghost use Rattle.std.proofs.Math.Seq.{paste};
ghost use Rattle.digits.specs.Digits.{is_digit};
ghost use Rattle.record.specs.Line.{judge};
ghost use Rattle.reader.specs.Told.{refusal_of, told};
ghost use Rattle.reader.specs.Answer.{Reads};
ghost use Rattle.reader.specs.Text.{default_options};
ghost use Rattle.chunks.specs.Begun.{seek, stands_for, push as pushed, with_CR, add as added};
ghost use Rattle.chunks.specs.Next.{kept_in, left_out, begun, past_line, number_behind, NextChunk, Finish, NewChunks, PartOf, Shown};
ghost use Rattle.chunks.specs.Line.{of_found, Finds, NextLine, LastLine};
ghost use Rattle.chunks.specs.Helpers.{held, has_line, Grown, UpToLF, ends_in_CR, seek_at, CutAt, place_in_line, refusal_in_line, told_in_line, Settles, Plain};

use reader::{Answer, ReaderError, ReaderOptions};
use record::char_counts::MOST_KEPT;
use record::{Record, chars};

// The last place of the carry that a line uses, and the same as a refusal names it.
const LAST_KEPT: usize = MOST_KEPT - 1;

const LAST_KEPT_NAMED: u16 = LAST_KEPT as u16;

// From so many bytes of the chunk on it pays to copy a line in one go.
const LEAST_COPIED: usize = 16;

// Where a reader of chunks stands.
#[derive(Clone, Copy)]
pub struct Chunks {
    // Where the next call goes on in its chunk.
    pub position: usize,
    // The number of the line that was answered last, and how many empty lines were passed behind it.
    pub line: usize,
    pub empties: usize,
    // The line that is begun: `used` bytes of the carry, and a CR behind them where `cr` is set. Of a line over 522 bytes `skipped`
    // digits, 65,535 for any number beyond that, were left out ahead of the last of those bytes.
    pub used: usize,
    pub skipped: u16,
    pub cr: bool,
    // Only "done" is answered, or 18.
    pub finished: bool,
    // Which answers end the reading before the text does.
    pub options: ReaderOptions,
}

// What a call answers. Five ways on, of which a `Result` of an `Option` would name three alone.
#[derive(Clone, Copy)]
pub enum ChunkReply {
    Read(Record),
    Refused(ReaderError),
    // The chunk holds no more answers.
    UsedUp,
    Done,
    // A carry under 522 bytes, or a state that counts more than 522 used.
    CarryTooSmall,
}

// Where the line lies that gave a record.
#[derive(Clone, Copy)]
pub enum Place {
    Nowhere,
    InChunk { from: usize, len: usize },
    InCarry { len: usize },
}

// A reply, where the reader stands then, and where the line lies that gave the record.
#[derive(Clone, Copy)]
pub struct ChunkStep {
    pub reply: ChunkReply,
    pub state: Chunks,
    pub lies: Place,
}

// What a search for the next line answers: where the line lies, or why there is none. Of a line in the carry so many digits were left
// out before its last byte.
#[derive(Clone, Copy)]
pub enum LineReply {
    InChunk { from: usize, len: usize },
    InCarry { len: usize, skipped: u16 },
    UsedUp,
    Done,
    CarryTooSmall,
}

// The reply, and where the reader stands then: after a line, as after one that was answered and does not stop the reader.
#[derive(Clone, Copy)]
pub struct LineStep {
    pub reply: LineReply,
    pub state: Chunks,
}

// How much of a line the carry holds, and how much was left out.
// Functions take these numbers one by one: with one struct of them all, passed by value, the code is some 260 bytes longer.
#[derive(Clone, Copy)]
struct Taken {
    used: usize,
    skipped: u16,
}

// The same, and whether a CR waits.
#[derive(Clone, Copy)]
struct Held {
    used: usize,
    skipped: u16,
    cr: bool,
}

// The same, and how far the chunk was taken into it.
#[derive(Clone, Copy)]
struct Gathered {
    position: usize,
    used: usize,
    skipped: u16,
    cr: bool,
}

// A line that ends in the chunk and has a byte, or where the line begins that does not end in it.
#[derive(Clone, Copy)]
enum Cut {
    Whole {
        from: usize,
        len: usize,
        next: usize,
        empties: usize,
    },
    Open {
        from: usize,
        empties: usize,
    },
}

// A part of a slice, as much of it as there is.
fn part<'a>(s: &'a [u8], from: usize, len: usize) -> &'a [u8]
    ensures { PartOf s.entry from len result }
{
    if from > s.len() {
        return &s[..0];
    }
    let rest = &s[from..];
    let n = len.min(rest.len());
    &rest[..n]
}

// The line that gave a record, in the buffer where it lies; nothing after any other answer.
pub fn shown<'a>(lies: Place, chunk: &'a [u8], carry: &'a [u8]) -> &'a [u8]
    ensures { Shown lies chunk.entry carry.entry result }
{
    match lies {
        Place::InChunk { from, len } => part(chunk, from, len),
        Place::InCarry { len } => part(carry, 0, len),
        Place::Nowhere => part(chunk, 0, 0),
    }
}

// Whether a byte is a hexadecimal digit.
fn is_digit(c: u8) -> bool
    ensures { result ≡ is_digit c }
{
    digits::digit_value(c) < 16
}

// One byte more of the line in the carry. Behind 521 only one is kept: the first that is no digit, or the last. The digits that it
// replaces are counted, up to 65,535.
fn push(carry: &mut [u8], used: usize, skipped: u16, c: u8) -> Taken
    requires { (used ≤ 522) × (522 ≤ length carry.old) }
    ensures { Grown carry.old used (pushed (kept_in carry.old used skipped) c) result.used result.skipped carry.new }
{
    if used < MOST_KEPT {
        carry[used] = c;
        return Taken {
            used: used + 1,
            skipped,
        };
    }
    if is_digit(carry[LAST_KEPT]) {
        carry[LAST_KEPT] = c;
        return Taken {
            used,
            skipped: skipped.saturating_add(1),
        };
    }
    Taken { used, skipped }
}

// The CR that waited is the line's.
fn with_cr(carry: &mut [u8], used: usize, skipped: u16, cr: bool) -> Taken
    requires { (used ≤ 522) × (522 ≤ length carry.old) }
    ensures { Grown carry.old used (with_CR (held carry.old used skipped cr)) result.used result.skipped carry.new }
{
    if cr {
        return push(carry, used, skipped, chars::CR);
    }
    Taken { used, skipped }
}

// A byte that is no LF.
fn add(carry: &mut [u8], used: usize, skipped: u16, cr: bool, c: u8) -> Held
    requires { (used ≤ 522) × (522 ≤ length carry.old) }
    ensures grown { Grown carry.old used (added (held carry.old used skipped cr) c).kept result.used result.skipped carry.new }
    ensures cr_value { result.cr ≡ (added (held carry.old used skipped cr) c).cr }
{
    let n = with_cr(carry, used, skipped, cr);
    let is_cr = c == chars::CR;
    if is_cr {
        return Held {
            used: n.used,
            skipped: n.skipped,
            cr: true,
        };
    }
    let m = push(carry, n.used, n.skipped, c);
    Held {
        used: m.used,
        skipped: m.skipped,
        cr: false,
    }
}

// Takes the chunk's bytes from a position into the carry one by one, up to a LF or the chunk's end.
#[inline(never)]
fn gather_bytes(
    chunk: &[u8],
    position: usize,
    carry: &mut [u8],
    used: usize,
    skipped: u16,
    cr: bool,
) -> Gathered
    requires { (position ≤ length chunk.now) × (used ≤ 522) × (522 ≤ length carry.old) }
    ensures up_to_lf { UpToLF chunk.now position (held carry.old used skipped cr) result.position (held carry.new result.used result.skipped result.cr) }
    ensures grown { Grown carry.old used (kept_in carry.new result.used result.skipped) result.used result.skipped carry.new }
{
    let mut n = used;
    let mut k = skipped;
    let mut w = cr;
    for i in position..chunk.len() {
        let c = chunk[i];
        if c == chars::LF {
            return Gathered {
                position: i,
                used: n,
                skipped: k,
                cr: w,
            };
        }
        let h = add(carry, n, k, w, c);
        n = h.used;
        k = h.skipped;
        w = h.cr;
    }
    Gathered {
        position: chunk.len(),
        used: n,
        skipped: k,
        cr: w,
    }
}

// Copies a line into the carry, after the used bytes.
fn copy(line: &[u8], carry: &mut [u8], used: usize)
    requires { used + length line.now ≤ length carry.old }
    ensures { carry.new ≡ paste carry.old used line.now (length line.now) }
{
    copying::copy(line, &mut carry[used..]);
}

fn ends_in_cr(line: &[u8]) -> bool
    ensures { result ≡ ends_in_CR line.now }
{
    matches!(line, [.., chars::CR])
}

// The same as `gather_bytes`, but in one go where no CR waits, the line fits, and the chunk has bytes enough that it pays.
fn gather(
    chunk: &[u8],
    position: usize,
    carry: &mut [u8],
    used: usize,
    skipped: u16,
    cr: bool,
) -> Gathered
    requires { (position ≤ length chunk.now) × (used ≤ 522) × (522 ≤ length carry.old) }
    ensures up_to_lf { UpToLF chunk.now position (held carry.old used skipped cr) result.position (held carry.new result.used result.skipped result.cr) }
    ensures grown { Grown carry.old used (kept_in carry.new result.used result.skipped) result.used result.skipped carry.new }
{
    if cr || chunk.len() - position < LEAST_COPIED {
        return gather_bytes(chunk, position, carry, used, skipped, cr);
    }
    let mut n = 0;
    let line = reader::first_line(&chunk[position..], &mut n);
    let len = line.len();
    if len > MOST_KEPT - used {
        return gather_bytes(chunk, position, carry, used, skipped, cr);
    }
    copy(line, carry, used);
    let behind = position + n;
    if n > len {
        return Gathered {
            position: behind - 1,
            used: used + len,
            skipped,
            cr: false,
        };
    }
    if ends_in_cr(line) {
        return Gathered {
            position: behind,
            used: used + len - 1,
            skipped,
            cr: true,
        };
    }
    Gathered {
        position: behind,
        used: used + len,
        skipped,
        cr: false,
    }
}

// The first line from a position on that ends in the chunk and has a byte, where nothing is begun.
fn find(chunk: &[u8], position: usize, empties: usize) -> Cut
    requires { position ≤ length chunk.now }
    ensures { CutAt chunk.now position empties result }
{
    let mut from = position;
    let mut passed = empties;
    // A while: each turn passes a whole line, so there is no index to count.
    while from < chunk.len() {
        let mut n = 0;
        let line = reader::first_line(&chunk[from..], &mut n);
        let len = line.len();
        let next = from + n;
        if chunk[next - 1] != chars::LF {
            return Cut::Open {
                from,
                empties: passed,
            };
        }
        if len > 0 {
            return Cut::Whole {
                from,
                len,
                next,
                empties: passed,
            };
        }
        from = next;
        passed = passed.wrapping_add(1);
    }
    Cut::Open {
        from,
        empties: passed,
    }
}

// The number of a line, with so many empty lines ahead of it since the last one that was answered.
fn number_behind(s: Chunks, empties: usize) -> usize
    ensures { result ≡ number_behind s empties }
{
    s.line.wrapping_add(empties.wrapping_add(1))
}

// The state behind a line that was answered.
fn past_line(s: Chunks, position: usize, line: usize, finished: bool) -> Chunks
    ensures { result ≡ past_line s position line finished }
{
    Chunks {
        position,
        line,
        finished,
        ..Chunks::new_with_options(s.options)
    }
}

// A reply that names no line.
fn plain(reply: ChunkReply, state: Chunks) -> ChunkStep
    ensures { Plain reply state result }
{
    ChunkStep {
        reply,
        state,
        lies: Place::Nowhere,
    }
}

// The place in a line of a byte at a place of the carry, with so many left out ahead of the last of 522.
fn place_in_line(place: u16, skipped: u16) -> u16
    ensures { result ≡ place_in_line skipped place }
{
    if place != LAST_KEPT_NAMED {
        return place;
    }
    place.saturating_add(skipped)
}

// A refusal of what a carry holds, as one of its line: one that names the carry's last byte names its place there.
pub fn refusal_in_line(e: ReaderError, skipped: u16) -> ReaderError
    ensures { refusal_of result ≡ refusal_in_line skipped (refusal_of e) }
{
    if let ReaderError::ContainsInvalidCharacters(place) = e {
        return ReaderError::ContainsInvalidCharacters(place_in_line(place, skipped));
    }
    e
}

// The answer to what a carry holds, as the answer to its line.
fn answer_in_line(answer: Answer, skipped: u16) -> Answer
    ensures { told result ≡ told_in_line skipped (told answer) }
{
    answer.map_err(|e| refusal_in_line(e, skipped))
}

// Reads the line of which these bytes are kept, with so many left out.
fn read_kept(bytes: &[u8], skipped: u16, pool: &mut [u8], at: usize) -> Answer
    requires { length bytes.now ≤ 522 }
    ensures { Reads (judge (stands_for (record { bytes = bytes.now; skipped = skipped }))) pool.old at result pool.new }
{
    answer_in_line(reader::read_record(bytes, pool, at), skipped)
}

// A reply that names no line, with a state.
fn idle(reply: LineReply, state: Chunks) -> LineStep
    ensures { result ≡ record { reply = reply; state = state } }
{
    LineStep { reply, state }
}

// The reply to a line that was answered, and the state behind it; PoolFull does not use the line up. `found` is the state behind the
// line as the search for it left it.
fn settle(s: Chunks, answer: Answer, found: Chunks, last: bool, lies: Place) -> ChunkStep
    ensures { Settles s (told answer) found.position found.line last lies result }
{
    match answer {
        Ok(r) => {
            let finished = last || s.options.ends(r);
            ChunkStep {
                reply: ChunkReply::Read(r),
                state: past_line(s, found.position, found.line, finished),
                lies,
            }
        }
        Err(e) if e.is_pool_full() => plain(ChunkReply::Refused(e), s),
        Err(e) => {
            let finished = last || s.options.stop_after_first_error;
            plain(
                ChunkReply::Refused(e),
                past_line(s, found.position, found.line, finished),
            )
        }
    }
}

// The chunk is used up, and the carry holds a line that is begun.
fn used_up(s: Chunks, empties: usize, used: usize, skipped: u16, cr: bool) -> LineStep
    ensures { result ≡ record { reply = LineReply.UsedUp; state = record { position = 0; line = s.line; empties = empties; used = used; skipped = skipped; cr = cr; finished = false; options = s.options } } }
{
    LineStep {
        reply: LineReply::UsedUp,
        state: Chunks {
            position: 0,
            empties,
            used,
            skipped,
            cr,
            finished: false,
            ..s
        },
    }
}

// A line was found, with so many empty lines before it.
fn found(s: Chunks, reply: LineReply, position: usize, empties: usize, last: bool) -> LineStep
    ensures { result ≡ record { reply = reply; state = past_line s position (number_behind s empties) last } }
{
    LineStep {
        reply,
        state: past_line(s, position, number_behind(s, empties), last),
    }
}

// Nothing is begun: the first line from a position on is found where it lies; one that does not end in the chunk goes into the carry.
fn fresh(s: Chunks, chunk: &[u8], position: usize, empties: usize, carry: &mut [u8]) -> LineStep
    requires { (position ≤ length chunk.now) × (522 ≤ length carry.old) }
    ensures { Finds (of_found s chunk.now (seek_at chunk.now position empties)) chunk.now result carry.new }
{
    match find(chunk, position, empties) {
        Cut::Open { from, empties: n } => {
            let g = gather(chunk, from, carry, 0, 0, false);
            used_up(s, n, g.used, g.skipped, g.cr)
        }
        Cut::Whole {
            from,
            len,
            next,
            empties: n,
        } => found(s, LineReply::InChunk { from, len }, next, n, false),
    }
}

// How many digits were left out of the line that is begun: none of a line of which fewer than 522 bytes are used.
fn left_out(s: Chunks) -> u16
    ensures { result ≡ left_out s }
{
    if s.used < MOST_KEPT { 0 } else { s.skipped }
}

// A line is begun: it is gathered in the carry and found there. An empty one, whose CR was cut from its LF, is passed.
fn older(s: Chunks, chunk: &[u8], position: usize, carry: &mut [u8]) -> LineStep
    requires { (position ≤ length chunk.now) × (s.used ≤ 522) × (522 ≤ length carry.old) }
    ensures { Finds (of_found s chunk.now (seek none s.empties (begun s carry.old) (drop position chunk.now))) chunk.now result carry.new }
{
    let g = gather(chunk, position, carry, s.used, left_out(s), s.cr);
    if g.position == chunk.len() {
        return used_up(s, s.empties, g.used, g.skipped, g.cr);
    }
    let next = g.position + 1;
    if g.used == 0 {
        return fresh(s, chunk, next, s.empties.wrapping_add(1), carry);
    }
    let reply = LineReply::InCarry {
        len: g.used,
        skipped: g.skipped,
    };
    found(s, reply, next, s.empties, false)
}

// Whether a line is begun: bytes of it, or a CR that waits.
fn has_line(s: Chunks) -> bool
    ensures { result ≡ has_line s }
{
    s.used > 0 || s.cr
}

impl Chunks {
    // At the beginning of any text, with both stops on.
    pub fn new() -> Chunks
        ensures { NewChunks default_options result }
    {
        Chunks::new_with_options(ReaderOptions::default())
    }

    // At the beginning of any text.
    pub fn new_with_options(options: ReaderOptions) -> Chunks
        ensures { NewChunks options result }
    {
        Chunks {
            position: 0,
            line: 0,
            empties: 0,
            used: 0,
            skipped: 0,
            cr: false,
            finished: false,
            options,
        }
    }

    // The next line that ends in the chunk, from where the state stands in it: a line that has a byte. It lies in the chunk, or in the
    // carry if it was begun in an earlier chunk.
    pub fn next_line(self, chunk: &[u8], carry: &mut [u8]) -> LineStep
        ensures { NextLine self chunk.now carry.old result carry.new }
    {
        if carry.len() < MOST_KEPT || self.used > MOST_KEPT {
            return idle(LineReply::CarryTooSmall, self);
        }
        if self.finished {
            return idle(LineReply::Done, self);
        }
        let position = self.position.min(chunk.len());
        if has_line(self) {
            return older(self, chunk, position, carry);
        }
        fresh(self, chunk, position, self.empties, carry)
    }

    // Ends the text: what is begun is its last line. It lies in the carry.
    pub fn last_line(self, carry: &mut [u8]) -> LineStep
        ensures { LastLine self carry.old result carry.new }
    {
        if carry.len() < MOST_KEPT || self.used > MOST_KEPT {
            return idle(LineReply::CarryTooSmall, self);
        }
        if self.finished {
            return idle(LineReply::Done, self);
        }
        let taken = with_cr(carry, self.used, left_out(self), self.cr);
        if taken.used == 0 {
            let over = Chunks {
                finished: true,
                ..self
            };
            return idle(LineReply::Done, over);
        }
        let reply = LineReply::InCarry {
            len: taken.used,
            skipped: taken.skipped,
        };
        found(self, reply, 0, self.empties, true)
    }

    // The next answer that the chunk holds, from where the state stands in it. The payload of a data record goes into the pool at a position.
    pub fn next(self, chunk: &[u8], carry: &mut [u8], pool: &mut [u8], at: usize) -> ChunkStep
        ensures { NextChunk self chunk.now carry.old pool.old at result carry.new pool.new }
    {
        let step = self.next_line(chunk, carry);
        let state = step.state;
        match step.reply {
            LineReply::InChunk { from, len } => {
                let answer = reader::read_record(&chunk[from..from + len], pool, at);
                settle(self, answer, state, false, Place::InChunk { from, len })
            }
            LineReply::InCarry { len, skipped } => {
                let answer = read_kept(&carry[..len], skipped, pool, at);
                settle(self, answer, state, false, Place::InCarry { len })
            }
            LineReply::UsedUp => plain(ChunkReply::UsedUp, state),
            LineReply::Done => plain(ChunkReply::Done, state),
            LineReply::CarryTooSmall => plain(ChunkReply::CarryTooSmall, state),
        }
    }

    // Ends the text: what is begun is its last line.
    pub fn finish(self, carry: &mut [u8], pool: &mut [u8], at: usize) -> ChunkStep
        ensures { Finish self carry.old pool.old at result carry.new pool.new }
    {
        let step = self.last_line(carry);
        let state = step.state;
        match step.reply {
            LineReply::InCarry { len, skipped } => {
                let answer = read_kept(&carry[..len], skipped, pool, at);
                settle(self, answer, state, true, Place::InCarry { len })
            }
            LineReply::Done => plain(ChunkReply::Done, state),
            // The search for the last line finds none in a chunk, and uses none up.
            LineReply::CarryTooSmall | LineReply::InChunk { .. } | LineReply::UsedUp => {
                plain(ChunkReply::CarryTooSmall, state)
            }
        }
    }
}
