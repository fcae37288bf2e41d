#![tactic(auto)]
// A text loaded into a page with marks: the whole text is judged first, then it is written. One line can be taken by itself.
ghost use Rattle.std.specs.Prelude.{◌≡◌, ◌+◌, ◌-◌, ◌^◌, ◌<◌, ◌≤◌, min, false, length, Some};
ghost use Rattle.record.specs.Record.{meant};
ghost use Rattle.reader.specs.Text.{new_state, default_options};
ghost use Rattle.steps.specs.Steps.{nothing_yet, decision, verdict};
ghost use Rattle.steps.specs.Told.{told_loading};
ghost use Rattle.window.specs.Window.{unfit};
ghost use Rattle.window.specs.Table.{site_of, inside_of, Sound};
ghost use Rattle.window.specs.Tables.{LoadTable};
ghost use Rattle.window.specs.Promises.{Surveyed, Painted};
ghost use Rattle.intel.specs.Placing.{Base, intel, byte_address, placed, placements, steps_of};
ghost use Rattle.loader.specs.Load.{Load};
ghost use Rattle.loader.specs.Taking.{TakeLine};
ghost use Rattle.loader.specs.Helpers.{based, stated_by, Behind, MeetsStart, Meets, PutWhole, TookRecord};
ghost use Rattle.intel.specs.Records.{Short, LiesIn, UnderWay};

use reader::State;
use record::{Record, payload_sizes};
use steps::{LoaderError, Loading, Start, Tally};
use window::by_line::{self, LineByLine, Turn};
use window::{Row, owners};

// How many bytes a segment has.
const SEGMENT: usize = 65536;

// The number of the latest type 02 or 04 record; before any, segment 0.
#[derive(Clone, Copy)]
pub enum Base {
    Segment(u16),
    Linear(u16),
}

// What a line comes to: the base and the tally after it, or the answer of the load. It is no `Result`: an answer that stops the load may be an acceptance.
#[derive(Clone, Copy)]
pub enum Taken {
    On(Base, Tally),
    Stop(Loading),
}

// Where a pass stands in a text, and the base in force there.
#[derive(Clone, Copy)]
pub struct Walk {
    base: Base,
    state: State,
}

// The address of byte i of a data record: in a segment the offset wraps at 65,536, under a linear base the sum wraps at 2^32.
fn byte_address(base: Base, offset: u16, i: usize) -> u32
    requires { i < 65536 }
    ensures { result ≡ byte_address (based base) offset i }
{
    let reach = (offset as u32) + (i as u32);
    match base {
        Base::Segment(number) => 16 * (number as u32) + reach % 65536,
        Base::Linear(number) => (65536 * (number as u32)).wrapping_add(reach),
    }
}

// The base after a record.
fn base_behind(base: Base, given: Record) -> Base
    ensures { Behind base given result }
{
    match given {
        Record::ExtendedSegmentAddress(number) => Base::Segment(number),
        Record::ExtendedLinearAddress(number) => Base::Linear(number),
        _ => base,
    }
}

// How many of the bytes of a data record stand before the end of its segment. These lie one after the other, and so do those after them.
fn first_run(offset: u16, len: usize) -> usize
    ensures { result ≡ min len (65536 - offset) }
{
    len.min(SEGMENT - (offset as usize))
}

// Where the bytes of a data record lie.
fn survey(base: Base, offset: u16, len: usize, owner: usize, rows: &[Row]) -> Option<usize>
    requires { len ≤ 255 }
    ensures { Surveyed (byte_address (based base) offset) len (inside_of owner rows.now) result }
{
    let run = first_run(offset, len);
    let low = window::first_outside(owner, rows, byte_address(base, offset, 0), run as u32);
    if run == len || low.is_some() {
        return low;
    }
    let rest = (len - run) as u32;
    let i = window::first_outside(owner, rows, byte_address(base, offset, run), rest)?;
    Some(run + i)
}

// Stores the bytes of a data record and marks their places, each at its own address.
fn put(
    base: Base,
    offset: u16,
    bytes: &[u8],
    owner: usize,
    rows: &[Row],
    page: &mut [u8],
    marks: &mut [u8],
)
    requires { (length bytes.now ≤ 255) × Sound (length page.old) rows.now }
    ensures { Painted (site_of owner rows.now) (placed (based base) offset 0 bytes.now) page.old marks.old page.new marks.new }
{
    let run = first_run(offset, bytes.len());
    window::put_run(
        owner,
        rows,
        byte_address(base, offset, 0),
        &bytes[..run],
        page,
        marks,
    );
    if run < bytes.len() {
        window::put_run(
            owner,
            rows,
            byte_address(base, offset, run),
            &bytes[run..],
            page,
            marks,
        );
    }
}

// What a start comes to, on the line with this number: it is kept if it is the first or the same again, and else it is refused.
fn judge_start(number: usize, base: Base, tally: Tally, stated: Start) -> Taken
    ensures { MeetsStart number base tally (Some stated) result }
{
    let start = Some(stated);
    if steps::differs_from(start, tally.start) {
        return Taken::Stop(Err(LoaderError::StartConflict.at(number)));
    }
    Taken::On(base, Tally { start, ..tally })
}

// What a record comes to, on the line with this number, with the base and the tally before it. Nothing is written.
fn judge_record(
    owner: usize,
    rows: &[Row],
    number: usize,
    base: Base,
    tally: Tally,
    given: Record,
) -> Taken
    requires { Short given × (tally.records + 1 < 2 ^ 64) }
    ensures { Meets (inside_of owner rows.now) number base tally given result }
{
    match given {
        Record::Data { offset, at: _, len } => match survey(base, offset, len, owner, rows) {
            None => {
                let records = tally.records + 1;
                Taken::On(base, Tally { records, ..tally })
            }
            Some(i) => {
                let address = byte_address(base, offset, i);
                Taken::Stop(Err(LoaderError::OutsideWindow(address).at(number)))
            }
        },
        Record::EndOfFile => Taken::Stop(Ok(tally)),
        Record::ExtendedSegmentAddress(_) | Record::ExtendedLinearAddress(_) => {
            Taken::On(base_behind(base, given), tally)
        }
        Record::StartSegmentAddress { cs, ip } => {
            judge_start(number, base, tally, Start::Segment { cs, ip })
        }
        Record::StartLinearAddress(address) => {
            judge_start(number, base, tally, Start::Linear(address))
        }
    }
}

// Stores and marks what a record states.
fn write_record(
    pool: &[u8],
    owner: usize,
    rows: &[Row],
    base: Base,
    given: Record,
    page: &mut [u8],
    marks: &mut [u8],
)
    requires { LiesIn given pool.now × Sound (length page.old) rows.now }
    ensures { Painted (site_of owner rows.now) (stated_by (based base) (meant given pool.now)) page.old marks.old page.new marks.new }
{
    if let Record::Data { offset, at, len } = given {
        put(base, offset, &pool[at..at + len], owner, rows, page, marks);
    }
}

impl LineByLine for Walk {
    ghost use Rattle.loader.specs.Helpers.{stands_in, has_met, ahead_of, left_of};

    ghost Kept = { Base };

    ghost source = { intel };

    ghost stands_in = { stands_in };

    ghost has_met = { has_met };

    ghost ahead = { ahead_of };

    ghost left = { left_of };

    fn begin() -> Walk {
        Walk {
            state: State::new(),
            base: Base::Segment(0),
        }
    }

    fn judge_next(
        self,
        text: &[u8],
        pool: &mut [u8],
        owner: usize,
        rows: &[Row],
        tally: Tally,
    ) -> Turn<Walk> {
        let step = self.state.next(text, pool, 0);
        let line = step.state.line;
        match step.reply {
            Some(Ok(given)) => match judge_record(owner, rows, line, self.base, tally, given) {
                Taken::On(base, t) => {
                    let state = step.state;
                    Turn::On(Walk { base, state }, t)
                }
                Taken::Stop(answer) => Turn::Stop(answer),
            },
            Some(Err(e)) => Turn::Stop(Err(LoaderError::Line(e).at(line))),
            None => Turn::Stop(Err(LoaderError::MissingEndOfFileRecord.at(0))),
        }
    }

    fn write_next(
        self,
        text: &[u8],
        pool: &mut [u8],
        owner: usize,
        rows: &[Row],
        page: &mut [u8],
        marks: &mut [u8],
    ) -> Option<Walk> {
        let step = self.state.next(text, pool, 0);
        match step.reply {
            Some(Ok(given)) => {
                write_record(pool, owner, rows, self.base, given, page, marks);
                Some(Walk {
                    base: base_behind(self.base, given),
                    state: step.state,
                })
            }
            Some(Err(_)) => None,
            None => None,
        }
    }
}

// Stores and marks a data record whose bytes stand before the end of its segment and all lie in the window. Returns whether the record is one; if not, nothing changes.
fn put_whole(
    pool: &[u8],
    base: Base,
    given: Record,
    first: u32,
    page: &mut [u8],
    marks: &mut [u8],
) -> bool
    requires { LiesIn given pool.now }
    ensures { PutWhole base given pool.now first page.old marks.old result page.new marks.new }
{
    if let Record::Data { offset, at, len } = given {
        if first_run(offset, len) < len {
            return false;
        }
        let address = byte_address(base, offset, 0);
        return window::put_inside(first, address, &pool[at..at + len], page, marks);
    }
    false
}

// Takes a record: if it lets the load go on, what it states is stored and marked. A data record that lies in the window takes a short way.
fn take_record(
    pool: &[u8],
    number: usize,
    base: Base,
    tally: Tally,
    given: Record,
    first: u32,
    page: &mut [u8],
    marks: &mut [u8],
) -> Taken
    requires { LiesIn given pool.now × (tally.records + 1 < 2 ^ 64) × (unfit first (length page.old) (length marks.old) ≡ false) }
    ensures { TookRecord number base tally given pool.now first page.old marks.old result page.new marks.new }
{
    if put_whole(pool, base, given, first, page, marks) {
        let records = tally.records + 1;
        return Taken::On(base, Tally { records, ..tally });
    }
    let rows = window::one_window(first, page.len());
    match judge_record(owners::FIRST, &rows, number, base, tally, given) {
        Taken::On(next, t) => {
            write_record(pool, owners::FIRST, &rows, base, given, page, marks);
            Taken::On(next, t)
        }
        Taken::Stop(answer) => Taken::Stop(answer),
    }
}

// Takes one line of a text into a page with marks: judged as the loader judges it, with the number that a refusal names, from the base and the tally that the lines before it left. If it lets the load go on, what it states is stored and marked. A window that is refused, and a tally that can count no more, are 16, with line 0.
pub fn take_line(
    line: &[u8],
    number: usize,
    base: Base,
    tally: Tally,
    first: u32,
    page: &mut [u8],
    marks: &mut [u8],
) -> Taken
    ensures { TakeLine line.now number base tally first page.old marks.old result page.new marks.new }
{
    if window::is_unfit(first, page.len(), marks.len()) || tally.records == usize::MAX {
        return Taken::Stop(Err(LoaderError::BadWindow.at(0)));
    }
    let mut pool = [0u8; payload_sizes::MOST_DATA];
    match reader::read_record(line, &mut pool, 0) {
        Ok(given) => take_record(&pool, number, base, tally, given, first, page, marks),
        Err(e) => Taken::Stop(Err(LoaderError::Line(e).at(number))),
    }
}

// Loads a text into a page, whose first place has the address `first`. A mark for each place says whether the text states it.
pub fn load(text: &[u8], first: u32, page: &mut [u8], marks: &mut [u8]) -> Loading
    ensures { Load text.now first page.old marks.old result page.new marks.new }
{
    by_line::load_through_window::<Walk>(text, first, page, marks)
}

// Loads a text for one owner through a window table into a shared pool. A mark for each of the owner's places says whether the text states it; every other byte and mark stays.
pub fn load_table(
    text: &[u8],
    owner: usize,
    rows: &[Row],
    pool: &mut [u8],
    marks: &mut [u8],
) -> Loading
    ensures { LoadTable intel owner rows.now text.now pool.old marks.old result pool.new marks.new }
{
    by_line::load_through_table::<Walk>(text, owner, rows, pool, marks)
}
