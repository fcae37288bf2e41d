#![tactic(auto)]
// A text of S-records loaded into a page with marks: the whole text is judged first, then it is written.
ghost use Rattle.std.specs.Prelude.{◌≡◌, ◌+◌, ◌-◌, ◌^◌, ◌<◌, ◌≤◌, min, false, length};
ghost use Rattle.steps.specs.Steps.{nothing_yet, decision, verdict};
ghost use Rattle.steps.specs.Told.{told_loading};
ghost use Rattle.window.specs.Window.{unfit};
ghost use Rattle.window.specs.Table.{site_of, inside_of, Sound};
ghost use Rattle.window.specs.Tables.{LoadTable};
ghost use Rattle.window.specs.Promises.{Surveyed, Painted};
ghost use Rattle.srecload.specs.Placing.{s_records, s_address, s_placed, line_steps};
ghost use Rattle.srecload.specs.Load.{placements, steps_of, LoadSRecords};
ghost use Rattle.srecload.specs.Taking.{TakeLine};
ghost use Rattle.srecload.specs.Helpers.{LiesIn, MeetsData, MeetsCount, Meets, Met, WroteRecord, WroteLine, TookRecord, TookInWindow, PutWhole};

use srec::{SRecord, SType};
use steps::{LoaderError, Loading, Start, Tally};
use window::by_line::{self, LineByLine, Turn};
use window::{Row, owners};

// How many addresses there are.
const ADDRESSES: usize = 4294967296;

// The most bytes of data that a record has.
const MOST_DATA: usize = 252;

// Where a pass stands in a text: after so many lines, at a position.
#[derive(Clone, Copy)]
pub struct Walk {
    position: usize,
    line: usize,
}

// What a line comes to: how many data records there are after it, or the answer of the load. It is no `Result`: an answer that stops the load may be an acceptance.
#[derive(Clone, Copy)]
pub enum Taken {
    On(usize),
    Stop(Loading),
}

// The address of byte i of a data record.
fn byte_address(address: u32, i: usize) -> u32
    requires { i < 65536 }
    ensures { result ≡ s_address address i }
{
    address.wrapping_add(i as u32)
}

// How many of the bytes of a data record stand before the last address. Those after them lie from address 0 on.
fn first_run(address: u32, len: usize) -> usize
    ensures { result ≡ min len (2 ^ 32 - address) }
{
    len.min(ADDRESSES - (address as usize))
}

// Where the bytes of a data record lie.
fn survey(address: u32, len: usize, owner: usize, rows: &[Row]) -> Option<usize>
    requires { len ≤ 252 }
    ensures { Surveyed (s_address address) len (inside_of owner rows.now) result }
{
    let run = first_run(address, len);
    let low = window::first_outside(owner, rows, address, run as u32);
    if run == len || low.is_some() {
        return low;
    }
    let i = window::first_outside(owner, rows, 0, (len - run) as u32)?;
    Some(run + i)
}

// Stores the bytes of a data record and marks their places, each at its own address.
fn put(address: u32, bytes: &[u8], owner: usize, rows: &[Row], page: &mut [u8], marks: &mut [u8])
    requires { (length bytes.now ≤ 252) × Sound (length page.old) rows.now }
    ensures { Painted (site_of owner rows.now) (s_placed address bytes.now) page.old marks.old page.new marks.new }
{
    let run = first_run(address, bytes.len());
    window::put_run(owner, rows, address, &bytes[..run], page, marks);
    if run < bytes.len() {
        window::put_run(owner, rows, 0, &bytes[run..], page, marks);
    }
}

// What a data record comes to, on the line with this number, after so many data records. Nothing is written.
fn judge_data(owner: usize, rows: &[Row], number: usize, seen: usize, given: SRecord) -> Taken
    requires { (given.len ≤ 252) × (seen + 1 < 2 ^ 64) }
    ensures { MeetsData (inside_of owner rows.now) number seen given result }
{
    match survey(given.address, given.len, owner, rows) {
        None => Taken::On(seen + 1),
        Some(i) => {
            let address = byte_address(given.address, i);
            Taken::Stop(Err(LoaderError::OutsideWindow(address).at(number)))
        }
    }
}

// What a count comes to, on the line with this number, after so many data records.
fn judge_count(number: usize, seen: usize, stated: u32) -> Taken
    ensures { MeetsCount number seen stated result }
{
    let count = stated as usize;
    if count == seen {
        return Taken::On(seen);
    }
    Taken::Stop(Err(LoaderError::CountMismatch(count, seen).at(number)))
}

// What a record comes to, on the line with this number, after so many data records. Nothing is written.
fn judge_record(owner: usize, rows: &[Row], number: usize, seen: usize, given: SRecord) -> Taken
    requires { (given.len ≤ 252) × (seen + 1 < 2 ^ 64) }
    ensures { Meets (inside_of owner rows.now) number seen given result }
{
    match given.kind {
        SType::S0 => Taken::On(seen),
        SType::S1 | SType::S2 | SType::S3 => judge_data(owner, rows, number, seen, given),
        SType::S5 => judge_count(number, seen, given.address),
        SType::S7 | SType::S8 | SType::S9 => Taken::Stop(Ok(Tally {
            records: seen,
            start: Some(Start::Linear(given.address)),
        })),
    }
}

// What a line comes to in the first pass, with its number, after so many data records.
fn judge_line(
    line: &[u8],
    pool: &mut [u8],
    owner: usize,
    rows: &[Row],
    number: usize,
    seen: usize,
) -> Taken
    requires { (length pool.old ≡ 252) × (seen + 1 < 2 ^ 64) }
    ensures { Met (inside_of owner rows.now) seen (line_steps number line.now) result }
{
    if line.is_empty() {
        return Taken::On(seen);
    }
    match srec::read_srecord(line, pool, 0) {
        Ok(given) => judge_record(owner, rows, number, seen, given),
        Err(e) => Taken::Stop(Err(LoaderError::Line(e).at(number))),
    }
}

// Stores and marks what a record states, and returns whether the text goes on after it.
fn write_record(
    pool: &[u8],
    owner: usize,
    rows: &[Row],
    given: SRecord,
    page: &mut [u8],
    marks: &mut [u8],
) -> bool
    requires { LiesIn given pool.now × Sound (length page.old) rows.now }
    ensures { WroteRecord (site_of owner rows.now) given pool.now page.old marks.old result page.new marks.new }
{
    match given.kind {
        SType::S0 | SType::S5 => true,
        SType::S1 | SType::S2 | SType::S3 => {
            let data = &pool[given.at..given.at + given.len];
            put(given.address, data, owner, rows, page, marks);
            true
        }
        SType::S7 | SType::S8 | SType::S9 => false,
    }
}

// Stores and marks what a line states, and returns whether the text goes on after it.
fn write_line(
    line: &[u8],
    pool: &mut [u8],
    owner: usize,
    rows: &[Row],
    page: &mut [u8],
    marks: &mut [u8],
) -> bool
    requires { (length pool.old ≡ 252) × Sound (length page.old) rows.now }
    ensures { WroteLine (site_of owner rows.now) line.now page.old marks.old result page.new marks.new }
{
    if line.is_empty() {
        return true;
    }
    match srec::read_srecord(line, pool, 0) {
        Ok(given) => write_record(pool, owner, rows, given, page, marks),
        Err(_) => false,
    }
}

impl LineByLine for Walk {
    ghost use Rattle.srecload.specs.Helpers.{stands_in, has_met, ahead_of, left_of};

    ghost Kept = { Unit };

    ghost source = { s_records };

    ghost stands_in = { stands_in };

    ghost has_met = { has_met };

    ghost ahead = { ahead_of };

    ghost left = { left_of };

    fn begin() -> Walk {
        Walk {
            position: 0,
            line: 0,
        }
    }

    fn judge_next(
        self,
        text: &[u8],
        pool: &mut [u8],
        owner: usize,
        rows: &[Row],
        tally: Tally,
    ) -> Turn<Walk> {
        let from = self.position;
        if from == text.len() {
            return Turn::Stop(Err(LoaderError::MissingEndOfFileRecord.at(0)));
        }
        let mut n = 0;
        let line = reader::first_line(&text[from..], &mut n);
        let number = self.line + 1;
        // A line says at most 252 bytes, and the pool has room for 255.
        match judge_line(
            line,
            &mut pool[..MOST_DATA],
            owner,
            rows,
            number,
            tally.records,
        ) {
            Taken::On(records) => {
                let there = Walk {
                    position: from + n,
                    line: number,
                };
                Turn::On(there, Tally { records, ..tally })
            }
            Taken::Stop(answer) => Turn::Stop(answer),
        }
    }

    fn write_next(
        self,
        text: &[u8],
        pool: &mut [u8],
        owner: usize,
        rows: &[Row],
        page: &mut [u8],
        marks: &mut [u8],
    ) -> Option<Walk> {
        let from = self.position;
        if from == text.len() {
            return None;
        }
        let mut n = 0;
        let line = reader::first_line(&text[from..], &mut n);
        if write_line(line, &mut pool[..MOST_DATA], owner, rows, page, marks) {
            return Some(Walk {
                position: from + n,
                line: self.line + 1,
            });
        }
        None
    }
}

// Stores and marks a data record whose bytes stand before the last address and all lie in the window. Returns whether the record is one; if not, nothing changes.
fn put_whole(pool: &[u8], given: SRecord, first: u32, page: &mut [u8], marks: &mut [u8]) -> bool
    requires { LiesIn given pool.now }
    ensures { PutWhole given pool.now first page.old marks.old result page.new marks.new }
{
    if let SType::S1 | SType::S2 | SType::S3 = given.kind {
        if first_run(given.address, given.len) < given.len {
            return false;
        }
        let data = &pool[given.at..given.at + given.len];
        return window::put_inside(first, given.address, data, page, marks);
    }
    false
}

// Takes a record: if it lets the load go on, what it states is stored and marked.
fn take_record(
    pool: &[u8],
    rows: &[Row],
    number: usize,
    seen: usize,
    given: SRecord,
    page: &mut [u8],
    marks: &mut [u8],
) -> Taken
    requires { LiesIn given pool.now × (seen + 1 < 2 ^ 64) × Sound (length page.old) rows.now }
    ensures { TookRecord (inside_of 1 rows.now) (site_of 1 rows.now) number seen given pool.now page.old marks.old result page.new marks.new }
{
    let taken = judge_record(owners::FIRST, rows, number, seen, given);
    if let Taken::On(_) = taken {
        write_record(pool, owners::FIRST, rows, given, page, marks);
    }
    taken
}

// Takes a record into a window. A data record that lies in the window takes a short way.
fn take_in_window(
    pool: &[u8],
    number: usize,
    seen: usize,
    given: SRecord,
    first: u32,
    page: &mut [u8],
    marks: &mut [u8],
) -> Taken
    requires { LiesIn given pool.now × (seen + 1 < 2 ^ 64) × (unfit first (length page.old) (length marks.old) ≡ false) }
    ensures { TookInWindow number seen given pool.now first page.old marks.old result page.new marks.new }
{
    if put_whole(pool, given, first, page, marks) {
        return Taken::On(seen + 1);
    }
    let rows = window::one_window(first, page.len());
    take_record(pool, &rows, number, seen, given, page, marks)
}

// Takes one line of S-records into a page with marks: judged as the loader judges it, with the number that a refusal names, after so many data records. If it lets the load go on, what it states is stored and marked. A window that is refused, and a count that can grow no more, are 16, with line 0.
pub fn take_line(
    line: &[u8],
    number: usize,
    seen: usize,
    first: u32,
    page: &mut [u8],
    marks: &mut [u8],
) -> Taken
    ensures { TakeLine line.now number seen first page.old marks.old result page.new marks.new }
{
    if window::is_unfit(first, page.len(), marks.len()) || seen == usize::MAX {
        return Taken::Stop(Err(LoaderError::BadWindow.at(0)));
    }
    let mut pool = [0u8; MOST_DATA];
    match srec::read_srecord(line, &mut pool, 0) {
        Ok(given) => take_in_window(&pool, number, seen, given, first, page, marks),
        Err(e) => Taken::Stop(Err(LoaderError::Line(e).at(number))),
    }
}

// Loads a text of S-records into a page, whose first place has the address `first`. A mark for each place says whether the text states it.
pub fn load_srecords(text: &[u8], first: u32, page: &mut [u8], marks: &mut [u8]) -> Loading
    ensures { LoadSRecords text.now first page.old marks.old result page.new marks.new }
{
    by_line::load_through_window::<Walk>(text, first, page, marks)
}

// Loads a text of S-records for one owner through a window table into a shared pool. A mark for each of the owner's places says whether the text states it; every other byte and mark stays.
pub fn load_srecords_table(
    text: &[u8],
    owner: usize,
    rows: &[Row],
    pool: &mut [u8],
    marks: &mut [u8],
) -> Loading
    ensures { LoadTable s_records owner rows.now text.now pool.old marks.old result pool.new marks.new }
{
    by_line::load_through_table::<Walk>(text, owner, rows, pool, marks)
}
