#![tactic(auto)]
// A page with marks written back: each run of marked places becomes data records, with the type 04 records that they need and the end record.
ghost use Rattle.std.specs.Prelude.{◌≡◌, ◌+◌, ◌^◌, ◌≤◌, ◌<◌, length};
ghost use Rattle.marks.specs.Marks.{flags};
ghost use Rattle.writer.specs.Claims.{Surveys, Steps};
ghost use Rattle.page.specs.File.{page_records};
ghost use Rattle.page.specs.Told.{PageFileLength, WritePage};
ghost use Rattle.page.specs.Helpers.{reach, PieceEnd, PageSurveyAs, MayBeFull, AsWritten};

use record::Record;
use writer::{Survey, Written};

// Why a page is not written.
#[derive(Clone, Copy)]
pub enum PageError {
    BadWindow,
    // The lowest unused bit of the marks that is set, by the place that it would have.
    BadMark(usize),
    OutputFull,
}

// What is answered of the file of a page: its length, or why it has none.
pub type Paged = Result<usize, PageError>;

// The records of a page's file: those from a place on, behind the latest type 04 record's upper 16 bits, if there was one. None are left once the end record was given.
#[derive(Drop)]
struct FileRecords<'a> {
    first: u32,
    places: usize,
    marks: &'a [u8],
    place: usize,
    latest: Option<u16>,
    finished: bool,
    ghost below: { first + places ≤ 2 ^ 32 },
    ghost inside: { place ≤ places },
}

// How far a piece from a place on may reach: 16 places, the next multiple of 65,536 or the end, whichever is nearest.
fn farthest(address: u32, place: usize, end: usize) -> usize
    requires { place < end }
    ensures { result ≡ reach address place end }
{
    let room = 65536 - (address % 65536) as usize;
    place + room.min(16).min(end - place)
}

// The place after the piece that starts at a marked place.
fn piece_end(first: u32, places: usize, marks: &[u8], start: usize) -> usize
    requires { (start < places) × (first + places ≤ 2 ^ 32) }
    ensures { PieceEnd (flags places marks.now) first start result }
{
    let end = farthest(first + (start as u32), start, places);
    marks::next_unmarked(marks, end, start + 1)
}

impl<'a> FileRecords<'a> {
    ghost use Rattle.page.specs.Walk.{to_come};

    // All records of the file.
    fn new(first: u32, places: usize, marks: &'a [u8]) -> FileRecords<'a>
        requires { first + places ≤ 2 ^ 32 }
        ensures { to_come result ≡ page_records first (flags places marks.now) }
    {
        FileRecords {
            first,
            places,
            marks,
            place: 0,
            latest: None,
            finished: false,
        }
    }
}

impl<'a> Iterator for FileRecords<'a> {
    ghost use Rattle.std.specs.Iterator.{YieldsFirst, item_count};
    ghost use Rattle.page.specs.Walk.{to_come};

    type Item = Record;

    ghost next_gives = { YieldsFirst to_come };

    ghost remaining = { item_count to_come };

    fn next(&mut self) -> Option<Record> {
        if self.finished {
            return None;
        }
        let start = marks::next_marked(self.marks, self.places, self.place);
        self.place = start;
        if start == self.places {
            self.finished = true;
            return Some(Record::EndOfFile);
        }
        let address = self.first + start as u32;
        let upper = (address / 65536) as u16;
        let changes = self.latest != Some(upper);
        if changes {
            self.latest = Some(upper);
            return Some(Record::ExtendedLinearAddress(upper));
        }
        let end = piece_end(self.first, self.places, self.marks, start);
        self.place = end;
        Some(Record::Data {
            offset: (address % 65536) as u16,
            at: start,
            len: end - start,
        })
    }
}

// The survey of all records of the file.
fn survey(first: u32, page: &[u8], marks: &[u8]) -> Survey
    requires { first + length page.now ≤ 2 ^ 32 }
    ensures { Surveys page.now (page_records first (flags (length page.now) marks.now)) result }
{
    let mut s = Survey::new();
    for given in FileRecords::new(first, page.len(), marks) {
        s = s.add(given, page);
    }
    s
}

// Each record of the file, from a start on.
fn write_records(first: u32, page: &[u8], marks: &[u8], out: &mut [u8], start: Written) -> Written
    requires { first + length page.now ≤ 2 ^ 32 }
    ensures { Steps page.now out.old start (page_records first (flags (length page.now) marks.now)) result out.new }
{
    let mut done = start;
    for given in FileRecords::new(first, page.len(), marks) {
        done = writer::write_next(done, given, page, out);
    }
    done
}

// The survey of a page that has a file, or why it has none.
fn survey_page(first: u32, page: &[u8], marks: &[u8]) -> Result<Survey, PageError>
    ensures { PageSurveyAs first page.now marks.now result }
{
    if window::is_unfit(first, page.len(), marks.len()) {
        return Err(PageError::BadWindow);
    }
    match marks::first_unused(marks, page.len()) {
        Some(place) => Err(PageError::BadMark(place)),
        None => Ok(survey(first, page, marks)),
    }
}

// The writer's answer, which refuses only with 15.
fn as_paged(answer: Written) -> Paged
    requires { MayBeFull answer }
    ensures { AsWritten answer result }
{
    answer.map_err(|_| PageError::OutputFull)
}

// How long the file of a page with marks is, or why it has none.
pub fn page_file_length(first: u32, page: &[u8], marks: &[u8]) -> Paged
    ensures { PageFileLength first page.now marks.now result }
{
    as_paged(survey_page(first, page, marks)?.answer(usize::MAX))
}

// The file of a page with marks, whose first place has the address `first`, from the output's start on: its length, or why it is not written.
pub fn write_page(first: u32, page: &[u8], marks: &[u8], out: &mut [u8]) -> Paged
    ensures { WritePage first page.now marks.now out.old result out.new }
{
    let start = survey_page(first, page, marks)?.begin(out.len());
    as_paged(write_records(first, page, marks, out, start))
}
