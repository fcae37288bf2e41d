#![tactic(auto)]
// Windows: the addresses that they hold, a table of them, and a run of bytes stored through them in a page and marked.
ghost use Rattle.std.specs.Prelude.{◌≡◌, ◌+◌, ◌≤◌, not, ltb, length};
ghost use Rattle.window.specs.Table.{takes, inside_of, is_owner, good_row, good_rows, overlap, clash, clashes, any_clash};
ghost use Rattle.window.specs.Promises.{OneWindow, IsUnfit, call_fits, IsBadTable, RoomAt, FirstOutside, Parted, Copied, PutIn, PutRun, PutInside, ClearMarks};

pub mod by_line;

// The most places that a page can have, or the pool of a table.
const MOST_PLACES: usize = 65536;

// How many addresses there are.
const ADDRESSES: usize = 1 << 32;

// The most windows of a table.
const MOST_WINDOWS: usize = 16;

// The owners that a table can have. They are numbers, not an enum: a table holds what C wrote into it, and `is_bad_table` is to refuse any other.
pub mod owners {
    pub const FIRST: usize = 1;

    pub const SECOND: usize = 2;
}

// How many numbers a table has for a window: those of a row.
pub const NUMBERS: usize = 4;

// One window of a table: its owner, its first address, how many places it has, and which place of the page its first address has.
#[derive(Clone, Copy)]
pub struct Row {
    pub owner: usize,
    pub first: usize,
    pub size: usize,
    pub place: usize,
}

// Whether a window is refused: a page and marks of these lengths, from the address `first` on.
#[tactic(auto, unfolding(crate::specs::Window::unfit))]
pub fn is_unfit(first: u32, page: usize, marks: usize) -> bool
    ensures { IsUnfit first page marks result }
{
    marks::row_length(page) != marks || page > MOST_PLACES || first as usize + page > ADDRESSES
}

// A table of one window, the first owner's, that holds a whole page from the address `first` on.
pub fn one_window(first: u32, places: usize) -> [Row; 1]
    ensures { OneWindow first places result }
{
    [Row {
        owner: owners::FIRST,
        first: first as usize,
        size: places,
        place: 0,
    }]
}

// Whether there is such an owner.
fn is_owner(owner: usize) -> bool
    ensures { result ≡ is_owner owner }
{
    owner == owners::FIRST || owner == owners::SECOND
}

// Whether `start` and `size` come to more than `end`.
fn is_beyond(start: usize, size: usize, end: usize) -> bool
    ensures { result ≡ ltb end (start + size) }
{
    size > end || start > end - size
}

// Whether two stretches share a number. An empty one has none. Each is a start and a size, not a range: its end may be too large for a `usize`.
fn overlap(start: usize, size: usize, other_start: usize, other_size: usize) -> bool
    ensures { result ≡ overlap start size other_start other_size }
{
    if size == 0 || other_size == 0 {
        return false;
    }
    if start <= other_start {
        other_start - start < size
    } else {
        start - other_start < other_size
    }
}

impl Row {
    // Whether the window has an owner, and ends neither beyond the last address nor beyond a pool of so many bytes.
    fn is_good(&self, pool: usize) -> bool
        ensures { result ≡ good_row pool self.now }
    {
        is_owner(self.owner)
            && !is_beyond(self.first, self.size, ADDRESSES)
            && !is_beyond(self.place, self.size, pool)
    }

    // Whether it shares a place of the pool with another, or an address if both have one owner.
    fn clashes_with(&self, other: &Row) -> bool
        ensures { result ≡ clash self.now other.now }
    {
        overlap(self.place, self.size, other.place, other.size)
            || self.owner == other.owner && overlap(self.first, self.size, other.first, other.size)
    }

    // Whether it is the owner's, and holds the address.
    #[tactic(auto, unfolding(crate::specs::Window::within))]
    fn takes(&self, owner: usize, address: usize) -> bool
        ensures { result ≡ takes owner address self.now }
    {
        self.owner == owner && self.first <= address && address - self.first < self.size
    }
}

// Whether all windows are good.
fn are_good(rows: &[Row], pool: usize) -> bool
    ensures { result ≡ good_rows pool rows.now }
{
    rows.iter().all(|row| row.is_good(pool))
}

// Whether a window clashes with one of these.
fn clashes(row: &Row, rows: &[Row]) -> bool
    ensures { result ≡ clashes row.now rows.now }
{
    rows.iter().any(|other| row.clashes_with(other))
}

// Whether any two windows clash, neighbours or not.
fn any_clash(rows: &[Row]) -> bool
    ensures { result ≡ any_clash rows.now }
{
    for (i, row) in rows.iter().enumerate() {
        if clashes(row, &rows[i + 1..]) {
            return true;
        }
    }
    false
}

// Whether a call is refused, whatever its windows are: for an owner, with so many windows, and a pool and marks of these lengths.
fn is_bad_call(owner: usize, windows: usize, pool: usize, marks: usize) -> bool
    ensures { result ≡ not (call_fits owner windows pool marks) }
{
    !is_owner(owner)
        || windows > MOST_WINDOWS
        || pool > MOST_PLACES
        || marks != marks::row_length(pool)
}

// Whether a table is refused, or a call with it: for an owner, with a pool and marks of these lengths.
// Owner and table are two parameters here and above, since one table serves both owners.
#[tactic(auto, unfolding(crate::specs::Table::fits))]
pub fn is_bad_table(owner: usize, rows: &[Row], pool: usize, marks: usize) -> bool
    ensures { IsBadTable owner rows.now pool marks result }
{
    is_bad_call(owner, rows.len(), pool, marks) || any_clash(rows) || !are_good(rows, pool)
}

// How many addresses from this one on lie in the same window of the owner, itself the first; 0 if it lies in none.
fn room_at(owner: usize, rows: &[Row], address: usize) -> usize
    ensures { RoomAt owner rows.now address result }
{
    for row in rows {
        if row.takes(owner, address) {
            return row.size - (address - row.first);
        }
    }
    0
}

// Which of `len` bytes from an address on is the first that lies in no window of the owner, counted from 0; none if all lie in one.
pub fn first_outside(owner: usize, rows: &[Row], address: u32, len: u32) -> Option<usize>
    ensures { FirstOutside (inside_of owner rows.now) address len result }
{
    let first = address as usize;
    let bytes = len as usize;
    let mut i = 0;
    // A while: each turn passes all the bytes that lie in one window.
    while i < bytes {
        let room = room_at(owner, rows, first + i);
        if room == 0 {
            return Some(i);
        }
        i = i.saturating_add(room);
    }
    None
}

// The part of a run that lies in a window: `len` bytes after the first `skip` of the run, from a place of the window on.
#[derive(Clone, Copy)]
struct Part {
    skip: usize,
    place: usize,
    len: usize,
}

// The part of `len` bytes from an address on that lies in a window of `size` places.
fn part_inside(first: usize, size: usize, address: usize, len: usize) -> Part
    ensures { Parted first size address len result }
{
    let skip = len.min(first.saturating_sub(address));
    let place = size.min(address.saturating_sub(first));
    Part {
        skip,
        place,
        len: (len - skip).min(size - place),
    }
}

// Copies bytes into the page, from a place on.
fn copy_to(bytes: &[u8], page: &mut [u8], place: usize)
    requires { place + length bytes.now ≤ length page.old }
    ensures { Copied bytes.now place page.old page.new }
{
    copying::copy(bytes, &mut page[place..place + bytes.len()]);
}

// Stores the part of a run that lies in a window, from the window's place in the page on, and marks its places. What lies beyond the page is left out.
fn put_in(row: &Row, address: u32, bytes: &[u8], page: &mut [u8], marks: &mut [u8])
    ensures { PutIn row.now address bytes.now page.old marks.old page.new marks.new }
{
    let start = row.place.min(page.len());
    let size = row.size.min(page.len() - start);
    let part = part_inside(row.first, size, address as usize, bytes.len());
    let place = start + part.place;
    copy_to(&bytes[part.skip..part.skip + part.len], page, place);
    marks::mark_run(marks, place, part.len);
}

// Stores a run of bytes, from an address on, in the owner's windows, and marks their places. A byte outside them changes nothing.
// Page and marks are two parameters here and above: they are lent as two slices, by C too.
pub fn put_run(
    owner: usize,
    rows: &[Row],
    address: u32,
    bytes: &[u8],
    page: &mut [u8],
    marks: &mut [u8],
)
    ensures { PutRun owner rows.now address bytes.now page.old marks.old page.new marks.new }
{
    for row in rows {
        if row.owner == owner {
            put_in(row, address, bytes, page, marks);
        }
    }
}

// Stores a run of bytes, from an address on, and marks their places, if all of them lie in the window that the page is from the address `first` on. Returns whether they do; if not, nothing changes.
pub fn put_inside(first: u32, address: u32, bytes: &[u8], page: &mut [u8], marks: &mut [u8]) -> bool
    ensures { PutInside first address bytes.now page.old marks.old result page.new marks.new }
{
    let start = first as usize;
    let from = address as usize;
    if from < start || is_beyond(from - start, bytes.len(), page.len()) {
        return bytes.is_empty();
    }
    let place = from - start;
    copy_to(bytes, page, place);
    marks::mark_run(marks, place, bytes.len());
    true
}

// Takes away the marks of the owner's places. Every other bit stays.
pub fn clear_marks(owner: usize, rows: &[Row], marks: &mut [u8])
    ensures { ClearMarks owner rows.now marks.old marks.new }
{
    for row in rows {
        if row.owner == owner {
            marks::clear_run(marks, row.place, row.size);
        }
    }
}
