#![tactic(auto)]
// A row of marks, a bit for each place: place p is bit p modulo 8 of byte p / 8, lowest bit first.
ghost use Rattle.std.specs.Prelude.{◌≡◌, ◌+◌, ◌/◌, ◌%◌, ◌^◌, ◌≤◌, ◌<◌};
ghost use Rattle.marks.specs.Marks.{byte_of, ones_at, with_bits, sought, RowLength, IsMarked, FirstUnused, Clears, ChangeRun, MarkRun, ClearRun, NextOf, NextMarked, NextUnmarked, Lowest, LowestPlace};

// How many marks a byte holds.
const A_BYTE: usize = 8;

// How many bytes the row of so many places has.
#[tactic(auto, unfolding(crate::specs::Marks::row_length))]
pub fn row_length(places: usize) -> usize
    ensures { RowLength places result }
{
    places.div_ceil(A_BYTE)
}

// Whether a place is marked. No place outside the row is.
#[tactic(auto, unfolding(crate::specs::Marks::mark_at, crate::specs::Marks::bit))]
pub fn is_marked(marks: &[u8], place: usize) -> bool
    ensures { IsMarked marks.now place result }
{
    bits_from(marks, place) % 2 == 1
}

// Takes every mark away, and sets the unused bits to 0.
pub fn clear(marks: &mut [u8])
    ensures { Clears marks.old marks.new }
{
    marks.fill(0);
}

// A byte whose bits from `first` on are set, `count` of them.
#[tactic(auto, using(crate::proofs::Runs::ones_shifted))]
fn ones(first: usize, count: usize) -> u8
    requires { (0 < count) × (first + count ≤ 8) }
    ensures { result ≡ ones_at first count }
{
    (u8::MAX >> (A_BYTE - count)) << first
}

// A byte with the bits of a mask set, or else cleared.
#[tactic(auto, using(crate::proofs::Bits::cleared_byte), unfolding(crate::specs::Marks::with_bits))]
fn changed(byte: u8, mask: u8, set: bool) -> u8
    ensures { result ≡ with_bits set byte mask }
{
    if set { byte | mask } else { byte & !mask }
}

// Sets or clears the marks of `len` places from a place on: all that lie in a byte at once. Outside the row nothing changes.
fn change_run(marks: &mut [u8], from: usize, len: usize, set: bool)
    ensures { ChangeRun set marks.old from len marks.new }
{
    let mut first = from % A_BYTE;
    let mut left = len;
    for at in from / A_BYTE..marks.len() {
        if left == 0 {
            return;
        }
        let count = left.min(A_BYTE - first);
        marks[at] = changed(marks[at], ones(first, count), set);
        first = 0;
        left -= count;
    }
}

// Marks `len` places from a place on. Outside the row nothing changes.
pub fn mark_run(marks: &mut [u8], from: usize, len: usize)
    ensures { MarkRun marks.old from len marks.new }
{
    change_run(marks, from, len, true);
}

// Takes away the marks of `len` places from a place on. Outside the row nothing changes.
pub fn clear_run(marks: &mut [u8], from: usize, len: usize)
    ensures { ClearRun marks.old from len marks.new }
{
    change_run(marks, from, len, false);
}

// The byte that holds the mark of a place. Outside the row it is 0.
#[tactic(auto, unfolding(crate::specs::Marks::byte_of))]
fn byte_of(marks: &[u8], place: usize) -> u8
    ensures { result ≡ byte_of marks.now place }
{
    marks.get(place / A_BYTE).copied().unwrap_or(0)
}

// The bits of a place's byte from the place on, the place's own the lowest. Outside the row all are 0.
fn bits_from(marks: &[u8], place: usize) -> u8
    ensures { result ≡ byte_of marks.now place / 2 ^ (place % 8) }
{
    byte_of(marks, place) >> (place % A_BYTE)
}

// The lowest set bit of a byte that has one.
fn lowest(bits: u8) -> usize
    requires { 0 < bits }
    ensures { Lowest bits result }
{
    bits.trailing_zeros() as usize
}

// The place of the lowest set bit, where bit 0 has the place given; or the number of places if that is less.
fn lowest_place(places: usize, place: usize, bits: u8) -> usize
    requires { (0 < bits) × (place ≤ places) }
    ensures { LowestPlace places place bits result }
{
    place + lowest(bits).min(places - place)
}

// A byte with a 1 for each place that is sought: each that is marked, or else each that is not.
#[tactic(auto, unfolding(crate::specs::Marks::sought))]
fn sought(byte: u8, marked: bool) -> u8
    ensures { result ≡ sought marked byte }
{
    if marked { byte } else { !byte }
}

// The first place from a place on that is marked, or else that is not; `places` if none is before that.
// Where `from` is not below `places` it is returned. A byte without a place that is sought is passed at once.
// Built into its two callers, so that neither asks in its loop what is sought.
#[inline(always)]
fn next(marks: &[u8], places: usize, from: usize, marked: bool) -> usize
    ensures { NextOf marked marks.now places from result }
{
    if places <= from {
        return from;
    }
    let bits = sought(byte_of(marks, from), marked) >> (from % A_BYTE);
    if bits != 0 {
        return lowest_place(places, from, bits);
    }
    let bytes = row_length(places);
    let end = bytes.min(marks.len());
    for at in from / A_BYTE + 1..end {
        let bits = sought(marks[at], marked);
        if bits != 0 {
            return lowest_place(places, A_BYTE * at, bits);
        }
    }
    // No place outside the row is marked.
    if !marked && end < bytes {
        A_BYTE * end
    } else {
        places
    }
}

// The first marked place from a place on, or `places` if none is before that. No place outside the row is marked.
// Where `from` is not below `places` it is returned. A byte without a mark is passed at once.
pub fn next_marked(marks: &[u8], places: usize, from: usize) -> usize
    ensures { NextMarked marks.now places from result }
{
    next(marks, places, from, true)
}

// The first place without a mark from a place on, or `places` if none is before that; `from` where it is not below `places`.
// A byte full of marks is passed at once.
pub fn next_unmarked(marks: &[u8], places: usize, from: usize) -> usize
    ensures { NextUnmarked marks.now places from result }
{
    next(marks, places, from, false)
}

// The lowest set bit of the last byte after the last place, by the place that it would have; none if all are 0.
pub fn first_unused(marks: &[u8], places: usize) -> Option<usize>
    ensures { FirstUnused marks.now places result }
{
    if places % A_BYTE == 0 {
        return None;
    }
    let bits = bits_from(marks, places);
    if bits == 0 {
        return None;
    }
    Some(places + lowest(bits))
}
