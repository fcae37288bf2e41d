#![tactic(auto)]
// The panel's light: what a dump says of a count that the controller keeps, beside the count that was known before it.
ghost use Rattle.std.specs.Prelude.{◌≡◌};
ghost use Rattle.intel.specs.Placing.{intel};
ghost use Rattle.srecload.specs.Placing.{s_records};
ghost use Rattle.steps.specs.Aliases.{refuse};
ghost use Rattle.light.specs.Light.{SetUp, Dumps};
ghost use Rattle.light.specs.After.{After};
ghost use Rattle.light.specs.Helpers.{Compared, MarkedInside, Counts, Held, Tells, GoesWith};

use steps::{LoaderError, Loading};
use window::by_line::{self, LineByLine};

// How far a count may have moved on, at most, to count as forward.
const MOST_FORWARD: u16 = 32767;

// What the light shows after a dump.
#[derive(Clone, Copy)]
pub enum Color {
    // The dump was refused.
    Broken,
    // It states no count.
    NoCount,
    // It states a count, and none was known.
    First,
    // The count moved forward.
    Green,
    // The count is the one that was known.
    Stale,
    // The count is any other.
    Restarted,
}

// A light: the window of its page, the places of the count's high and low byte, and the count that was stated last.
#[derive(Clone, Copy)]
pub struct Light {
    pub first: u32,
    pub length: usize,
    pub high: usize,
    pub low: usize,
    pub known: Option<u16>,
}

// What a dump returns: the color, what its load returns, and the light after it.
#[derive(Clone, Copy)]
pub struct Dumped {
    pub color: Color,
    pub answer: Loading,
    pub light: Light,
}

// A light for a page of so many places from an address on. The places of the count are numbered from 0 in it, and may be the same; none if one of them is not in the page.
pub fn set_up(first: u32, length: usize, high: usize, low: usize) -> Option<Light>
    ensures { SetUp first length high low result }
{
    if high >= length || low >= length {
        return None;
    }
    Some(Light {
        first,
        length,
        high,
        low,
        known: None,
    })
}

// The color of a count, by the one that was known.
fn compare(known: Option<u16>, count: u16) -> Color
    ensures { Compared known count result }
{
    let Some(before) = known else {
        return Color::First;
    };
    let forward = count.wrapping_sub(before);
    if forward == 0 {
        Color::Stale
    } else if forward <= MOST_FORWARD {
        Color::Green
    } else {
        Color::Restarted
    }
}

// The count that page and marks hold after a load: none unless both of its places are marked.
fn count_in(page: &[u8], marks: &[u8], high: usize, low: usize) -> Option<u16>
    requires { MarkedInside page.now marks.now }
    ensures { Counts page.now marks.now high low result }
{
    if marks::is_marked(marks, high) && marks::is_marked(marks, low) {
        Some(u16::from_be_bytes([page[high], page[low]]))
    } else {
        None
    }
}

// What a load comes to.
fn tell(light: Light, answer: Loading, page: &[u8], marks: &[u8]) -> Dumped
    requires { Held answer page.now marks.now }
    ensures { Tells light answer page.now marks.now result }
{
    if answer.is_err() {
        return Dumped {
            color: Color::Broken,
            answer,
            light,
        };
    }
    match count_in(page, marks, light.high, light.low) {
        None => Dumped {
            color: Color::NoCount,
            answer,
            light,
        },
        Some(count) => Dumped {
            color: compare(light.known, count),
            answer,
            light: Light {
                known: Some(count),
                ..light
            },
        },
    }
}

// What a dump into a page of another length comes to.
fn misfit(light: Light) -> Dumped
    ensures { result ≡ record { color = Color.Broken; answer = refuse LoaderError.BadWindow 0; light = light } }
{
    Dumped {
        color: Color::Broken,
        answer: Err(LoaderError::BadWindow.at(0)),
        light,
    }
}

// Do marks of so many places go with an answer? With a refusal any do; with an acceptance a row with no unused bit set, as a load leaves it.
fn goes_with(answer: Loading, places: usize, marks: &[u8]) -> bool
    ensures { GoesWith answer places marks.now result }
{
    answer.is_err()
        || marks.len() == marks::row_length(places) && marks::first_unused(marks, places).is_none()
}

impl Light {
    // Loads a dump into the page, by a walk through such texts, and says what the light shows then.
    fn dump_by<W: LineByLine>(self, text: &[u8], page: &mut [u8], marks: &mut [u8]) -> Dumped
        ensures { Dumps W.source self text.now page.old marks.old result page.new marks.new }
    {
        if page.len() != self.length {
            return misfit(self);
        }
        let answer = by_line::load_through_window::<W>(text, self.first, page, marks);
        tell(self, answer, page, marks)
    }

    // Loads a dump of Intel HEX into the page, and says what the light shows then.
    pub fn dump(self, text: &[u8], page: &mut [u8], marks: &mut [u8]) -> Dumped
        ensures { Dumps intel self text.now page.old marks.old result page.new marks.new }
    {
        self.dump_by::<loader::Walk>(text, page, marks)
    }

    // The same for a dump of S-records.
    pub fn dump_srecords(self, text: &[u8], page: &mut [u8], marks: &mut [u8]) -> Dumped
        ensures { Dumps s_records self text.now page.old marks.old result page.new marks.new }
    {
        self.dump_by::<srecload::Walk>(text, page, marks)
    }

    // What the light shows after a load that returned this answer and left these page and marks.
    // A page of another length, and marks that do not go with the answer, are refused as a dump into such a page is.
    pub fn after(self, answer: Loading, page: &[u8], marks: &[u8]) -> Dumped
        ensures { After self answer page.now marks.now result }
    {
        if page.len() != self.length || !goes_with(answer, page.len(), marks) {
            return misfit(self);
        }
        tell(self, answer, page, marks)
    }
}
