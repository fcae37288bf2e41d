// A text loaded in two passes, line by line, whatever its records are. The first pass judges the whole text, and the second writes it.
ghost use Rattle.std.specs.Prelude.{◌≡◌, ℕ, ◌^◌, ◌<◌, List, length};
ghost use Rattle.steps.specs.declared.Tally.{Tally};
ghost use Rattle.steps.specs.Steps.{Step, nothing_yet, decision, verdict, stated};
ghost use Rattle.steps.specs.Source.{Source, steps_of};
ghost use Rattle.steps.specs.Told.{told_loading};
ghost use Rattle.window.specs.Table.{site_of, inside_of, Sound};
ghost use Rattle.window.specs.Load.{LoadWindow};
ghost use Rattle.window.specs.Tables.{LoadTable};
ghost use Rattle.window.specs.Promises.{Painted};

use crate::{Row, owners};
use record::payload_sizes;
use steps::{LoaderError, Loading, Tally};

// What a line comes to in the first pass: the walk and the tally after it, or the answer. It is no `Result`: an answer that stops the walk may be an acceptance.
#[derive(Clone, Copy)]
pub enum Turn<W> {
    On(W, Tally),
    Stop(Loading),
}

// A walk through a text, which knows what the next line comes to in each pass.
pub trait LineByLine: Copy {
    ghost use Rattle.window.specs.LineByLine.{Begun, JudgedLine, WroteLine};

    // What a line leaves for those after it.
    ghost Kept: { Type 0 };

    // The source of the text's steps.
    ghost source: { Source Kept };

    // The walk is somewhere in the text.
    ghost stands_in: { Self → List ℕ → Type 0 };

    // The lines before it can have come to this tally.
    ghost has_met: { Self → List ℕ → Tally → Type 0 };

    // The steps that it has still before it.
    ghost ahead: { Self → List ℕ → List Step };

    // How much is left of the text.
    ghost left: { Self → List ℕ → ℕ };

    // At the beginning of a text.
    fn begin() -> Self
        ensures { (text : List ℕ) → length text < 2 ^ 64 → Begun source stands_in has_met ahead result text };

    // What the next line comes to in the first pass. Nothing is written.
    fn judge_next(
        self,
        text: &[u8],
        pool: &mut [u8],
        owner: usize,
        rows: &[Row],
        tally: Tally,
    ) -> Turn<Self>
        requires { stands_in self text.now × has_met self text.now tally × (length pool.old ≡ 255) }
        ensures { JudgedLine stands_in has_met ahead left (inside_of owner rows.now) text.now self tally result };

    // The next line in the second pass: the walk after it; none at the end.
    fn write_next(
        self,
        text: &[u8],
        pool: &mut [u8],
        owner: usize,
        rows: &[Row],
        page: &mut [u8],
        marks: &mut [u8],
    ) -> Option<Self>
        requires { stands_in self text.now × (length pool.old ≡ 255) × Sound (length page.old) rows.now }
        ensures { WroteLine stands_in ahead left (site_of owner rows.now) text.now self page.old marks.old result page.new marks.new };
}

// The first pass: the answer to a text for windows that are not refused. Nothing is written.
fn judge_text<W: LineByLine>(text: &[u8], owner: usize, rows: &[Row]) -> Loading
    ensures { told_loading result ≡ verdict (decision (inside_of owner rows.now) nothing_yet (steps_of W.source text.now)) }
{
    let mut pool = [0u8; payload_sizes::MOST_DATA];
    let mut w = W::begin();
    let mut tally = Tally {
        records: 0,
        start: None,
    };
    // A loop: each turn passes a line, and the one that decides has the answer.
    loop {
        match w.judge_next(text, &mut pool, owner, rows, tally) {
            Turn::On(next, t) => {
                w = next;
                tally = t;
            }
            Turn::Stop(answer) => return answer,
        }
    }
}

// The second pass: all that a text states, onto page and marks.
fn write_text<W: LineByLine>(
    text: &[u8],
    owner: usize,
    rows: &[Row],
    page: &mut [u8],
    marks: &mut [u8],
)
    requires { Sound (length page.old) rows.now }
    ensures { Painted (site_of owner rows.now) (stated (steps_of W.source text.now)) page.old marks.old page.new marks.new }
{
    let mut pool = [0u8; payload_sizes::MOST_DATA];
    let mut w = W::begin();
    while let Some(next) = w.write_next(text, &mut pool, owner, rows, page, marks) {
        w = next;
    }
}

// Loads a text into a page, whose first place has the address `first`. A mark for each place says whether the text states it.
pub fn load_through_window<W: LineByLine>(
    text: &[u8],
    first: u32,
    page: &mut [u8],
    marks: &mut [u8],
) -> Loading
    ensures { LoadWindow W.source text.now first page.old marks.old result page.new marks.new }
{
    if crate::is_unfit(first, page.len(), marks.len()) {
        return Err(LoaderError::BadWindow.at(0));
    }
    let rows = crate::one_window(first, page.len());
    let answer = judge_text::<W>(text, owners::FIRST, &rows);
    if steps::is_accepted(answer) {
        marks::clear(marks);
        write_text::<W>(text, owners::FIRST, &rows, page, marks);
    }
    answer
}

// Loads a text for one owner through a window table into a shared pool. A mark for each of the owner's places says whether the text states it; every other byte and mark stays.
pub fn load_through_table<W: LineByLine>(
    text: &[u8],
    owner: usize,
    rows: &[Row],
    pool: &mut [u8],
    marks: &mut [u8],
) -> Loading
    ensures { LoadTable W.source owner rows.now text.now pool.old marks.old result pool.new marks.new }
{
    if crate::is_bad_table(owner, rows, pool.len(), marks.len()) {
        return Err(LoaderError::BadTable.at(0));
    }
    let answer = judge_text::<W>(text, owner, rows);
    if steps::is_accepted(answer) {
        crate::clear_marks(owner, rows, marks);
        write_text::<W>(text, owner, rows, pool, marks);
    }
    answer
}
