#![tactic(auto)]
// A text loaded for one owner through a window table that is given in bytes, as C has it.
ghost use Rattle.std.specs.Prelude.{◌≡◌};
ghost use Rattle.intel.specs.Placing.{intel};
ghost use Rattle.srecload.specs.Placing.{s_records};
ghost use Rattle.table.specs.Load.{torn_or_long, RowsOf, IsBad, LoadBytes};

use std::array;
use steps::{LoaderError, Loading};
use window::by_line::{self, LineByLine};
use window::{Row, owners};

// The bytes of a window in a table.
const WINDOW: usize = 24;

// The most windows of a table.
const MOST_WINDOWS: usize = 16;

// Whether bytes are not a table: a part of a window is left over, or there are too many windows.
fn is_torn_or_long(table: &[u8]) -> bool
    ensures { result ≡ torn_or_long table.now }
{
    table.len() % WINDOW != 0 || table.len() > WINDOW * MOST_WINDOWS
}

// The windows of a table, and windows of nobody after them.
fn rows_of(table: &[u8]) -> [Row; MOST_WINDOWS]
    ensures { RowsOf table.now result }
{
    array::from_fn(|i| entries::row_at(table, i))
}

// Whether a table is refused, with a pool and marks of these lengths.
pub fn is_bad(table: &[u8], pool: usize, marks: usize) -> bool
    ensures { IsBad table.now pool marks result }
{
    if is_torn_or_long(table) {
        return true;
    }
    let rows = rows_of(table);
    window::is_bad_table(owners::FIRST, &rows[..table.len() / WINDOW], pool, marks)
}

// Loads a text for one owner through a table into a shared pool, by a walk through such texts.
fn load_by<W: LineByLine>(
    text: &[u8],
    owner: u32,
    table: &[u8],
    pool: &mut [u8],
    marks: &mut [u8],
) -> Loading
    ensures { LoadBytes W.source text.now owner table.now pool.old marks.old result pool.new marks.new }
{
    if is_torn_or_long(table) {
        return Err(LoaderError::BadTable.at(0));
    }
    let rows = rows_of(table);
    by_line::load_through_table::<W>(
        text,
        owner as usize,
        &rows[..table.len() / WINDOW],
        pool,
        marks,
    )
}

// Loads a text of Intel HEX so.
pub fn load(text: &[u8], owner: u32, table: &[u8], pool: &mut [u8], marks: &mut [u8]) -> Loading
    ensures { LoadBytes intel text.now owner table.now pool.old marks.old result pool.new marks.new }
{
    load_by::<loader::Walk>(text, owner, table, pool, marks)
}

// Loads a text of S-records so.
pub fn load_srecords(
    text: &[u8],
    owner: u32,
    table: &[u8],
    pool: &mut [u8],
    marks: &mut [u8],
) -> Loading
    ensures { LoadBytes s_records text.now owner table.now pool.old marks.old result pool.new marks.new }
{
    load_by::<srecload::Walk>(text, owner, table, pool, marks)
}
