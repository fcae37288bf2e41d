#![tactic(auto)]
// What was staged for a page, committed: the bytes at marked places, and the marks.
ghost use Rattle.std.specs.Prelude.{◌≡◌, ◌-◌, ◌≤◌, length, take, drop};
ghost use Rattle.window.specs.Promises.{Copied};
ghost use Rattle.commit.specs.Commit.{committed, Commit};

// Copies the staged bytes of the places from `start` on, up to `end`.
fn copy_run(stage: &[u8], start: usize, end: usize, page: &mut [u8])
    requires { (start ≤ end) × (end ≤ length stage.now) × (end ≤ length page.old) }
    ensures { Copied (take (end - start) (drop start stage.now)) start page.old page.new }
{
    copying::copy(&stage[start..end], &mut page[start..end]);
}

// Copies the staged bytes at marked places, run by run.
fn copy_marked(stage: &[u8], stated: &[u8], page: &mut [u8])
    requires { length stage.now ≡ length page.old }
    ensures { page.new ≡ committed stage.now stated.now page.old }
{
    let mut place = 0;
    // A while: each turn passes a whole run of marked places, so there is no index to count.
    while place < page.len() {
        let start = marks::next_marked(stated, page.len(), place);
        let end = marks::next_unmarked(stated, page.len(), start);
        copy_run(stage, start, end, page);
        place = end;
    }
}

// Copies what was staged: the bytes at marked places, and the row of marks as it is. Every other byte of the page stays.
// Where the sizes do not fit it returns false and changes nothing.
pub fn commit(stage: &[u8], stated: &[u8], page: &mut [u8], marks: &mut [u8]) -> bool
    ensures { Commit stage.now stated.now page.old marks.old result page.new marks.new }
{
    if stage.len() != page.len()
        || stated.len() != marks.len()
        || marks.len() != marks::row_length(page.len())
    {
        return false;
    }
    copy_marked(stage, stated, page);
    copying::copy(stated, marks);
    true
}
