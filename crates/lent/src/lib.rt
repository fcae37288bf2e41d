#![tactic(auto)]
// The two lent forms, a reader that holds its text and an object from a lent list, called with values. Their callers need no proof by hand.
ghost use Rattle.std.specs.Prelude.{◌≤◌, take};
ghost use Rattle.reader.specs.Text.{Next};
ghost use Rattle.writer.specs.Object.{WriteObject};
ghost use Rattle.lent.specs.Lent.{FirstRecord, NthOf};

use reader::{Reader, ReaderOptions, Replied, Reply, State};
use record::Record;
use writer::Written;

// The first answer of a text, with both stops on.
pub fn first_record(text: &[u8], pool: &mut [u8], at: usize) -> Reply
    ensures { FirstRecord text.now pool.old at result pool.new }
{
    let mut reader = Reader::new(text);
    reader.next(pool, at)
}

// The next answer of a text from a state on, by a reader that holds the text.
pub fn next_of(text: &[u8], state: State, pool: &mut [u8], at: usize) -> Replied
    ensures { Next state text.now pool.old at result pool.new }
{
    let mut reader = Reader { text, state };
    let reply = reader.next(pool, at);
    Replied {
        reply,
        state: reader.state,
    }
}

// The answer of a text after n others, and where the reading stands then. One reader is asked n times and once more, with the same pool and position.
pub fn nth_of(text: &[u8], options: ReaderOptions, pool: &mut [u8], at: usize, n: usize) -> Replied
    ensures { NthOf options text.now pool.old at n result pool.new }
{
    let mut reader = Reader::new_with_options(text, options);
    for _ in 0..n {
        reader.next(pool, at);
    }
    let reply = reader.next(pool, at);
    Replied {
        reply,
        state: reader.state,
    }
}

// The object of the first n records of an array, or of all where it has fewer.
pub fn object_of(records: [Record; 64], n: usize, pool: &[u8], out: &mut [u8]) -> Written
    ensures { WriteObject (take n records) pool.now out.old result out.new }
{
    let front = n.min(records.len());
    writer::create_object_file_representation(&records[..front], pool, out)
}
