#![tactic(auto)]
// A line that is listened to, dump after dump: each is taken into a staging page, and committed to the page once it is accepted.
ghost use Rattle.std.specs.Prelude.{◌≡◌, true, ltb, length};
ghost use Rattle.steps.specs.Aliases.{refuse};
ghost use Rattle.listen.specs.Listener.{Begins, is_blank, blanks, after, after_end, decided_by, step_by, step, FromFront, too_small, Tested, Hears, Pauses, PausesWithin, Commits};
ghost use Rattle.listen.specs.Helpers.{Fits, Starts};

use intake::{Intake, Kind, Reply};
use record::{char_counts, chars};
use steps::{LoaderError, Loading};

// Where listening stands.
#[derive(Clone, Copy)]
pub enum Listener {
    // Where a text of this kind begins: none of its lines has a byte yet. If the flag is set, a CR waits for the byte after it.
    Front(Kind, bool),
    // In a dump; or at an unknown place, where everything through the next end record is passed over.
    Within(Intake),
    // A dump was accepted and is staged. It may be committed.
    Ready(Kind),
}

// What is said of a chunk, or of a pause.
#[derive(Clone, Copy)]
pub enum Said {
    // The chunk is used up, and the next one is wanted.
    WantsMore,
    // A dump is decided.
    Decided(Loading),
    // The end record of what was passed over has come.
    Passed,
    // There was no dump to end.
    Quiet,
    // A carry under 522 bytes, or a state that counts more than 522 used.
    CarryTooSmall,
}

// What a chunk or a pause comes to: what is said, how many bytes of the chunk were used, and where listening stands then.
#[derive(Clone, Copy)]
pub struct Step {
    pub said: Said,
    pub used: usize,
    pub listener: Listener,
}

// Why nothing is committed.
#[derive(Clone, Copy)]
pub enum CommitError {
    // No dump is ready.
    NotReady,
    // The sizes of page, marks and staging do not fit.
    BadWindow,
}

// What a commit comes to: where listening stands after it, or why it was not done.
pub type Committed = Result<Listener, CommitError>;

// Empty lines that are passed: so many bytes, and whether a CR waits after them.
#[derive(Clone, Copy)]
struct Blank {
    at: usize,
    cr: bool,
}

// Is a byte one of an empty line, where a CR may wait before it? By cases: with the tests joined by `||` and `&&`, a byte of an empty line
// takes nearly twice the instructions.
fn is_blank(byte: u8, cr: bool) -> bool
    ensures { result ≡ is_blank byte cr }
{
    match byte {
        chars::LF => true,
        chars::CR => !cr,
        _ => false,
    }
}

// The empty lines at the front of a chunk, where a CR may wait before it.
fn pass_blank(chunk: &[u8], cr: bool) -> Blank
    ensures { result ≡ blanks cr chunk.now }
{
    let mut waits = cr;
    for (at, byte) in chunk.iter().enumerate() {
        if !is_blank(*byte, waits) {
            return Blank { at, cr: waits };
        }
        waits = *byte == chars::CR;
    }
    Blank {
        at: chunk.len(),
        cr: waits,
    }
}

// Nothing was used, and listening stands there.
fn stay(said: Said, l: Listener) -> Step
    ensures { result ≡ step said 0 l }
{
    Step {
        said,
        used: 0,
        listener: l,
    }
}

// A window or staging that is refused: nothing was read.
fn refuse(l: Listener) -> Step
    ensures { result ≡ step (Said.Decided (refuse LoaderError.BadWindow 0)) 0 l }
{
    stay(Said::Decided(Err(LoaderError::BadWindow.at(0))), l)
}

// Where listening stands after a dump of this kind that was decided so.
fn follow(kind: Kind, answer: Loading) -> Listener
    ensures { result ≡ after kind answer }
{
    match answer {
        Ok(_) => Listener::Ready(kind),
        Err(_) => Listener::Within(Intake::begin_tail(kind)),
    }
}

// What was passed over is decided: the end record has come. A load that passes over refuses no line; if it did, the refusal would be told.
fn end_tail(kind: Kind, answer: Loading, used: usize) -> Step
    ensures { result ≡ decided_by true kind answer used }
{
    match answer {
        Ok(_) => Step {
            said: Said::Passed,
            used,
            listener: Listener::Front(kind, false),
        },
        Err(_) => Step {
            said: Said::Decided(answer),
            used,
            listener: follow(kind, answer),
        },
    }
}

// A load has decided after so many bytes of the chunk.
fn decide(s: Intake, answer: Loading, used: usize) -> Step
    ensures { result ≡ decided_by s.tail s.kind answer used }
{
    if s.tail {
        return end_tail(s.kind, answer, used);
    }
    Step {
        said: Said::Decided(answer),
        used,
        listener: follow(s.kind, answer),
    }
}

// What a chunk of so many bytes comes to, by the reply of the load that was fed the rest of it, after so many bytes.
fn tell(s: Intake, before: usize, whole: usize, reply: Reply) -> Step
    requires { Fits before whole reply }
    ensures { result ≡ step_by s before whole reply }
{
    match reply {
        Reply::WantsMore(next) => Step {
            said: Said::WantsMore,
            used: whole,
            listener: Listener::Within(next),
        },
        Reply::Decided(answer, used) => decide(s, answer, before + used),
        Reply::CarryTooSmall => stay(Said::CarryTooSmall, Listener::Within(s)),
    }
}

// A new load of this kind, with the CR that waits.
fn start(kind: Kind, cr: bool, stated: &mut [u8]) -> Intake
    ensures { Starts kind cr stated.old result stated.new }
{
    Intake {
        cr,
        ..Intake::begin(kind, stated)
    }
}

// A chunk where a text begins.
fn feed_front(
    kind: Kind,
    cr: bool,
    chunk: &[u8],
    carry: &mut [u8],
    first: u32,
    stage: &mut [u8],
    stated: &mut [u8],
) -> Step
    ensures { FromFront kind cr chunk.now carry.old first stage.old stated.old result carry.new stage.new stated.new }
{
    let blank = pass_blank(chunk, cr);
    if blank.at == chunk.len() {
        return Step {
            said: Said::WantsMore,
            used: blank.at,
            listener: Listener::Front(kind, blank.cr),
        };
    }
    let s = start(kind, blank.cr, stated);
    let reply = s.feed(&chunk[blank.at..], carry, first, stage, stated);
    tell(s, blank.at, chunk.len(), reply)
}

// The same after the tests that come before all else.
fn feed_new(
    l: Listener,
    kind: Kind,
    cr: bool,
    chunk: &[u8],
    carry: &mut [u8],
    first: u32,
    stage: &mut [u8],
    stated: &mut [u8],
) -> Step
    ensures { Tested (ltb (length carry.old) 522) l carry.old first stage.old stated.old result carry.new stage.new stated.new (FromFront kind cr chunk.now carry.old first stage.old stated.old result carry.new stage.new stated.new) }
{
    if carry.len() < char_counts::MOST_KEPT {
        return stay(Said::CarryTooSmall, l);
    }
    if window::is_unfit(first, stage.len(), stated.len()) {
        return refuse(l);
    }
    feed_front(kind, cr, chunk, carry, first, stage, stated)
}

// A chunk in a dump, or while everything is passed over.
fn feed_within(
    s: Intake,
    chunk: &[u8],
    carry: &mut [u8],
    first: u32,
    stage: &mut [u8],
    stated: &mut [u8],
) -> Step
    ensures { Hears (Listener.Within s) chunk.now carry.old first stage.old stated.old result carry.new stage.new stated.new }
{
    match s.feed(chunk, carry, first, stage, stated) {
        Reply::Decided(_, _) if window::is_unfit(first, stage.len(), stated.len()) => {
            refuse(Listener::Within(s))
        }
        reply => tell(s, 0, chunk.len(), reply),
    }
}

// The end of a dump of this kind that was decided so: what comes is a known beginning.
fn close(kind: Kind, answer: Loading) -> Step
    ensures { result ≡ step (Said.Decided answer) 0 (after_end kind answer) }
{
    let listener = match answer {
        Ok(_) => Listener::Ready(kind),
        Err(_) => Listener::Front(kind, false),
    };
    stay(Said::Decided(answer), listener)
}

// A pause in a dump, or while everything is passed over.
fn pause_within(
    s: Intake,
    carry: &mut [u8],
    first: u32,
    stage: &mut [u8],
    stated: &mut [u8],
) -> Step
    ensures { PausesWithin s carry.old first stage.old stated.old result carry.new stage.new stated.new }
{
    if s.tail {
        return stay(Said::Quiet, Listener::Front(s.kind, false));
    }
    match s.finish(carry, first, stage, stated) {
        Some(answer) => close(s.kind, answer),
        None => stay(Said::CarryTooSmall, Listener::Within(s)),
    }
}

// Is a carry of so many bytes too small, or does the load count more than 522 used?
fn is_too_small(l: Listener, carry: usize) -> bool
    ensures { result ≡ too_small l carry }
{
    match l {
        Listener::Within(s) => carry < char_counts::MOST_KEPT || s.used > char_counts::MOST_KEPT,
        _ => carry < char_counts::MOST_KEPT,
    }
}

impl Listener {
    // At a known beginning of a text of this kind, or at an unknown place.
    pub fn begin(kind: Kind, known: bool) -> Listener
        ensures { Begins kind known result }
    {
        if known {
            Listener::Front(kind, false)
        } else {
            Listener::Within(Intake::begin_tail(kind))
        }
    }

    // Feeds a chunk, up to the line that decides a dump. What is left of the chunk is for the next call.
    pub fn feed(
        self,
        chunk: &[u8],
        carry: &mut [u8],
        first: u32,
        stage: &mut [u8],
        stated: &mut [u8],
    ) -> Step
        ensures { Hears self chunk.now carry.old first stage.old stated.old result carry.new stage.new stated.new }
    {
        match self {
            Listener::Front(kind, cr) => feed_new(
                self, kind, cr, chunk, carry, first, stage, stated,
            ),
            Listener::Within(s) => feed_within(s, chunk, carry, first, stage, stated),
            Listener::Ready(kind) => feed_new(
                self, kind, false, chunk, carry, first, stage, stated,
            ),
        }
    }

    // The line is silent, or the input has ended: a dump that is begun ends here, and what comes is a known beginning.
    pub fn pause(self, carry: &mut [u8], first: u32, stage: &mut [u8], stated: &mut [u8]) -> Step
        ensures { Pauses self carry.old first stage.old stated.old result carry.new stage.new stated.new }
    {
        if is_too_small(self, carry.len()) {
            return stay(Said::CarryTooSmall, self);
        }
        if window::is_unfit(first, stage.len(), stated.len()) {
            return refuse(self);
        }
        match self {
            Listener::Front(kind, _) => stay(Said::Quiet, Listener::Front(kind, false)),
            Listener::Within(s) => pause_within(s, carry, first, stage, stated),
            Listener::Ready(_) => stay(Said::Quiet, self),
        }
    }

    // Commits what was staged, if a dump is ready: the bytes at stated places, and the marks.
    pub fn commit(self, stage: &[u8], stated: &[u8], page: &mut [u8], marks: &mut [u8]) -> Committed
        ensures { Commits self stage.now stated.now page.old marks.old result page.new marks.new }
    {
        let Listener::Ready(kind) = self else {
            return Err(CommitError::NotReady);
        };
        if commit::commit(stage, stated, page, marks) {
            Ok(Listener::Front(kind, false))
        } else {
            Err(CommitError::BadWindow)
        }
    }
}
