#![tactic(auto)]
// The C entry points: the library's functions on numbers and byte slices. include/ihex.h declares them.
ghost use Rattle.std.specs.Prelude.{◌≡◌};
ghost use Rattle.checksum.specs.Checksum.{Checksum};
ghost use Rattle.codes.specs.Lights.{light_of};
ghost use Rattle.codes.specs.States.{state_of, chunks_of, place_of};
ghost use Rattle.codes.specs.Listeners.{listener_of};
ghost use Rattle.ihex.specs.Listening.{seven, TellSaid, IhexFeed, IhexPause, flags_after, IhexCommit, IhexLightAfter};
ghost use Rattle.ihex.specs.Entries.{start_of, six, TellStep, IhexReadRecord, IhexReadSrecord, IhexNext, IhexNextChunk, IhexFinish, IhexShown, IhexToRecordString, IhexToSrecordString, IhexCreateObjectFileRepresentation, TellLoad, IhexLoad, IhexLoadSrecords, IhexLoadTable, IhexLoadSrecordsTable, IhexCheckTable, IhexPageFileLength, IhexWritePage, IhexSalvage, asked_in, IhexAsk, lit, TellLight, IhexSetUpLight, IhexLight, IhexLightSrecords};

use chunks::{ChunkStep, Place};
use light::Dumped;
use listen::{Committed, Step};
use steps::Loading;

// The checksum of the bytes.
#[unsafe(no_mangle)]
pub extern "C" fn ihex_checksum(bytes: &[u8]) -> u8
    ensures { Checksum bytes.now result }
{
    checksum::checksum(bytes)
}

// One line to a record or a refusal.
#[unsafe(no_mangle)]
pub extern "C" fn ihex_read_record(
    line: &[u8],
    pool: &mut [u8],
    at: usize,
    a: &mut u64,
    b: &mut u64,
    c: &mut u64,
) -> u32
    ensures { IhexReadRecord line.now pool.old at result a.new b.new c.new pool.new }
{
    let told = codes::code_answer(reader::read_record(line, pool, at));
    *a = told.a;
    *b = told.b;
    *c = told.c;
    told.code
}

// One line of S-records to a record or a refusal.
#[unsafe(no_mangle)]
pub extern "C" fn ihex_read_srecord(
    line: &[u8],
    pool: &mut [u8],
    at: usize,
    a: &mut u64,
    b: &mut u64,
    c: &mut u64,
) -> u32
    ensures { IhexReadSrecord line.now pool.old at result a.new b.new c.new pool.new }
{
    let told = codes::code_sanswer(srec::read_srecord(line, pool, at));
    *a = told.a;
    *b = told.b;
    *c = told.c;
    told.code
}

// The next answer of a text, from a state in numbers, which is moved.
#[unsafe(no_mangle)]
pub extern "C" fn ihex_next(
    text: &[u8],
    pool: &mut [u8],
    at: usize,
    position: &mut usize,
    line: &mut usize,
    flags: &mut u8,
    a: &mut u64,
    b: &mut u64,
    c: &mut u64,
) -> u32
    ensures { IhexNext (state_of position.old line.old flags.old) text.now pool.old at result position.new line.new flags.new a.new b.new c.new pool.new }
{
    let step = codes::state_from(*position, *line, *flags).next(text, pool, at);
    let state = step.state;
    *position = state.position;
    *line = state.line;
    *flags = codes::flags_from(state);
    let told = codes::code_reply(step.reply);
    *a = told.a;
    *b = told.b;
    *c = told.c;
    told.code
}

// A step of a reader of chunks, in numbers. Here and below each number goes out through a pointer of its own, as the C interface has it.
fn tell_step(
    step: ChunkStep,
    position: &mut usize,
    line: &mut usize,
    empties: &mut usize,
    used: &mut usize,
    skipped: &mut u16,
    flags: &mut u8,
    lies: &mut u8,
    from: &mut usize,
    len: &mut usize,
    a: &mut u64,
    b: &mut u64,
    c: &mut u64,
) -> u32
    ensures { TellStep step result position.new line.new empties.new used.new skipped.new flags.new lies.new from.new len.new a.new b.new c.new }
{
    let told = codes::code_chunk_reply(step.reply);
    *a = told.a;
    *b = told.b;
    *c = told.c;
    let spot = codes::spot_of(step.lies);
    *lies = spot.lies;
    *from = spot.from;
    *len = spot.len;
    let state = step.state;
    *position = state.position;
    *line = state.line;
    *empties = state.empties;
    *used = state.used;
    *skipped = state.skipped;
    *flags = codes::chunk_flags_from(state);
    told.code
}

// The next answer of a text that comes in chunks, from a state in numbers, which is moved.
#[unsafe(no_mangle)]
pub extern "C" fn ihex_next_chunk(
    chunk: &[u8],
    carry: &mut [u8],
    pool: &mut [u8],
    at: usize,
    position: &mut usize,
    line: &mut usize,
    empties: &mut usize,
    used: &mut usize,
    skipped: &mut u16,
    flags: &mut u8,
    lies: &mut u8,
    from: &mut usize,
    len: &mut usize,
    a: &mut u64,
    b: &mut u64,
    c: &mut u64,
) -> u32
    ensures { IhexNextChunk (chunks_of position.old line.old empties.old used.old skipped.old flags.old) chunk.now carry.old pool.old at result position.new line.new empties.new used.new skipped.new flags.new lies.new from.new len.new a.new b.new c.new carry.new pool.new }
{
    let state = codes::chunks_from(*position, *line, *empties, *used, *skipped, *flags);
    let step = state.next(chunk, carry, pool, at);
    tell_step(
        step, position, line, empties, used, skipped, flags, lies, from, len, a, b, c,
    )
}

// Ends a text that came in chunks.
#[unsafe(no_mangle)]
pub extern "C" fn ihex_finish(
    carry: &mut [u8],
    pool: &mut [u8],
    at: usize,
    position: &mut usize,
    line: &mut usize,
    empties: &mut usize,
    used: &mut usize,
    skipped: &mut u16,
    flags: &mut u8,
    lies: &mut u8,
    from: &mut usize,
    len: &mut usize,
    a: &mut u64,
    b: &mut u64,
    c: &mut u64,
) -> u32
    ensures { IhexFinish (chunks_of position.old line.old empties.old used.old skipped.old flags.old) carry.old pool.old at result position.new line.new empties.new used.new skipped.new flags.new lies.new from.new len.new a.new b.new c.new carry.new pool.new }
{
    let state = codes::chunks_from(*position, *line, *empties, *used, *skipped, *flags);
    let step = state.finish(carry, pool, at);
    tell_step(
        step, position, line, empties, used, skipped, flags, lies, from, len, a, b, c,
    )
}

// Where a place begins in its buffer: at its front where the buffer has no such place.
fn start_at(place: Place, chunk: &[u8]) -> usize
    ensures { result ≡ start_of place chunk.now }
{
    match place {
        Place::InChunk { from, .. } if from <= chunk.len() => from,
        _ => 0,
    }
}

// How many bytes the line at a place has, and where it begins in its buffer.
#[unsafe(no_mangle)]
pub extern "C" fn ihex_shown<'a>(
    lies: u8,
    from: usize,
    len: usize,
    chunk: &'a [u8],
    carry: &'a [u8],
    start: &mut usize,
) -> usize
    ensures { IhexShown (place_of lies from len) chunk.now carry.now start.new result }
{
    let place = codes::place_from(lies, from, len);
    *start = start_at(place, chunk);
    chunks::shown(place, chunk, carry).len()
}

// A record, given in numbers, to its line.
#[unsafe(no_mangle)]
pub extern "C" fn ihex_to_record_string(
    kind: u8,
    number: u32,
    second: u16,
    at: usize,
    len: usize,
    pool: &[u8],
    out: &mut [u8],
    value: &mut u64,
) -> u32
    ensures { IhexToRecordString kind number second at len pool.now out.old result value.new out.new }
{
    let told = codes::code_attempt(entries::write_record(kind, number, second, at, len, pool, out));
    *value = told.a;
    told.code
}

// An S-record, given by its type's digit and its numbers, to its line.
#[unsafe(no_mangle)]
pub extern "C" fn ihex_to_srecord_string(
    kind: u8,
    address: u32,
    at: usize,
    len: usize,
    pool: &[u8],
    out: &mut [u8],
    value: &mut u64,
) -> u32
    ensures { IhexToSrecordString kind address at len pool.now out.old result value.new out.new }
{
    let told = codes::code_sattempt(entries::write_srecord(kind, address, at, len, pool, out));
    *value = told.a;
    told.code
}

// A list of records in bytes to an object's text: surveyed first, then written.
#[unsafe(no_mangle)]
pub extern "C" fn ihex_create_object_file_representation(
    list: &[u8],
    pool: &[u8],
    out: &mut [u8],
    value: &mut u64,
) -> u32
    ensures { IhexCreateObjectFileRepresentation list.now pool.now out.old result value.new out.new }
{
    let told = codes::code_attempt(entries::write_list(list, pool, out));
    *value = told.a;
    told.code
}

// A load's answer in numbers.
fn tell_load(
    answer: Loading,
    line: &mut usize,
    start: &mut u8,
    a: &mut u64,
    b: &mut u64,
    c: &mut u64,
) -> u32
    ensures { TellLoad answer (six result line.new start.new a.new b.new c.new) }
{
    let told = codes::code_loading(answer);
    *line = codes::line_at(answer);
    *start = codes::start_kind(answer);
    *a = told.a;
    *b = told.b;
    *c = told.c;
    told.code
}

// A text into a page with marks.
#[unsafe(no_mangle)]
pub extern "C" fn ihex_load(
    text: &[u8],
    first: u32,
    page: &mut [u8],
    marks: &mut [u8],
    line: &mut usize,
    start: &mut u8,
    a: &mut u64,
    b: &mut u64,
    c: &mut u64,
) -> u32
    ensures { IhexLoad text.now first page.old marks.old (six result line.new start.new a.new b.new c.new) page.new marks.new }
{
    let answer = loader::load(text, first, page, marks);
    tell_load(answer, line, start, a, b, c)
}

// A text of S-records into a page with marks.
#[unsafe(no_mangle)]
pub extern "C" fn ihex_load_srecords(
    text: &[u8],
    first: u32,
    page: &mut [u8],
    marks: &mut [u8],
    line: &mut usize,
    start: &mut u8,
    a: &mut u64,
    b: &mut u64,
    c: &mut u64,
) -> u32
    ensures { IhexLoadSrecords text.now first page.old marks.old (six result line.new start.new a.new b.new c.new) page.new marks.new }
{
    let answer = srecload::load_srecords(text, first, page, marks);
    tell_load(answer, line, start, a, b, c)
}

// A text for one owner through a window table into a shared pool.
#[unsafe(no_mangle)]
pub extern "C" fn ihex_load_table(
    text: &[u8],
    owner: u32,
    table: &[u8],
    pool: &mut [u8],
    marks: &mut [u8],
    line: &mut usize,
    start: &mut u8,
    a: &mut u64,
    b: &mut u64,
    c: &mut u64,
) -> u32
    ensures { IhexLoadTable text.now owner table.now pool.old marks.old (six result line.new start.new a.new b.new c.new) pool.new marks.new }
{
    let answer = table::load(text, owner, table, pool, marks);
    tell_load(answer, line, start, a, b, c)
}

// A text of S-records for one owner through a window table into a shared pool.
#[unsafe(no_mangle)]
pub extern "C" fn ihex_load_srecords_table(
    text: &[u8],
    owner: u32,
    table: &[u8],
    pool: &mut [u8],
    marks: &mut [u8],
    line: &mut usize,
    start: &mut u8,
    a: &mut u64,
    b: &mut u64,
    c: &mut u64,
) -> u32
    ensures { IhexLoadSrecordsTable text.now owner table.now pool.old marks.old (six result line.new start.new a.new b.new c.new) pool.new marks.new }
{
    let answer = table::load_srecords(text, owner, table, pool, marks);
    tell_load(answer, line, start, a, b, c)
}

// Whether a window table is good for a pool and marks of these lengths.
#[unsafe(no_mangle)]
pub extern "C" fn ihex_check_table(table: &[u8], pool_len: usize, marks_len: usize) -> u32
    ensures { IhexCheckTable table.now pool_len marks_len result }
{
    codes::code_table(table::is_bad(table, pool_len, marks_len))
}

// The length of the file of a page with marks.
#[unsafe(no_mangle)]
pub extern "C" fn ihex_page_file_length(
    first: u32,
    page: &[u8],
    marks: &[u8],
    value: &mut u64,
) -> u32
    ensures { IhexPageFileLength first page.now marks.now result value.new }
{
    let told = codes::code_paged(page::page_file_length(first, page, marks));
    *value = told.a;
    told.code
}

// The file of a page with marks.
#[unsafe(no_mangle)]
pub extern "C" fn ihex_write_page(
    first: u32,
    page: &[u8],
    marks: &[u8],
    out: &mut [u8],
    value: &mut u64,
) -> u32
    ensures { IhexWritePage first page.now marks.now out.old result value.new out.new }
{
    let told = codes::code_paged(page::write_page(first, page, marks, out));
    *value = told.a;
    told.code
}

// What can be saved of a text, and a list of what was dropped.
#[unsafe(no_mangle)]
pub extern "C" fn ihex_salvage(
    text: &[u8],
    out: &mut [u8],
    list: &mut [u8],
    a: &mut u64,
    b: &mut u64,
) -> u32
    ensures { IhexSalvage text.now out.old list.old result a.new b.new out.new list.new }
{
    let told = codes::code_salvaged(salvage::salvage(text, out, list));
    *a = told.a;
    *b = told.b;
    told.code
}

// The byte that a text states last at an address, if it states one.
#[unsafe(no_mangle)]
pub extern "C" fn ihex_ask(
    text: &[u8],
    address: u32,
    line: &mut usize,
    a: &mut u64,
    b: &mut u64,
) -> u32
    ensures { IhexAsk text.now address (asked_in result line.new a.new b.new) }
{
    let answer = query::ask(text, address);
    let told = codes::code_asked(answer);
    *line = codes::asked_line(answer);
    *a = told.a;
    *b = told.b;
    told.code
}

// Sets up a light: 24 for a place of the count outside its page. It knows no count.
#[unsafe(no_mangle)]
pub extern "C" fn ihex_set_up_light(
    first: u32,
    length: usize,
    high: usize,
    low: usize,
    known: &mut u32,
) -> u32
    ensures { IhexSetUpLight first length high low result known.new }
{
    *known = codes::count_number(None);
    codes::code_made(light::set_up(first, length, high, low))
}

// What a dump returns, in numbers.
fn tell_light(
    dumped: Dumped,
    known: &mut u32,
    color: &mut u8,
    line: &mut usize,
    start: &mut u8,
    a: &mut u64,
    b: &mut u64,
    c: &mut u64,
) -> u32
    ensures { TellLight dumped (lit (six result line.new start.new a.new b.new c.new) color.new known.new) }
{
    *known = codes::count_number(dumped.light.known);
    *color = codes::color_number(dumped.color);
    tell_load(dumped.answer, line, start, a, b, c)
}

// A dump into a page with marks, and what the light shows after it.
#[unsafe(no_mangle)]
pub extern "C" fn ihex_light(
    text: &[u8],
    first: u32,
    length: usize,
    high: usize,
    low: usize,
    page: &mut [u8],
    marks: &mut [u8],
    known: &mut u32,
    color: &mut u8,
    line: &mut usize,
    start: &mut u8,
    a: &mut u64,
    b: &mut u64,
    c: &mut u64,
) -> u32
    ensures { IhexLight text.now (light_of first length high low known.old) page.old marks.old (lit (six result line.new start.new a.new b.new c.new) color.new known.new) page.new marks.new }
{
    let dumped = codes::light_from(first, length, high, low, *known).dump(text, page, marks);
    tell_light(dumped, known, color, line, start, a, b, c)
}

// A dump of S-records into a page with marks, and what the light shows after it.
#[unsafe(no_mangle)]
pub extern "C" fn ihex_light_srecords(
    text: &[u8],
    first: u32,
    length: usize,
    high: usize,
    low: usize,
    page: &mut [u8],
    marks: &mut [u8],
    known: &mut u32,
    color: &mut u8,
    line: &mut usize,
    start: &mut u8,
    a: &mut u64,
    b: &mut u64,
    c: &mut u64,
) -> u32
    ensures { IhexLightSrecords text.now (light_of first length high low known.old) page.old marks.old (lit (six result line.new start.new a.new b.new c.new) color.new known.new) page.new marks.new }
{
    let dumped = codes::light_from(first, length, high, low, *known).dump_srecords(
        text, page, marks,
    );
    tell_light(dumped, known, color, line, start, a, b, c)
}

// What a chunk or a pause comes to, in numbers.
fn tell_said(
    step: Step,
    flags: &mut u8,
    skipped: &mut u16,
    base: &mut u16,
    begin: &mut u32,
    lines: &mut usize,
    used: &mut usize,
    records: &mut usize,
    line: &mut usize,
    start: &mut u8,
    a: &mut u64,
    b: &mut u64,
    c: &mut u64,
) -> u32
    ensures { TellSaid step (seven flags.new skipped.new base.new begin.new lines.new used.new records.new) (six result line.new start.new a.new b.new c.new) }
{
    let stand = codes::stand_of(step.listener);
    *flags = stand.flags;
    *skipped = stand.skipped;
    *base = stand.base;
    *begin = stand.begin;
    *lines = stand.lines;
    *used = stand.used;
    *records = stand.records;
    *line = codes::said_line(step.said);
    *start = codes::said_start(step.said);
    let told = codes::code_said(step.said);
    *a = told.a;
    *b = told.b;
    *c = told.c;
    told.code
}

// Feeds a chunk to a listener in numbers, which is moved.
#[unsafe(no_mangle)]
pub extern "C" fn ihex_feed(
    chunk: &[u8],
    carry: &mut [u8],
    first: u32,
    stage: &mut [u8],
    stated: &mut [u8],
    flags: &mut u8,
    skipped: &mut u16,
    base: &mut u16,
    begin: &mut u32,
    lines: &mut usize,
    used: &mut usize,
    records: &mut usize,
    taken: &mut usize,
    line: &mut usize,
    start: &mut u8,
    a: &mut u64,
    b: &mut u64,
    c: &mut u64,
) -> u32
    ensures { IhexFeed (listener_of flags.old skipped.old base.old begin.old lines.old used.old records.old) chunk.now carry.old first stage.old stated.old taken.new (seven flags.new skipped.new base.new begin.new lines.new used.new records.new) (six result line.new start.new a.new b.new c.new) carry.new stage.new stated.new }
{
    let l = codes::listener_from(*flags, *skipped, *base, *begin, *lines, *used, *records);
    let step = l.feed(chunk, carry, first, stage, stated);
    *taken = step.used;
    tell_said(
        step, flags, skipped, base, begin, lines, used, records, line, start, a, b, c,
    )
}

// Tells a listener that the line is silent, or that the input has ended.
#[unsafe(no_mangle)]
pub extern "C" fn ihex_pause(
    carry: &mut [u8],
    first: u32,
    stage: &mut [u8],
    stated: &mut [u8],
    flags: &mut u8,
    skipped: &mut u16,
    base: &mut u16,
    begin: &mut u32,
    lines: &mut usize,
    used: &mut usize,
    records: &mut usize,
    line: &mut usize,
    start: &mut u8,
    a: &mut u64,
    b: &mut u64,
    c: &mut u64,
) -> u32
    ensures { IhexPause (listener_of flags.old skipped.old base.old begin.old lines.old used.old records.old) carry.old first stage.old stated.old (seven flags.new skipped.new base.new begin.new lines.new used.new records.new) (six result line.new start.new a.new b.new c.new) carry.new stage.new stated.new }
{
    let l = codes::listener_from(*flags, *skipped, *base, *begin, *lines, *used, *records);
    let step = l.pause(carry, first, stage, stated);
    tell_said(
        step, flags, skipped, base, begin, lines, used, records, line, start, a, b, c,
    )
}

// The flags of a listener after a commit: they stay unless it was done.
fn flags_after(flags: u8, committed: Committed) -> u8
    ensures { result ≡ flags_after flags committed }
{
    match committed {
        Ok(listener) => codes::stand_of(listener).flags,
        Err(_) => flags,
    }
}

// Commits what a listener has staged, if a dump is ready.
#[unsafe(no_mangle)]
pub extern "C" fn ihex_commit(
    stage: &[u8],
    stated: &[u8],
    page: &mut [u8],
    marks: &mut [u8],
    flags: &mut u8,
) -> u32
    ensures { IhexCommit flags.old stage.now stated.now page.old marks.old result flags.new page.new marks.new }
{
    let l = codes::listener_from(*flags, 0, 0, 0, 0, 0, 0);
    let committed = l.commit(stage, stated, page, marks);
    *flags = flags_after(*flags, committed);
    codes::code_committed(committed)
}

// What a light shows after a load that returned this code and left these page and marks.
#[unsafe(no_mangle)]
pub extern "C" fn ihex_light_after(
    code: u32,
    first: u32,
    length: usize,
    high: usize,
    low: usize,
    page: &[u8],
    marks: &[u8],
    known: &mut u32,
) -> u8
    ensures { IhexLightAfter code (light_of first length high low known.old) page.now marks.now result known.new }
{
    let dumped = codes::light_from(first, length, high, low, *known).after(
        codes::answer_from(code),
        page,
        marks,
    );
    *known = codes::count_number(dumped.light.known);
    codes::color_number(dumped.color)
}
