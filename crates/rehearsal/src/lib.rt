// A rehearsal (02, Ticket 2) in fixed memory: the machine is started on a class text, the input is read part by part, each call
// line is answered as its LF comes, and at the end the objects' lines are written. Whatever the parts, what is written in all is
// what the definition prints for the whole input (specs/Whole.antt).
// `text`, `state` and `values` are passed apart, as C lends them to the calls of `cishmolaq`; `line` and `kept` too, since `feed` and
// `finish` promise something of every `kept`, also of one past the line's end (`Feeds`, `Finishes`).
#![tactic(auto)]

ghost use Rattle.std.specs.Prelude.{◌+◌, ◌*◌, ◌≤◌, ◌≡◌, length, take};
ghost use Rattle.layout.specs.Layout.{state_words, values_most};
ghost use Rattle.model.specs.Rehearsal.{unended};
ghost use Rattle.machine_words.specs.Calls.{lending};
ghost use Rattle.output.specs.Append.{Appended};
ghost use Rattle.rehearsal.specs.Feeds.{widest, Keeps, Advances, FeedsAll, Feeds, Finishes};
ghost use Rattle.rehearsal.specs.Ready.{StartsOn, Prepares};

const LINE_FEED: u8 = 10;

// The most bytes that an answer's line has.
pub const WIDEST: usize = 18;

// A refused text, on which nothing is rehearsed: how many bytes of the line that says so are written.
#[derive(Clone, Copy, Debug, PartialEq, Eq)]
pub struct NotReady {
    pub size: usize,
}

// How far a part is read: the bytes kept of the unfinished line, and the bytes written.
#[derive(Clone, Copy)]
struct Reach {
    kept: usize,
    size: usize,
}

// The bytes of the part that were read, those kept of the unfinished line, and those written.
#[derive(Clone, Copy)]
pub struct Fed {
    pub read: usize,
    pub kept: usize,
    pub size: usize,
}

// Starts the machine on an accepted text's starting values, where the list has room for just these.
fn start_on(text: &[u8], values: &mut [u32], state: &mut [u32])
    requires { state_words ≤ length state.old }
    ensures { StartsOn (lending text.now state.old values.old) (lending text.now state.new values.new) }
{
    // Neither is refused: the text is accepted, and the lists have the lengths that both ask for.
    let _ = cishmolaq::starting_values(text, values);
    let _ = cishmolaq::start(text, values, state);
}

// Starts a rehearsal: writes the line of a refused text, or else starts the machine on the text's starting values, which are then
// the first of the lent values, and answers their number.
pub fn prepare(
    text: &[u8],
    values: &mut [u32],
    state: &mut [u32],
    out: &mut [u8],
) -> Result<usize, NotReady>
    requires { (values_most ≤ length values.old) × (state_words ≤ length state.old) }
    ensures { Prepares (lending text.now state.old values.old) out.old
        result (lending text.now state.new values.new) out.new }
{
    let mut tables = [0u32; layout::TABLE_WORDS];
    match reader::read_text(text, &mut tables) {
        Ok(()) => {
            let count = image::value_count(&tables);
            start_on(text, &mut values[..count], state);
            Ok(count)
        }
        Err(refused) => {
            let size = output::write_refusal(refused.fault.number(), refused.line as u32, out);
            Err(NotReady { size })
        }
    }
}

// Keeps one byte more of a line, where there is room.
fn keep(line: &mut [u8], kept: usize, byte: u8) -> usize
    requires { kept ≤ length line.old }
    ensures { Keeps line.old kept byte line.new result }
{
    if kept < line.len() {
        line[kept] = byte;
        kept + 1
    } else {
        kept
    }
}

// Reads one byte: an LF ends the unfinished line, which is answered; any other byte is kept.
fn take_byte(
    text: &[u8],
    state: &mut [u32],
    values: &mut [u32],
    line: &mut [u8],
    kept: usize,
    out: &mut [u8],
    size: usize,
    byte: u8,
) -> Reach
    requires { (kept ≤ length line.old) × (size + widest ≤ length out.old) }
    ensures { Advances (lending text.now state.old values.old) line.old kept out.old size byte
        (lending text.now state.new values.new) line.new result.kept out.new result.size }
{
    if byte == LINE_FEED {
        let end = call_lines::answer_line(text, state, values, &line[..kept], out, size);
        Reach { kept: 0, size: end }
    } else {
        let kept = keep(line, kept, byte);
        Reach { kept, size }
    }
}

// Reads a part that leaves room for an answer to each byte.
fn feed_all(
    text: &[u8],
    state: &mut [u32],
    values: &mut [u32],
    line: &mut [u8],
    kept: usize,
    part: &[u8],
    out: &mut [u8],
) -> Reach
    requires { (kept ≤ length line.old) × (widest * length part.now ≤ length out.old) }
    ensures { FeedsAll (lending text.now state.old values.old) line.old kept part.now out.old
        (lending text.now state.new values.new) line.new result.kept out.new result.size }
{
    let mut begun = kept;
    let mut size = 0;
    for byte in part {
        let next = take_byte(text, state, values, line, begun, out, size, *byte);
        begun = next.kept;
        size = next.size;
    }
    Reach { kept: begun, size }
}

// Reads a part of the input, as much of it as there is room for an answer to each byte: answers its lines from the front of `out`
// on, and keeps the unfinished line in `line` until the next part.
pub fn feed(
    text: &[u8],
    state: &mut [u32],
    values: &mut [u32],
    line: &mut [u8],
    kept: usize,
    part: &[u8],
    out: &mut [u8],
) -> Fed
    ensures { Feeds (lending text.now state.old values.old) line.old kept part.now out.old result.read
        (lending text.now state.new values.new) line.new result.kept out.new result.size }
{
    let read = part.len().min(out.len() / WIDEST);
    let begun = kept.min(line.len());
    let reach = feed_all(text, state, values, line, begun, &part[..read], out);
    Fed {
        read,
        kept: reach.kept,
        size: reach.size,
    }
}

// Writes 51 where a line is unfinished.
fn put_unended(line: &[u8], kept: usize, out: &mut [u8]) -> usize
    ensures { Appended (unended (take kept line.now)) out.old 0 result out.new }
{
    if kept.min(line.len()) == 0 {
        return 0;
    }
    output::put_bytes(out, 0, b"51\n")
}

// Writes what is printed at the end of the input, as far as there is room: 51 for an unfinished line, then the objects' lines.
pub fn finish(
    text: &[u8],
    state: &[u32],
    values: &[u32],
    line: &[u8],
    kept: usize,
    out: &mut [u8],
) -> usize
    ensures { Finishes (lending text.now state.now values.now) line.now kept out.old result out.new }
{
    let at = put_unended(line, kept, out);
    call_lines::put_objects(text, state, values, out, at)
}
