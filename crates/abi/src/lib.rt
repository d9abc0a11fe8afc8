// The entries of crate `cishmolaq` for C and Rust: `host/include/cishmolaq.h` says what each needs and answers.
// An answer is a number, 0 where it is done; a length or a line goes through a lent place.
#![tactic(auto)]

ghost use Rattle.std.specs.Prelude.{◌≡◌, length};
ghost use Rattle.layout.specs.Layout.{state_words};
ghost use Rattle.model.specs.Told.{check_answer};
ghost use Rattle.model.specs.Image.{compile_answer, compiled_into, statement_answer, values_answer, starting_values_into};
ghost use Rattle.model.specs.Tables.{print_answer, printed_into};
ghost use Rattle.model.specs.Service.{send, step, commit, abort, call_number, call_detail};
ghost use Rattle.model.specs.Machine.{to, start_answer};
ghost use Rattle.machine_words.specs.Calls.{lending};
ghost use Rattle.machine_words.specs.Said.{told, aimed};
ghost use Rattle.cishmolaq.specs.Answers.{said, said_done, StartLeaves};
ghost use Rattle.abi.specs.Numbers.{Tells, Writes, HandsBack};
ghost use Rattle.abi.specs.Calls.{target_of, Called};

use cishmolaq::Error;
use machine_words::{Outcome, Target};
use refusals::Refusal;

// Stores what goes with a number in the lent place, and returns the number.
fn told<T: Copy>(number: u32, with: T, detail: &mut T) -> u32
    ensures value { result ≡ number }
    ensures detail_after { detail.new ≡ with }
{
    *detail = with;
    number
}

// Returns the number of an answer, and stores its length or line in the lent place.
fn tell(answer: Result<usize, Error>, detail: &mut usize) -> u32
    ensures { Tells (said answer) result detail.new }
{
    match answer {
        Ok(length) => told(0, length, detail),
        Err(error) => told(error.number(), error.line(), detail),
    }
}

// The same for an answer with no length.
fn tell_done(answer: Result<(), Error>, line: &mut usize) -> u32
    ensures { Tells (said_done answer) result line.new }
{
    tell(answer.map(|_| 0), line)
}

// The verdict on a text: 0, or the number of its fault with its line.
#[unsafe(no_mangle)]
pub extern "C" fn cishmolaq_check(text: &[u8], line: &mut usize) -> u32
    ensures { Tells (check_answer text.now) result line.new }
{
    match cishmolaq::check(text) {
        Ok(()) => told(0, 0, line),
        Err(refused) => told(refused.fault.number(), refused.line, line),
    }
}

// Writes the image of the text: 0 with its length; or a number with its line.
#[unsafe(no_mangle)]
pub extern "C" fn cishmolaq_compile(text: &[u8], image: &mut [u8], detail: &mut usize) -> u32
    ensures { Writes (compile_answer text.now (length image.old)) image.old (compiled_into text.now image.old)
        result detail.new image.new }
{
    let compiled = cishmolaq::compile(text, image);
    tell(compiled, detail)
}

// The place of the statement with this count in the text, and its size; 0 and 0 where it is refused.
#[unsafe(no_mangle)]
pub extern "C" fn cishmolaq_statement(text: &[u8], count: u32, size: &mut usize) -> usize
    ensures { HandsBack text.now count result size.new }
{
    let place = cishmolaq::statement_place(text, count);
    *size = place.size;
    place.at
}

// The number for looking up a statement by its count, with its line.
#[unsafe(no_mangle)]
pub extern "C" fn cishmolaq_statement_fault(text: &[u8], count: u32, line: &mut usize) -> u32
    ensures { Tells (statement_answer text.now count) result line.new }
{
    let found = cishmolaq::statement_fault(text, count);
    tell_done(found, line)
}

// Writes the text's starting values: 0, or a number with its line.
#[unsafe(no_mangle)]
pub extern "C" fn cishmolaq_starting_values(
    text: &[u8],
    values: &mut [u32],
    line: &mut usize,
) -> u32
    ensures { Writes (values_answer text.now (length values.old)) values.old (starting_values_into text.now values.old)
        result line.new values.new }
{
    let written = cishmolaq::starting_values(text, values);
    tell_done(written, line)
}

// Writes what `tables` prints for the text: 0 with its length, or 21.
#[unsafe(no_mangle)]
pub extern "C" fn cishmolaq_print_tables(text: &[u8], out: &mut [u8], detail: &mut usize) -> u32
    ensures { Writes (print_answer text.now (length out.old)) out.old (printed_into text.now out.old)
        result detail.new out.new }
{
    let printed = cishmolaq::print_tables(text, out);
    tell(printed, detail)
}

// Starts a machine in the lent state: 0, or a number with its line.
#[unsafe(no_mangle)]
pub extern "C" fn cishmolaq_start(
    text: &[u8],
    values: &[u32],
    state: &mut [u32],
    line: &mut usize,
) -> u32
    ensures tells { Tells (start_answer state_words text.now (length values.now) (length state.old)) result line.new }
    ensures start_leaves { StartLeaves (lending text.now state.old values.now)
        (start_answer state_words text.now (length values.now) (length state.old)) (lending text.now state.new values.now) }
{
    let started = cishmolaq::start(text, values, state);
    tell_done(started, line)
}

// Returns the number of a call's outcome, and stores the message's answer or the slot in the lent place.
fn tell_call(outcome: Result<Outcome, Refusal>, detail: &mut u32) -> u32
    ensures value { result ≡ call_number (told outcome) }
    ensures detail_after { detail.new ≡ call_detail (told outcome) }
{
    match outcome {
        Ok(Outcome::Done) => told(0, 0, detail),
        Ok(Outcome::Going) => told(1, 0, detail),
        Ok(Outcome::Answer(value)) => told(2, value, detail),
        Ok(Outcome::Held(slot)) => told(40, slot, detail),
        Ok(Outcome::Stopped) => told(41, 0, detail),
        Err(refusal) => told(refusal.number(), 0, detail),
    }
}

// The target of a send: an object, a class's own objects, a class's domain; for any other kind an object that never exists. The
// kinds' numbers are the C interface's.
fn target_of(kind: u32, number: u32) -> Target
    ensures { aimed result ≡ target_of kind number }
{
    match kind {
        0 => Target::Object(number),
        1 => Target::Class(number),
        2 => Target::Domain(number),
        _ => Target::Object(layout::OBJECTS),
    }
}

// Sends a message to a target, by its kind and its number. A granted send opens its slot if that is closed.
#[unsafe(no_mangle)]
pub extern "C" fn cishmolaq_send(
    text: &[u8],
    state: &mut [u32],
    values: &[u32],
    slot: u32,
    kind: u32,
    number: u32,
    method: u32,
    argument: u32,
    detail: &mut u32,
) -> u32
    ensures { Called (lending text.now state.old values.now) (send slot (to (target_of kind number) method argument))
        result detail.new (lending text.now state.new values.now) }
{
    let target = target_of(kind, number);
    let sent = cishmolaq::send(text, state, values, slot, target, method, argument);
    tell_call(sent, detail)
}

// Runs one statement of the slot's message, or ends a body.
#[unsafe(no_mangle)]
pub extern "C" fn cishmolaq_step(
    text: &[u8],
    state: &mut [u32],
    values: &mut [u32],
    slot: u32,
    detail: &mut u32,
) -> u32
    ensures { Called (lending text.now state.old values.old) (step slot)
        result detail.new (lending text.now state.new values.new) }
{
    let stepped = cishmolaq::step(text, state, values, slot);
    tell_call(stepped, detail)
}

// Frees the slot and keeps the values.
#[unsafe(no_mangle)]
pub extern "C" fn cishmolaq_commit(
    text: &[u8],
    state: &mut [u32],
    values: &[u32],
    slot: u32,
    detail: &mut u32,
) -> u32
    ensures { Called (lending text.now state.old values.now) (commit slot)
        result detail.new (lending text.now state.new values.now) }
{
    let committed = cishmolaq::commit(text, state, values, slot);
    tell_call(committed, detail)
}

// Puts back each value that the transaction set, and frees the slot.
#[unsafe(no_mangle)]
pub extern "C" fn cishmolaq_abort(
    text: &[u8],
    state: &mut [u32],
    values: &mut [u32],
    slot: u32,
    detail: &mut u32,
) -> u32
    ensures { Called (lending text.now state.old values.old) (abort slot)
        result detail.new (lending text.now state.new values.new) }
{
    let aborted = cishmolaq::abort(text, state, values, slot);
    tell_call(aborted, detail)
}
