// The public entries. Those over a text (its verdict, its image, its statements, its starting values, the lines that `tables`
// prints, a start on it) read the text anew into tables of their own. The calls of the machine work on the lent state. Each is
// total. Only one that answers no refusal writes to what is lent; 40 and 41 are no refusals.
#![tactic(auto)]

ghost use Rattle.std.specs.Prelude.{ℕ, ◌≡◌, List, length};
ghost use Rattle.layout.specs.Layout.{table_words};
ghost use Rattle.model.specs.Read.{accepted, read};
ghost use Rattle.model.specs.Image.{statement_answer, statement_place, statement_part};
ghost use Rattle.model.specs.Tables.{refusal_printed};
ghost use Rattle.model.specs.Service.{send, step, commit, abort};
ghost use Rattle.model.specs.Machine.{to};
ghost use Rattle.catalog.specs.View.{library_of};
ghost use Rattle.reader.specs.Verdicts.{Checks};
ghost use Rattle.machine_words.specs.Calls.{lending};
ghost use Rattle.machine_words.specs.Said.{aimed};
ghost use Rattle.cishmolaq.specs.Promises.{Does};
ghost use Rattle.cishmolaq.specs.declared.Error.TheVariants.{Text};
ghost use Rattle.cishmolaq.specs.Answers.{error_number, error_line, said_done, Fits, Compiles, Prints, Stands, Starts, Begins};

use machine_words::{Outcome, Target};
use reader::Refused;
use refusals::Refusal;

// Why an entry over a text is refused: by the text's first fault, or by what is lent.
#[derive(Clone, Copy, Debug, PartialEq, Eq)]
pub enum Error {
    Text(Refused),
    Lent(Refusal),
}

impl From<Refused> for Error {
    ghost from_gives = { λ refused error. error ≡ Text refused };

    fn from(refused: Refused) -> Error {
        Error::Text(refused)
    }
}

impl Error {
    pub fn number(self) -> u32
        ensures { result ≡ error_number self }
    {
        match self {
            Error::Text(refused) => refused.fault.number(),
            Error::Lent(refusal) => refusal.number(),
        }
    }

    // The line of a text's fault; 0 where what is lent is at fault.
    pub fn line(self) -> usize
        ensures { result ≡ error_line self }
    {
        match self {
            Error::Text(refused) => refused.line,
            Error::Lent(_) => 0,
        }
    }
}

// The verdict on a text: accepted, or refused by its first fault.
pub fn check(text: &[u8]) -> Result<(), Refused>
    ensures { Checks text.now result }
{
    let mut tables = [0u32; layout::TABLE_WORDS];
    reader::read_text(text, &mut tables)
}

// Writes the image of an accepted text, whose library is in `tables`.
fn write_image(text: &[u8], tables: &mut [u32], image: &mut [u8]) -> Result<usize, Error>
    requires { length tables.old ≡ table_words }
    ensures { read text.now ≡ accepted (library_of text.now tables.old)
        → Compiles text.now image.old result image.new }
{
    vector_compiler::fill::fill_vectors(text, tables);
    let size = image::image_size(tables);
    if image.len() < size {
        return Err(Error::Lent(Refusal::TooShort));
    }
    image::write_image(tables, image);
    Ok(size)
}

// Writes the image of the text, and answers its length. 21 where the buffer is shorter.
pub fn compile(text: &[u8], image: &mut [u8]) -> Result<usize, Error>
    ensures { Compiles text.now image.old result image.new }
{
    let mut tables = [0u32; layout::TABLE_WORDS];
    reader::read_text(text, &mut tables)?;
    write_image(text, &mut tables, image)
}

// The place of a statement in the text, and its size in bytes; both 0 where there is none.
#[derive(Clone, Copy, Debug, PartialEq, Eq)]
pub struct Place {
    pub at: usize,
    pub size: usize,
}

// The place of the statement with this count in tables that hold it.
fn place_at(tables: &[u32], count: u32) -> Place
    ensures { (text : List ℕ) → read text ≡ accepted (library_of text tables.now) → statement_place text count ≡ (result.at, result.size) }
{
    if count < catalog::statement_count(tables) {
        let word = memory::get(tables, layout::STATEMENTS_AT + count as usize);
        Place {
            at: (word / layout::PART_UNIT) as usize,
            size: (word % layout::PART_UNIT) as usize,
        }
    } else {
        Place { at: 0, size: 0 }
    }
}

// The place of the statement with this count in the text; 0 and 0 where the look-up is refused.
pub fn statement_place(text: &[u8], count: u32) -> Place
    ensures { Stands text.now count result }
{
    let mut tables = [0u32; layout::TABLE_WORDS];
    match reader::read_text(text, &mut tables) {
        Ok(()) => place_at(&tables, count),
        Err(_) => Place { at: 0, size: 0 },
    }
}

// The statement with this count, as that part of the text; empty where it is refused.
pub fn statement(text: &[u8], count: u32) -> &[u8]
    ensures { result.now ≡ statement_part text.now count }
{
    let place = statement_place(text, count);
    catalog::part(text, place.at, place.size)
}

// Refuses the look-up of a statement by its count from the number of statements on: 23.
pub fn statement_fault(text: &[u8], count: u32) -> Result<(), Error>
    ensures { said_done result ≡ statement_answer text.now count }
{
    let mut tables = [0u32; layout::TABLE_WORDS];
    reader::read_text(text, &mut tables)?;
    if count < catalog::statement_count(&tables) {
        Ok(())
    } else {
        Err(Error::Lent(Refusal::NoStatement))
    }
}

// Writes the starting values of an accepted text, whose library is in `tables`.
fn write_values(text: &[u8], tables: &[u32], values: &mut [u32]) -> Result<(), Error>
    ensures { read text.now ≡ accepted (library_of text.now tables.now)
        → Starts text.now values.old result values.new }
{
    if values.len() != image::value_count(tables) {
        return Err(Error::Lent(Refusal::OtherCount));
    }
    image::write_values(text, tables, values);
    Ok(())
}

// Writes the text's starting values, object by object. 22 where the list has another length.
pub fn starting_values(text: &[u8], values: &mut [u32]) -> Result<(), Error>
    ensures { Starts text.now values.old result values.new }
{
    let mut tables = [0u32; layout::TABLE_WORDS];
    reader::read_text(text, &mut tables)?;
    write_values(text, &tables, values)
}

// Writes the lines of an accepted text, whose library is in `tables`. They are printed into no bytes first, to learn their length.
fn write_lines(text: &[u8], tables: &mut [u32], out: &mut [u8]) -> Result<usize, Error>
    requires { length tables.old ≡ table_words }
    ensures { read text.now ≡ accepted (library_of text.now tables.old)
        → Prints text.now out.old result out.new }
{
    vector_compiler::fill::fill_vectors(text, tables);
    let length = image::write_tables(text, tables, &mut out[..0]);
    if out.len() < length {
        return Err(Error::Lent(Refusal::TooShort));
    }
    image::write_tables(text, tables, out);
    Ok(length)
}

// Writes the line of a refused text.
fn write_refusal(number: u32, line: u32, out: &mut [u8]) -> Result<usize, Error>
    ensures { Fits (refusal_printed number line) out.old result out.new }
{
    let count = output::write_refusal(number, line, &mut out[..0]);
    if out.len() < count {
        return Err(Error::Lent(Refusal::TooShort));
    }
    output::write_refusal(number, line, out);
    Ok(count)
}

// Writes what `tables` prints for the text, and answers its length. 21 where the buffer is shorter.
pub fn print_tables(text: &[u8], out: &mut [u8]) -> Result<usize, Error>
    ensures { Prints text.now out.old result out.new }
{
    let mut tables = [0u32; layout::TABLE_WORDS];
    match reader::read_text(text, &mut tables) {
        Ok(()) => write_lines(text, &mut tables, out),
        Err(refused) => write_refusal(refused.fault.number(), refused.line as u32, out),
    }
}

// Starts on an accepted text, whose library is in `tables`.
fn start_on(text: &[u8], tables: &mut [u32], values: &[u32], state: &mut [u32]) -> Result<(), Error>
    requires { length tables.old ≡ table_words }
    ensures { read text.now ≡ accepted (library_of text.now tables.old)
        → Begins (lending text.now state.old values.now)
        result (lending text.now state.new values.now) }
{
    let count = image::value_count(tables);
    if state.len() < layout::STATE_WORDS {
        Err(Error::Lent(Refusal::TooShort))
    } else if values.len() != count {
        Err(Error::Lent(Refusal::OtherCount))
    } else {
        machine_start::fill(text, tables);
        machine_start::install(tables, state);
        Ok(())
    }
}

// Starts the machine on a text and its values: the tables of the text, eight closed slots and an empty line, in the lent state. 21 where
// the state is too short, 22 where the list of values has another length.
pub fn start(text: &[u8], values: &[u32], state: &mut [u32]) -> Result<(), Error>
    ensures { Begins (lending text.now state.old values.now)
        result (lending text.now state.new values.now) }
{
    let mut tables = [0u32; layout::TABLE_WORDS];
    reader::read_text(text, &mut tables)?;
    start_on(text, &mut tables, values, state)
}

// Sends a message to a target: the method at a place of its class, with an argument. Granted, it opens a closed slot, the transaction
// has the send's locks until commit or abort, and the message is at its start. 40 with the lowest slot that it clashes with, holder or
// earlier waiter: the slot is then open and waits, the last in line.
pub fn send(
    text: &[u8],
    state: &mut [u32],
    values: &[u32],
    slot: u32,
    target: Target,
    place: u32,
    argument: u32,
) -> Result<Outcome, Refusal>
    ensures { Does (lending text.now state.old values.now) (send slot (to (aimed target) place argument))
        result (lending text.now state.new values.now) }
{
    machine_calls::send::send(text, state, values, slot, target, place, argument)
}

// Runs one statement of the slot's message, or ends a body. 41 where the message is stopped; that does the work of abort.
pub fn step(
    text: &[u8],
    state: &mut [u32],
    values: &mut [u32],
    slot: u32,
) -> Result<Outcome, Refusal>
    ensures { Does (lending text.now state.old values.old) (step slot)
        result (lending text.now state.new values.new) }
{
    machine_calls::step::step(text, state, values, slot)
}

// Ends the slot's transaction and keeps the values. Those who wait are woken.
pub fn commit(text: &[u8], state: &mut [u32], values: &[u32], slot: u32) -> Result<Outcome, Refusal>
    ensures { Does (lending text.now state.old values.now) (commit slot)
        result (lending text.now state.new values.now) }
{
    machine_calls::commit(text, state, values, slot)
}

// Undoes the slot's transaction: puts back the values, withdraws a waiting send, and frees the slot. Those who wait are woken.
pub fn abort(
    text: &[u8],
    state: &mut [u32],
    values: &mut [u32],
    slot: u32,
) -> Result<Outcome, Refusal>
    ensures { Does (lending text.now state.old values.old) (abort slot)
        result (lending text.now state.new values.new) }
{
    machine_calls::abort(text, state, values, slot)
}
