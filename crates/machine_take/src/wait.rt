// A send's place in the line: it joins the line, and leaves it when it starts or is withdrawn.
ghost use Rattle.std.specs.Prelude.{suc, ◌<◌, ◌≡◌, length, set, replicate};
ghost use Rattle.std.proofs.lemmas.List.Edits.{sets};
ghost use Rattle.layout.specs.Layout.{waiting_at, waiting_words, row_words, line_at};
ghost use Rattle.machine_words.specs.Line.{tables_of, row_of, with_row, requested, waiting_row, withdrawn, with_place};
ghost use Rattle.machine_words.specs.Said.{asked};
ghost use Rattle.machine_checks.specs.Lent.{Within};

use super::start::name_message;
use super::take::lock;
use machine_checks::row_range;
use machine_words::Wanted;

// Clears the words of a row's waiting send.
fn clear_waiting(row: &mut [u32])
    requires { length row.old ≡ row_words }
    ensures { row.new ≡ sets row.old waiting_at (replicate waiting_words 0) }
{
    let end = layout::WAITING_AT + layout::WAITING_WORDS;
    row[layout::WAITING_AT..end].fill(0);
}

// Withdraws a row's waiting send: its slot is then open, and no message runs.
pub fn withdraw(row: &mut [u32])
    requires { length row.old ≡ row_words }
    ensures { row.new ≡ withdrawn row.old }
{
    clear_waiting(row);
    row[layout::PHASE_AT] = layout::IDLE;
}

// Writes the send's target, method and argument into the words of a waiting send.
fn write_request(waiting: &mut [u32], wanted: Wanted)
    ensures { waiting.new ≡ requested (asked wanted) waiting.old }
{
    name_message(waiting, wanted);
    memory::put(waiting, layout::PLACE_AT, wanted.place);
}

// Makes the slot wait with a send: the send's words and its locks there.
fn hold_back(text: &[u8], state: &mut [u32], slot: u32, wanted: Wanted)
    requires { Within state.old slot × (wanted.place < 32) }
    ensures { state.new ≡ with_row state.old slot (waiting_row text.now (tables_of state.old) (asked wanted) (row_of state.old slot)) }
{
    let row = row_range(slot);
    let waiting = row.start + layout::WAITING_AT;
    clear_waiting(&mut state[row.start..row.end]);
    let past = waiting + layout::WAITING_WORDS;
    write_request(&mut state[waiting..past], wanted);
    lock(text, state, waiting, layout::WAITING_WORDS, wanted);
    memory::put(state, row.start, layout::WAITING);
}

// Puts the slot at the end of the line, with its send.
pub fn join(text: &[u8], state: &mut [u32], count: u32, slot: u32, wanted: Wanted)
    requires { Within state.old slot × (wanted.place < 32) × (count < 8) }
    ensures { state.new ≡ set (with_place (with_row state.old slot (waiting_row text.now (tables_of state.old) (asked wanted) (row_of state.old slot))) count slot) line_at (suc count) }
{
    hold_back(text, state, slot, wanted);
    memory::put(state, layout::FIRST_IN_LINE_AT + count as usize, slot);
    memory::put(state, layout::LINE_AT, count + 1);
}
