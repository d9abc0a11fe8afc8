// Carries out a turn on a slot's row and the values.
#![tactic(auto)]

ghost use Rattle.std.specs.Prelude.{◌≡◌, Ok, length, slice_set};
ghost use Rattle.layout.specs.Layout.{phase_at, row_words};
ghost use Rattle.model.specs.Message.{changed};
ghost use Rattle.machine_words.specs.Row.{stepped, passed, skip_row, call_row, reply_row, back_row, carried, assign, stop};
ghost use Rattle.machine_words.specs.Said.{said_change, said_turn};
ghost use Rattle.machine_apply.specs.Carried.{Leaves};

use machine_words::{Change, Outcome, Turn};
use refusals::Refusal;

// Counts one more step on this object, in 16 bits.
fn count_step(row: &mut [u32])
    ensures { row.new ≡ stepped row.old }
{
    let steps = (memory::get(row, layout::STEPS_AT) % 65536) as u16;
    let more = steps.wrapping_add(1);
    memory::put(row, layout::STEPS_AT, u32::from(more));
}

// Takes the latest activation on to its next statement.
fn pass(row: &mut [u32])
    ensures { row.new ≡ passed row.old }
{
    let activation = machine_words::top(row);
    let next = machine_words::act(row, activation, layout::NEXT_AT);
    machine_words::put_act(row, activation, layout::NEXT_AT, next.wrapping_add(1));
}

// Passes over a statement.
fn skip(row: &mut [u32])
    ensures { row.new ≡ skip_row row.old }
{
    pass(row);
    count_step(row);
}

// Notes the body's reply, and puts the body at its end.
fn reply(row: &mut [u32], value: u32)
    ensures { row.new ≡ reply_row value row.old }
{
    let activation = machine_words::top(row);
    let end = machine_words::act(row, activation, layout::END_AT);
    machine_words::put_act(row, activation, layout::NEXT_AT, end);
    machine_words::put_act(row, activation, layout::REPLY_AT, value);
    count_step(row);
}

// Ends the latest activation; its reply is the caller's `got`.
fn back(row: &mut [u32], value: u32)
    ensures { row.new ≡ back_row value row.old }
{
    let depth = memory::get(row, layout::DEPTH_AT);
    memory::put(row, layout::DEPTH_AT, depth.saturating_sub(1));
    machine_words::put_act(row, depth.saturating_sub(2), layout::GOT_AT, value);
    count_step(row);
}

// Makes a self-call: the caller goes on after it, and the callee's activation becomes the latest.
fn call(row: &mut [u32], first: u32, end: u32, argument: u32)
    ensures { row.new ≡ call_row first end argument row.old }
{
    let depth = memory::get(row, layout::DEPTH_AT);
    pass(row);
    machine_words::new_act(row, depth, first, end, argument);
    memory::put(row, layout::CALLED_AT, 1);
    memory::put(row, layout::DEPTH_AT, depth.wrapping_add(1));
    count_step(row);
}

// The old value replaced by another, or increased by it in 32 bits.
fn changed(change: Change, old: u32, value: u32) -> u32
    ensures { result ≡ changed (said_change change) old value }
{
    match change {
        Change::Replace => value,
        Change::Increase => old.wrapping_add(value),
    }
}

// Changes a value, after its undo note.
fn assign(row: &mut [u32], values: &mut [u32], change: Change, place: usize, value: u32)
    ensures { Leaves (carried row.old values.old (assign (said_change change) place value)) (Ok Outcome.Going) row.new values.new }
{
    let old = memory::get(values, place);
    machine_undo::note(row, change, place, old, value);
    memory::put(values, place, changed(change, old, value));
    skip(row);
}

// Undoes the transaction: puts its values back and frees its row.
fn stop(row: &mut [u32], values: &mut [u32])
    requires { length row.old ≡ row_words }
    ensures { Leaves (carried row.old values.old stop) (Ok Outcome.Stopped) row.new values.new }
{
    machine_undo::release::roll_back(row, values);
}

// Ends the message: the slot stays open, with its locks and notes.
fn finish(row: &mut [u32])
    ensures { row.new ≡ slice_set row.old phase_at 1 }
{
    memory::put(row, layout::PHASE_AT, layout::IDLE);
}

// Carries out a turn on the slot's row and the values; refused where there is no turn.
pub fn carry(row: &mut [u32], values: &mut [u32], turn: Option<Turn>) -> Result<Outcome, Refusal>
    requires { length row.old ≡ row_words }
    ensures { Leaves (carried row.old values.old (said_turn turn)) result row.new values.new }
{
    let Some(turn) = turn else {
        return Err(Refusal::Misfit);
    };
    match turn {
        Turn::Stop => {
            stop(row, values);
            return Ok(Outcome::Stopped);
        }
        Turn::Skip => skip(row),
        Turn::Assign(change, place, value) => assign(row, values, change, place, value),
        Turn::Call(first, end, argument) => call(row, first, end, argument),
        Turn::Reply(value) => reply(row, value),
        Turn::Back(value) => back(row, value),
        Turn::Next(object, first, end, sum) => {
            machine_words::enter_object(row, object, first, end, sum)
        }
        Turn::Answer(value) => {
            finish(row);
            return Ok(Outcome::Answer(value));
        }
    }
    Ok(Outcome::Going)
}
