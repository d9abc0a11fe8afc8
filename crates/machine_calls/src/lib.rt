// The calls of the machine (01, "The machine"): commit and abort here, send and step in their modules. What a call answers and leaves
// is `called` in crates/machine_words/specs/Calls.antt, whatever is lent.
#![tactic(auto)]

pub mod send;
pub mod step;

ghost use Rattle.std.specs.Prelude.{◌≡◌};
ghost use Rattle.model.specs.Undo.{put_back};
ghost use Rattle.model.specs.Service.{commit, abort};
ghost use Rattle.machine_words.specs.Row.{note_at};
ghost use Rattle.machine_words.specs.Line.{row_of, withdrawn};
ghost use Rattle.machine_words.specs.Calls.{lending, ended_at, called};
ghost use Rattle.machine_checks.specs.Told.{Leaves};
ghost use Rattle.machine_checks.specs.Lent.{Within};

use machine_checks::{Phase, row_range};
use machine_words::Outcome;
use refusals::Refusal;

// Clears what the slot's transaction wrote in its row, and wakes those who wait.
fn close_and_wake(text: &[u8], state: &mut [u32], slot: u32)
    requires { Within state.old slot }
    ensures { state.new ≡ ended_at text.now state.old slot (row_of state.old slot) }
{
    machine_undo::release::close(&mut state[row_range(slot)]);
    machine_locks::wake::wake(text, state);
}

// Does the same. Mostly nobody waits; then clearing the row is all there is to do.
fn close_slot(text: &[u8], state: &mut [u32], slot: u32)
    requires { Within state.old slot }
    ensures { state.new ≡ ended_at text.now state.old slot (row_of state.old slot) }
{
    if machine_conflicts::line::waiting_count(state) != 0 {
        close_and_wake(text, state, slot);
        return;
    }
    machine_undo::release::close(&mut state[row_range(slot)]);
}

// Undoes the slot's transaction, and wakes those who wait.
fn roll_back(text: &[u8], state: &mut [u32], values: &mut [u32], slot: u32)
    requires { Within state.old slot }
    ensures { (state.new ≡ ended_at text.now state.old slot (row_of state.old slot))
        × (values.new ≡ put_back (note_at (row_of state.old slot)) values.old) }
{
    machine_undo::release::roll_back(&mut state[row_range(slot)], values);
    machine_locks::wake::wake(text, state);
}

// Withdraws the slot's waiting send, then undoes its transaction and wakes those who wait.
fn roll_back_waiting(text: &[u8], state: &mut [u32], values: &mut [u32], slot: u32)
    requires { Within state.old slot }
    ensures { (state.new ≡ ended_at text.now state.old slot (withdrawn (row_of state.old slot)))
        × (values.new ≡ put_back (note_at (withdrawn (row_of state.old slot))) values.old) }
{
    let row = &mut state[row_range(slot)];
    machine_take::wait::withdraw(row);
    machine_undo::release::roll_back(row, values);
    machine_locks::wake::wake(text, state);
}

// Frees a slot and keeps the values.
pub fn commit(text: &[u8], state: &mut [u32], values: &[u32], slot: u32) -> Result<Outcome, Refusal>
    ensures { Leaves (called (lending text.now state.old values.now) (commit slot))
        result (lending text.now state.new values.now) }
{
    if let Phase::Closed = machine_checks::idle_refusal(text, state, values, slot)? {
        return Err(Refusal::NotOpen);
    }
    close_slot(text, state, slot);
    Ok(Outcome::Done)
}

// Undoes the transaction in the values, and frees its slot.
pub fn abort(
    text: &[u8],
    state: &mut [u32],
    values: &mut [u32],
    slot: u32,
) -> Result<Outcome, Refusal>
    ensures { Leaves (called (lending text.now state.old values.old) (abort slot))
        result (lending text.now state.new values.new) }
{
    match machine_checks::refusal(text, state, values, slot)? {
        Phase::Closed => return Err(Refusal::NotOpen),
        Phase::Waiting => roll_back_waiting(text, state, values, slot),
        Phase::Idle | Phase::Running => roll_back(text, state, values, slot),
    }
    Ok(Outcome::Done)
}
