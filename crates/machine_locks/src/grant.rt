// Grants a send that has passed its tests, or puts it in the line and names the lowest slot in its way.
ghost use Rattle.std.specs.Prelude.{ℕ, ◌<◌, ◌≡◌, true, List};
ghost use Rattle.machine_words.specs.Request.{locked, first_of, entered};
ghost use Rattle.machine_words.specs.Line.{tables_of, row_of, with_row, count_in, obstacle};
ghost use Rattle.machine_words.specs.Calls.{lending, started_or, arrived_or, granted};
ghost use Rattle.machine_words.specs.Said.{asked};
ghost use Rattle.machine_checks.specs.Told.{Leaves};
ghost use Rattle.machine_checks.specs.Lent.{Within};
ghost use Rattle.machine_locks.specs.OneObject.{ToObject};
ghost use Rattle.machine_conflicts.specs.Holders.{starts_at_once};

use machine_checks::{row_of, row_range, tables_of};
use machine_conflicts::circle::closes_circle;
use machine_conflicts::clash::{clashing, starts_at_once};
use machine_conflicts::line::waiting_count;
use machine_conflicts::own::owns_locks;
use machine_take::start::{enter, first_object, start_message};
use machine_take::take::{add_lock, lock, place_bit};
use machine_take::wait::join;
use machine_words::{Outcome, Start, Wanted};
use refusals::Refusal;

// Takes a send's locks, and puts its message at its start, which opens a closed slot. A message that starts nowhere is refused, and
// then nothing is altered.
fn start_send(text: &[u8], state: &mut [u32], slot: u32, wanted: Wanted) -> Result<Outcome, Refusal>
    requires { Within state.old slot × (wanted.place < 32) }
    ensures { (values : List ℕ) → Leaves (started_or (lending text.now state.old values) slot (asked wanted)
        (first_of text.now (tables_of state.old) (asked wanted)))
        result (lending text.now state.new values) }
{
    let Some(first) = first_object(text, tables_of(state), wanted) else {
        return Err(Refusal::Misfit);
    };
    let start = row_range(slot).start;
    lock(text, state, start, layout::ROW_WORDS, wanted);
    start_message(state, slot, wanted, Some(first));
    Ok(Outcome::Done)
}

// Starts a send that needs a new lock, or puts it in the line: then answers the lowest slot in its way. Refuses it where it would
// close a circle of waits, and where the line has no place for it.
fn arrive(text: &[u8], state: &mut [u32], slot: u32, wanted: Wanted) -> Result<Outcome, Refusal>
    requires { Within state.old slot × (wanted.place < 32) }
    ensures { (values : List ℕ) → Leaves (arrived_or (lending text.now state.old values) slot (asked wanted)
        (obstacle text.now state.old (count_in state.old) slot (asked wanted)))
        result (lending text.now state.new values) }
{
    let count = waiting_count(state);
    let mask = clashing(text, state, count, slot, wanted);
    if mask == 0 {
        return start_send(text, state, slot, wanted);
    }
    if count < layout::SLOTS {
        if closes_circle(text, state, slot, wanted) {
            return Err(Refusal::Circle);
        }
        join(text, state, count, slot, wanted);
        return Ok(Outcome::Held(mask.trailing_zeros()));
    }
    Err(Refusal::Misfit)
}

// Grants a send, at once where its slot holds its locks already; or puts it in the line.
pub(crate) fn grant(
    text: &[u8],
    state: &mut [u32],
    slot: u32,
    wanted: Wanted,
) -> Result<Outcome, Refusal>
    requires { Within state.old slot × (wanted.place < 32) }
    ensures { (values : List ℕ) → Leaves (granted (lending text.now state.old values) slot (asked wanted))
        result (lending text.now state.new values) }
{
    if owns_locks(text, tables_of(state), wanted, row_of(state, slot)) {
        return start_send(text, state, slot, wanted);
    }
    arrive(text, state, slot, wanted)
}

// Takes the locks of a send to an object that can start at once, and puts its message at its start, in its slot's row.
fn take_object(state: &mut [u32], slot: u32, wanted: Wanted)
    requires { Within state.old slot × ToObject (tables_of state.old) (asked wanted) × (starts_at_once state.old (asked wanted) ≡ true) }
    ensures { (text : List ℕ) → state.new ≡ with_row state.old slot (entered (asked wanted) (first_of text (tables_of state.old) (asked wanted))
        (locked text (tables_of state.old) (asked wanted) (row_of state.old slot))) }
{
    let body = catalog::body::body_of(tables_of(state), wanted.class, wanted.place);
    let row = &mut state[row_range(slot)];
    let bits = place_bit(wanted.place);
    add_lock(row, layout::OBJECT_LOCKS_AT + wanted.number as usize, bits);
    add_lock(row, layout::CLASS_LOCKS_AT + wanted.class as usize, bits);
    enter(
        row,
        wanted,
        Some(Start::On(wanted.number, body.first, body.end)),
    );
}

// Grants a send to an object. Most start at once; the others are granted as any other send, with parts of what is lent, so that
// nothing of it need be in memory for those that start at once.
pub(crate) fn grant_object(
    text: &[u8],
    state: &mut [u32],
    slot: u32,
    wanted: Wanted,
) -> Result<Outcome, Refusal>
    requires { Within state.old slot × ToObject (tables_of state.old) (asked wanted) }
    ensures { (values : List ℕ) → Leaves (granted (lending text.now state.old values) slot (asked wanted))
        result (lending text.now state.new values) }
{
    if starts_at_once(state, wanted) {
        take_object(state, slot, wanted);
        return Ok(Outcome::Done);
    }
    grant(&text[0..], &mut state[0..], slot, wanted)
}
