// Wakes those who wait, when a transaction has ended: from the front, each starts that no holder and no one still ahead is in the way of.
ghost use Rattle.std.specs.Prelude.{Some, suc, ◌≤◌, ◌<◌, ◌≡◌, length};
ghost use Rattle.layout.specs.Layout.{state_words};
ghost use Rattle.machine_words.specs.Request.{locked, entered};
ghost use Rattle.machine_words.specs.Line.{tables_of, row_of, with_row, withdrawn, with_place, woken_or, obstacle, woken_slot, woken};
ghost use Rattle.machine_words.specs.Said.{asked, said_first};
ghost use Rattle.machine_checks.specs.Lent.{Within};
ghost use Rattle.machine_locks.specs.Woken.{Leaving};

use machine_checks::{row_range, tables_of, waiting_of};
use machine_conflicts::clash::clashing;
use machine_conflicts::line::{is_waiting, slot_at, waiting_count, wanted_in};
use machine_take::start::{first_object, start_message};
use machine_take::take::lock;
use machine_take::wait::withdraw;
use machine_words::{Start, Wanted};

// Starts a slot's waiting send, which leaves the line.
fn start_waiting(text: &[u8], state: &mut [u32], slot: u32, wanted: Wanted, first: Start)
    requires { Within state.old slot × (wanted.place < 32) }
    ensures { state.new ≡ with_row state.old slot (entered (asked wanted) (said_first (Some first))
        (locked text.now (tables_of state.old) (asked wanted) (withdrawn (row_of state.old slot)))) }
{
    let row = row_range(slot);
    let start = row.start;
    withdraw(&mut state[row]);
    lock(text, state, start, layout::ROW_WORDS, wanted);
    start_message(state, slot, wanted, Some(first));
}

// Keeps a slot waiting, at the place after those ahead. Answers how many are ahead of the next one.
fn keep_waiting(state: &mut [u32], ahead: u32, slot: u32) -> u32
    requires { ahead < 8 }
    ensures { Leaving (record { waiting = suc ahead; words = with_place state.old ahead slot }) result state.new }
{
    memory::put(state, layout::FIRST_IN_LINE_AT + ahead as usize, slot);
    ahead + 1
}

// Starts a slot's waiting send, or keeps it waiting. Answers how many are ahead of the next one.
fn wake_waiting(text: &[u8], state: &mut [u32], ahead: u32, slot: u32, wanted: Wanted) -> u32
    requires { Within state.old slot × (ahead < 8) }
    ensures { Leaving (woken_or text.now state.old ahead slot (asked wanted)
        (obstacle text.now state.old ahead slot (asked wanted))) result state.new }
{
    if clashing(text, state, ahead, slot, wanted) != 0 {
        return keep_waiting(state, ahead, slot);
    }
    let Some(first) = first_object(text, tables_of(state), wanted) else {
        return keep_waiting(state, ahead, slot);
    };
    start_waiting(text, state, slot, wanted, first);
    ahead
}

// Wakes one slot of the line; one that does not wait leaves the line. Answers how many are ahead of the next one.
fn wake_slot(text: &[u8], state: &mut [u32], ahead: u32, slot: u32) -> u32
    requires { (state_words ≤ length state.old) × (ahead < 8) }
    ensures { Leaving (woken_slot text.now state.old ahead slot) result state.new }
{
    if !is_waiting(state, slot) {
        return ahead;
    }
    let wanted = wanted_in(tables_of(state), waiting_of(state, slot));
    wake_waiting(text, state, ahead, slot, wanted)
}

// Wakes the line from the front, and counts those who still wait.
pub fn wake(text: &[u8], state: &mut [u32])
    requires { state_words ≤ length state.old }
    ensures { state.new ≡ woken text.now state.old }
{
    let count = waiting_count(state);
    if count == 0 {
        return;
    }
    let mut ahead = 0u32;
    for place in 0..count {
        let slot = slot_at(state, place);
        ahead = wake_slot(text, state, ahead, slot);
    }
    memory::put(state, layout::LINE_AT, ahead);
}
