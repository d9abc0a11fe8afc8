// The call step: the next statement of a slot's message, or the end of a body.
ghost use Rattle.std.specs.Prelude.{◌≡◌};
ghost use Rattle.model.specs.Service.{step};
ghost use Rattle.machine_words.specs.Row.{carried};
ghost use Rattle.machine_words.specs.Turn.{decided};
ghost use Rattle.machine_words.specs.Calls.{lending, tables_of, row_of, laid, called};
ghost use Rattle.machine_checks.specs.Told.{Leaves};
ghost use Rattle.machine_checks.specs.Lent.{Within};

use machine_checks::{Phase, row_of, row_range, tables_of};
use machine_words::Outcome;
use refusals::Refusal;

// Runs the next step of a slot's message: decides it, then carries it out. A message that stops ends its transaction, which wakes
// those who wait.
fn advance(
    text: &[u8],
    state: &mut [u32],
    values: &mut [u32],
    slot: u32,
) -> Result<Outcome, Refusal>
    requires { Within state.old slot }
    ensures { Leaves (laid (lending text.now state.old values.old) slot (carried (row_of state.old slot) values.old
        (decided text.now (tables_of state.old) (row_of state.old slot) values.old)))
        result (lending text.now state.new values.new) }
{
    let turn = machine_decide::decide(text, tables_of(state), row_of(state, slot), values);
    let outcome = machine_apply::carry(&mut state[row_range(slot)], values, turn)?;
    if let Outcome::Stopped = outcome {
        machine_locks::wake::wake(text, state);
    }
    Ok(outcome)
}

// Runs one statement of a slot's message, or ends a body.
pub fn step(
    text: &[u8],
    state: &mut [u32],
    values: &mut [u32],
    slot: u32,
) -> Result<Outcome, Refusal>
    ensures { Leaves (called (lending text.now state.old values.old) (step slot))
        result (lending text.now state.new values.new) }
{
    match machine_checks::refusal(text, state, values, slot)? {
        Phase::Closed => Err(Refusal::NotOpen),
        Phase::Idle => Err(Refusal::NotRunning),
        Phase::Waiting => Err(Refusal::Waiting),
        Phase::Running => advance(text, state, values, slot),
    }
}
