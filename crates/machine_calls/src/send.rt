// The call send: the tests of every call, then the request for its locks.
ghost use Rattle.std.specs.Prelude.{◌≡◌};
ghost use Rattle.model.specs.Service.{send};
ghost use Rattle.model.specs.Machine.{to};
ghost use Rattle.machine_words.specs.Calls.{lending, called};
ghost use Rattle.machine_checks.specs.Told.{Leaves};
ghost use Rattle.machine_words.specs.Said.{aimed};

use machine_locks::request::request;
use machine_words::{Outcome, Target};
use refusals::Refusal;

// Sends a message: the method at a place of the target's class, with an argument. A granted send opens its slot if that is closed;
// its locks are held until commit or abort.
pub fn send(
    text: &[u8],
    state: &mut [u32],
    values: &[u32],
    slot: u32,
    target: Target,
    place: u32,
    argument: u32,
) -> Result<Outcome, Refusal>
    ensures { Leaves (called (lending text.now state.old values.now) (send slot (to (aimed target) place argument)))
        result (lending text.now state.new values.now) }
{
    machine_checks::idle_refusal(text, state, values, slot)?;
    request(text, state, slot, target, place, argument)
}
