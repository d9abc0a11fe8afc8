// A send's request for its locks: the tests of its target and method, then its grant.
ghost use Rattle.std.specs.Prelude.{ℕ, ◌≡◌, List};
ghost use Rattle.model.specs.Machine.{object, to};
ghost use Rattle.machine_words.specs.Calls.{lending, tables_of, sent_to, sent_by};
ghost use Rattle.machine_words.specs.Said.{aimed};
ghost use Rattle.machine_checks.specs.Told.{Leaves};
ghost use Rattle.machine_checks.specs.Lent.{Within};
ghost use Rattle.machine_locks.specs.OneObject.{ObjectOf};
ghost use Rattle.machine_locks.specs.Sent.{method_refusal, class_sent};
ghost use Rattle.refusals.specs.Numbers.{refusal_in};

use super::grant::{grant, grant_object};
use machine_checks::tables_of;
use machine_conflicts::clash::domain_lacks;
use machine_conflicts::line::wanted_of;
use machine_words::{Outcome, Target};
use refusals::Refusal;

// Refuses a class that does not exist, and a place where it has no method.
fn method_refusal(tables: &[u32], class: u32, place: u32) -> Result<(), Refusal>
    ensures { refusal_in result ≡ method_refusal tables.now class place }
{
    if catalog::class_count(tables) <= class {
        return Err(Refusal::Misfit);
    }
    if catalog::member_count(tables, class, layout::METHODS) <= place {
        return Err(Refusal::NothingThere);
    }
    Ok(())
}

// Sends to a class's own objects or to a domain, as the kind says, by the class's methods; refuses it where a class of the
// domain lacks the method.
fn send_to(
    text: &[u8],
    state: &mut [u32],
    slot: u32,
    kind: u32,
    class: u32,
    place: u32,
    argument: u32,
) -> Result<Outcome, Refusal>
    requires { Within state.old slot }
    ensures { (values : List ℕ) → Leaves (sent_to (lending text.now state.old values) slot kind class class place argument)
        result (lending text.now state.new values) }
{
    let tables = tables_of(state);
    method_refusal(tables, class, place)?;
    let wanted = wanted_of(tables, kind, class, class, place, argument);
    if domain_lacks(text, tables, wanted) {
        return Err(Refusal::Misfit);
    }
    grant(text, state, slot, wanted)
}

// Sends to an existing object.
fn send_to_object(
    text: &[u8],
    state: &mut [u32],
    slot: u32,
    number: u32,
    class: u32,
    place: u32,
    argument: u32,
) -> Result<Outcome, Refusal>
    requires { Within state.old slot × ObjectOf (tables_of state.old) number class }
    ensures { (values : List ℕ) → Leaves (sent_to (lending text.now state.old values) slot 0 number class place argument)
        result (lending text.now state.new values) }
{
    method_refusal(tables_of(state), class, place)?;
    let wanted = wanted_of(
        tables_of(state),
        layout::OBJECT_KIND,
        number,
        class,
        place,
        argument,
    );
    grant_object(text, state, slot, wanted)
}

// Sends to an object, if there is such a one.
fn send_object(
    text: &[u8],
    state: &mut [u32],
    slot: u32,
    number: u32,
    place: u32,
    argument: u32,
) -> Result<Outcome, Refusal>
    requires { Within state.old slot }
    ensures { (values : List ℕ) → Leaves (sent_by (lending text.now state.old values) slot (to (object number) place argument))
        result (lending text.now state.new values) }
{
    if catalog::object_count(tables_of(state)) <= number {
        return Err(Refusal::NothingThere);
    }
    let class = catalog::class_of(tables_of(state), number);
    send_to_object(text, state, slot, number, class, place, argument)
}

// Sends to a class's own objects or to its domain, as the kind says, if there is such a class. The kind is a word, as in `Wanted`.
fn send_class(
    text: &[u8],
    state: &mut [u32],
    slot: u32,
    kind: u32,
    class: u32,
    place: u32,
    argument: u32,
) -> Result<Outcome, Refusal>
    requires { Within state.old slot }
    ensures { (values : List ℕ) → Leaves (class_sent (lending text.now state.old values) slot kind class place argument)
        result (lending text.now state.new values) }
{
    if catalog::class_count(tables_of(state)) <= class {
        return Err(Refusal::NothingThere);
    }
    send_to(text, state, slot, kind, class, place, argument)
}

// Sends by the target. The rarer targets get parts of what is lent, as in `grant_object`.
pub fn request(
    text: &[u8],
    state: &mut [u32],
    slot: u32,
    target: Target,
    place: u32,
    argument: u32,
) -> Result<Outcome, Refusal>
    requires { Within state.old slot }
    ensures { (values : List ℕ) → Leaves (sent_by (lending text.now state.old values) slot (to (aimed target) place argument))
        result (lending text.now state.new values) }
{
    match target {
        Target::Object(object) => send_object(text, state, slot, object, place, argument),
        Target::Class(class) => send_class(
            &text[0..],
            &mut state[0..],
            slot,
            layout::CLASS_KIND,
            class,
            place,
            argument,
        ),
        Target::Domain(class) => send_class(
            &text[0..],
            &mut state[0..],
            slot,
            layout::DOMAIN_KIND,
            class,
            place,
            argument,
        ),
    }
}
