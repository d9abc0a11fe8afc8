// Starts a granted message: its first object and its method's body there, written into its slot's row.
ghost use Rattle.std.specs.Prelude.{◌≡◌};
ghost use Rattle.machine_words.specs.Request.{first_of, named_row, past_row, entered, is_sendable};
ghost use Rattle.machine_words.specs.Calls.{row_of, with_row};
ghost use Rattle.machine_words.specs.Said.{asked, said_first};
ghost use Rattle.machine_checks.specs.Lent.{Within};

use machine_checks::row_range;
use machine_words::{Start, Wanted};

// Whether the target exists, and its class has the method.
fn is_sendable(tables: &[u32], wanted: Wanted) -> bool
    ensures { result ≡ is_sendable tables.now (asked wanted) }
{
    machine_targets::visit::target_there(tables, wanted.kind, wanted.number)
        & (wanted.class < catalog::class_count(tables))
        & (wanted.place < catalog::member_count(tables, wanted.class, layout::METHODS))
}

// Where the send's message starts; nowhere where its first object has no such method.
pub fn first_object(text: &[u8], tables: &[u32], wanted: Wanted) -> Option<Start>
    ensures { said_first result ≡ first_of text.now tables.now (asked wanted) }
{
    if !is_sendable(tables, wanted) {
        return None;
    }
    let object = machine_targets::visit::object_from(tables, wanted.kind, wanted.number, 0);
    if catalog::object_count(tables) <= object {
        return Some(Start::Past(object));
    }
    let class = catalog::class_of(tables, object);
    let body = catalog::body::body_at(text, tables, class, wanted.place, wanted.name)?;
    Some(Start::On(object, body.first, body.end))
}

// Writes the send's target, name and argument into the row, which then runs a message.
pub(crate) fn name_message(row: &mut [u32], wanted: Wanted)
    ensures { row.new ≡ named_row (asked wanted) row.old }
{
    memory::put(row, layout::PHASE_AT, layout::RUNNING);
    memory::put(row, layout::KIND_AT, wanted.kind);
    memory::put(row, layout::NUMBER_AT, wanted.number);
    memory::put(row, layout::NAME_AT, wanted.name);
    memory::put(row, layout::ARGUMENT_AT, wanted.argument);
}

// Puts the message past the last object.
fn enter_past(row: &mut [u32], object: u32)
    ensures { row.new ≡ past_row object row.old }
{
    memory::put(row, layout::OBJECT_AT, object);
    memory::put(row, layout::DEPTH_AT, 0);
    memory::put(row, layout::STEPS_AT, 0);
    memory::put(row, layout::SUM_AT, 0);
}

// Puts the message at its start; does nothing where that is nowhere, as `entered` has it.
pub fn enter(row: &mut [u32], wanted: Wanted, first: Option<Start>)
    ensures { row.new ≡ entered (asked wanted) (said_first first) row.old }
{
    let Some(at) = first else {
        return;
    };
    name_message(row, wanted);
    match at {
        Start::On(object, start, end) => {
            machine_words::enter_object(row, object, start, end, 0);
        }
        Start::Past(object) => enter_past(row, object),
    }
}

// Puts the send's message at its start, in its slot's row.
pub fn start_message(state: &mut [u32], slot: u32, wanted: Wanted, first: Option<Start>)
    requires { Within state.old slot }
    ensures { state.new ≡ with_row state.old slot (entered (asked wanted) (said_first first) (row_of state.old slot)) }
{
    enter(&mut state[row_range(slot)], wanted, first);
}
