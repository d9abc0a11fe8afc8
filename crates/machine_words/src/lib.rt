// The types of a send, a turn and an answer; a row's activations, and putting a message on an object. What the words of the state mean
// is in specs/, and specs/Said.antt has what each type stands for there.
#![tactic(auto)]

ghost use Rattle.std.specs.Prelude.{◌≡◌};
ghost use Rattle.machine_words.specs.Row.{act, top, with_act, new_act, object_row};

// How a value is changed: replaced by another, or increased by it.
#[derive(Clone, Copy, Debug, PartialEq, Eq)]
pub enum Change {
    Replace,
    Increase,
}

// The next step of a running message: see `Turn` in specs/Row.antt.
#[derive(Clone, Copy, Debug, PartialEq, Eq)]
pub enum Turn {
    Stop,
    Skip,
    Assign(Change, usize, u32),
    Call(u32, u32, u32),
    Reply(u32),
    Back(u32),
    Next(u32, u32, u32, u32),
    Answer(u32),
}

// The target of a send, by number: an object, a class's own objects, or a class's domain.
#[derive(Clone, Copy, Debug, PartialEq, Eq)]
pub enum Target {
    Object(u32),
    Class(u32),
    Domain(u32),
}

// A send, as the lock rules see it: see `Wanted` in specs/Request.antt. Its kind and number are words of the state, where they may be
// any (`wanted_in`), so that a `Target` cannot stand for them.
#[derive(Clone, Copy, Debug, PartialEq, Eq)]
pub struct Wanted {
    pub kind: u32,
    pub number: u32,
    pub class: u32,
    pub place: u32,
    pub name: u32,
    pub argument: u32,
}

// Where a message starts: on an object, with its method's first statement there and the one past its last; or past the last
// object.
#[derive(Clone, Copy, Debug, PartialEq, Eq)]
pub enum Start {
    On(u32, u32, u32),
    Past(u32),
}

// What a call answers that is not refused: done (a send: granted), going or the message's answer; 40 with the lowest clashing
// slot; 41.
#[derive(Clone, Copy, Debug, PartialEq, Eq)]
pub enum Outcome {
    Done,
    Going,
    Answer(u32),
    Held(u32),
    Stopped,
}

// A word of an activation.
pub fn act(row: &[u32], activation: u32, place: u32) -> u32
    ensures { result ≡ act row.now activation place }
{
    memory::get(
        row,
        layout::ACTIVATIONS_AT + activation as usize * layout::ACTIVATION_WORDS + place as usize,
    )
}

pub fn put_act(row: &mut [u32], activation: u32, place: u32, value: u32)
    ensures { row.new ≡ with_act row.old activation place value }
{
    memory::put(
        row,
        layout::ACTIVATIONS_AT + activation as usize * layout::ACTIVATION_WORDS + place as usize,
        value,
    );
}

// The latest activation.
pub fn top(row: &[u32]) -> u32
    ensures { result ≡ top row.now }
{
    memory::get(row, layout::DEPTH_AT).saturating_sub(1)
}

// Opens a new activation: its first statement, the one past its last, and its argument.
pub fn new_act(row: &mut [u32], activation: u32, first: u32, end: u32, argument: u32)
    ensures { row.new ≡ new_act row.old activation first end argument }
{
    put_act(row, activation, layout::NEXT_AT, first);
    put_act(row, activation, layout::END_AT, end);
    put_act(row, activation, layout::ARG_AT, argument);
    put_act(row, activation, layout::GOT_AT, 0);
    put_act(row, activation, layout::REPLY_AT, 0);
}

// Puts the message on an object, in the first activation of its method there.
pub fn enter_object(row: &mut [u32], object: u32, first: u32, end: u32, sum: u32)
    ensures { row.new ≡ object_row object first end sum row.old }
{
    let argument = memory::get(row, layout::ARGUMENT_AT);
    memory::put(row, layout::OBJECT_AT, object);
    memory::put(row, layout::DEPTH_AT, 1);
    memory::put(row, layout::STEPS_AT, 0);
    memory::put(row, layout::SUM_AT, sum);
    new_act(row, 0, first, end, argument);
}
