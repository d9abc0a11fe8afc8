// What the next step of a running message is (01, "The machine"), by the text, the tables, the slot's row and the values.
// It reads only; crates/machine_apply carries the turn out.
#![tactic(auto)]

ghost use Rattle.std.specs.Prelude.{◌≡◌, ◌<◌, slice_index};
ghost use Rattle.layout.specs.Layout.{steps_at, object_at};
ghost use Rattle.machine_words.specs.Turn.{next_turn, end_turn, activation_turn, decided_wide, decided};
ghost use Rattle.machine_words.specs.Said.{said_turn};

use machine_statement::line::line_turn;
use machine_targets::visit::{object_from, target_there};
use machine_words::Turn;

// What 16 bits hold at most.
const STEPS_MOST: u32 = 65535;

// The turn to an object, with the sum so far: to its own class's method of the name sent.
fn next_turn(text: &[u8], tables: &[u32], name: u32, object: u32, sum: u32) -> Option<Turn>
    ensures { said_turn result ≡ next_turn text.now tables.now name object sum }
{
    let class = catalog::class_of(tables, object);
    let body = catalog::body::body_in(text, tables, class, catalog::name_of(text, name))?;
    Some(Turn::Next(object, body.first, body.end, sum))
}

// The turn where an object has ended with a reply: to the next object of the target, or the answer.
fn end_turn(text: &[u8], tables: &[u32], row: &[u32], value: u32) -> Option<Turn>
    requires { slice_index row.now object_at < 64 }
    ensures { said_turn result ≡ end_turn text.now tables.now row.now value }
{
    let kind = memory::get(row, layout::KIND_AT);
    let number = memory::get(row, layout::NUMBER_AT);
    if !target_there(tables, kind, number) {
        return None;
    }
    let sum = memory::get(row, layout::SUM_AT).wrapping_add(value);
    let from = memory::get(row, layout::OBJECT_AT) + 1;
    let object = object_from(tables, kind, number, from);
    if object < catalog::object_count(tables) {
        next_turn(text, tables, memory::get(row, layout::NAME_AT), object, sum)
    } else {
        Some(Turn::Answer(sum))
    }
}

// The turn of the latest activation, which must be within the text's statements, with one left or none. An object's 1,024th step
// stops the message unless it ends the object; `steps` are done.
fn activation_turn(
    text: &[u8],
    tables: &[u32],
    row: &[u32],
    values: &[u32],
    steps: u16,
) -> Option<Turn>
    requires { (slice_index row.now object_at < 64) × (steps ≡ slice_index row.now steps_at) }
    ensures { said_turn result ≡ activation_turn text.now tables.now row.now values.now }
{
    let activation = machine_words::top(row);
    let next = machine_words::act(row, activation, layout::NEXT_AT);
    let end = machine_words::act(row, activation, layout::END_AT);
    if (end < next) | (catalog::statement_count(tables) < end) {
        return None;
    }
    let late = 1023 <= steps;
    if next == end {
        let value = machine_words::act(row, activation, layout::REPLY_AT);
        if activation == 0 {
            return end_turn(text, tables, row, value);
        }
        if late {
            return Some(Turn::Stop);
        }
        return Some(Turn::Back(value));
    }
    if late {
        return Some(Turn::Stop);
    }
    let object = memory::get(row, layout::OBJECT_AT);
    let depth = memory::get(row, layout::DEPTH_AT);
    let arg = machine_words::act(row, activation, layout::ARG_AT);
    let got = machine_words::act(row, activation, layout::GOT_AT);
    line_turn(text, tables, values, object, depth, next, arg, got)
}

// The next step of the message that a row runs, with the steps done on its object; past the last object it answers.
fn decide_counted(
    text: &[u8],
    tables: &[u32],
    row: &[u32],
    values: &[u32],
    steps: u16,
) -> Option<Turn>
    requires { steps ≡ slice_index row.now steps_at }
    ensures { said_turn result ≡ decided_wide text.now tables.now row.now values.now }
{
    let object = memory::get(row, layout::OBJECT_AT);
    let count = catalog::object_count(tables);
    if object == count {
        return Some(Turn::Answer(memory::get(row, layout::SUM_AT)));
    }
    let depth = memory::get(row, layout::DEPTH_AT);
    if (count < object) | (depth == 0) | (8 < depth) {
        return None;
    }
    activation_turn(text, tables, row, values, steps)
}

// The next step of the message that a row runs. Its steps are counted in 16 bits; a count that they don't hold fits no message.
pub fn decide(text: &[u8], tables: &[u32], row: &[u32], values: &[u32]) -> Option<Turn>
    ensures { said_turn result ≡ decided text.now tables.now row.now values.now }
{
    let steps = memory::get(row, layout::STEPS_AT);
    if STEPS_MOST < steps {
        return None;
    }
    decide_counted(text, tables, row, values, steps as u16)
}
