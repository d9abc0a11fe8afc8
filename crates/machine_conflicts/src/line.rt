// The line of waiting slots: how many there are, and which, the first to arrive first, and with which sends. docs/STATE.md has its words.
ghost use Rattle.std.specs.Prelude.{◌≤◌, ◌≡◌, length, eqb};
ghost use Rattle.layout.specs.Layout.{state_words};
ghost use Rattle.model.specs.Base.{any};
ghost use Rattle.machine_words.specs.Line.{count_in, first_in_line, slot_at, wanted_in, is_waiting, waits_ahead};
ghost use Rattle.machine_words.specs.Said.{asked};
ghost use Rattle.machine_words.specs.Request.{wanted, class_for};

use machine_words::Wanted;

// How many slots wait; never more than the line has places.
pub fn waiting_count(state: &[u32]) -> u32
    ensures { result ≡ count_in state.now }
{
    memory::get(state, layout::LINE_AT).min(layout::SLOTS)
}

// The slot at a place of the line.
pub fn slot_at(state: &[u32], place: u32) -> u32
    ensures { result ≡ slot_at state.now place }
{
    memory::get(state, layout::FIRST_IN_LINE_AT + place as usize)
}

// Whether the slot exists and waits.
pub fn is_waiting(state: &[u32], slot: u32) -> bool
    ensures { result ≡ is_waiting state.now slot }
{
    if layout::SLOTS <= slot {
        return false;
    }
    machine_checks::phase_of(state, slot) == layout::WAITING
}

// Whether the slot is one of the first in line. A chain (`any`) proves too, but makes `clashing` take twice the steps where nobody waits.
fn is_ahead(state: &[u32], count: u32, slot: u32) -> bool
    requires { (state_words ≤ length state.now) × (count ≤ 8) }
    ensures { result ≡ any (eqb slot) (first_in_line state.now count) }
{
    for place in 0..count {
        if slot_at(state, place) == slot {
            return true;
        }
    }
    false
}

// Whether the slot is one of the first in line, and waits.
pub(crate) fn waits_ahead(state: &[u32], count: u32, slot: u32) -> bool
    requires { (state_words ≤ length state.now) × (count ≤ 8) }
    ensures { result ≡ waits_ahead state.now count slot }
{
    if !is_ahead(state, count, slot) {
        return false;
    }
    is_waiting(state, slot)
}

// The class that has a target's methods: the object's class, or the class itself.
fn class_for(tables: &[u32], kind: u32, number: u32) -> u32
    ensures { result ≡ class_for tables.now kind number }
{
    if kind == layout::OBJECT_KIND {
        return catalog::class_of(tables, number);
    }
    number
}

// The send to a target, with the word of its method's name.
pub fn wanted_of(
    tables: &[u32],
    kind: u32,
    number: u32,
    class: u32,
    place: u32,
    argument: u32,
) -> Wanted
    ensures { asked result ≡ wanted tables.now kind number class place argument }
{
    let name = catalog::member_word(tables, class, layout::METHODS, place) % layout::ORIGIN_UNIT;
    Wanted {
        kind,
        number,
        class,
        place,
        name,
        argument,
    }
}

// The send that the words of a waiting send hold.
pub fn wanted_in(tables: &[u32], waiting: &[u32]) -> Wanted
    ensures { asked result ≡ wanted_in tables.now waiting.now }
{
    let kind = memory::get(waiting, layout::KIND_AT);
    let number = memory::get(waiting, layout::NUMBER_AT);
    let place = memory::get(waiting, layout::PLACE_AT);
    let argument = memory::get(waiting, layout::ARGUMENT_AT);
    let class = class_for(tables, kind, number);
    wanted_of(tables, kind, number, class, place, argument)
}
