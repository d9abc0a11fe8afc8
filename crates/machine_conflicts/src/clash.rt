// What is in the way of a send: the locks of a row that clash with it, and the slots that hold them or wait for them ahead of it, as a
// mask. The rules are in crates/machine_words/specs/Request.antt and Line.antt.
ghost use Rattle.std.specs.Prelude.{◌≡◌, ◌≤◌, ◌<◌, ℕ, List, Bool, length};
ghost use Rattle.machine_words.specs.Request.{in_domain, lacks, lacking, row_meets};
ghost use Rattle.machine_words.specs.Said.{asked};
ghost use Rattle.machine_conflicts.specs.Clashing.{domain_place, Placed, held_at, holds_one, conflicts_of, class_clashes, domain_clashes};
ghost use Rattle.layout.specs.Layout.{state_words};
ghost use Rattle.machine_words.specs.Line.{tables_of, holder_at, waiter_at, blocks, in_the_way};
ghost use Rattle.machine_checks.specs.Lent.{Within};
ghost use Rattle.machine_conflicts.specs.Way.{gathered, besides};
ghost use Rattle.machine_conflicts.specs.Tested.{Tests};
ghost use Rattle.machine_conflicts.specs.Holders.{held_upto, lock_test, target_word, starts_at_once};

use super::line::waits_ahead;
use machine_checks::{row_of, tables_of, waiting_of};
use machine_words::Wanted;

// The methods that the row holds at a word, or on the class with its objects.
fn held_at(row: &[u32], word: usize, class: u32) -> u32
    ensures { result ≡ held_at row.now word class }
{
    memory::get(row, word) | memory::get(row, layout::WHOLE_LOCKS_AT + class as usize)
}

// Whether the row holds one of these methods at a word, or on the class with its objects.
fn holds(row: &[u32], word: usize, class: u32, methods: u32) -> bool
    ensures { result ≡ holds_one row.now word class methods }
{
    held_at(row, word, class) & methods != 0
}

// The methods of a class that do not commute with the one at a place.
fn conflicts(tables: &[u32], class: u32, place: u32) -> u32
    ensures { result ≡ conflicts_of tables.now class place }
{
    !catalog::commuting_mask(tables, class, place)
}

// Whether the class is in the send's domain.
fn in_domain(tables: &[u32], wanted: Wanted, class: u32) -> bool
    ensures { result ≡ in_domain tables.now (asked wanted) class }
{
    catalog::has_bit(catalog::domain(tables, wanted.number), class)
}

// The place of the method in a class that a send to a domain locks, if it locks the class.
pub fn domain_place(text: &[u8], tables: &[u32], wanted: Wanted, class: u32) -> Option<u32>
    ensures { Placed result (domain_place text.now tables.now (asked wanted) class) }
{
    if !in_domain(tables, wanted, class) {
        return None;
    }
    let name = catalog::name_of(text, wanted.name);
    catalog::find(text, tables, class, layout::METHODS, name)
}

// Whether the row holds a lock on the class in the way of a send to a domain. Few rows hold one, so that is tested first.
fn class_clashes(text: &[u8], tables: &[u32], wanted: Wanted, row: &[u32], class: u32) -> bool
    ensures { result ≡ class_clashes text.now tables.now (asked wanted) row.now class }
{
    let word = layout::CLASS_LOCKS_AT + class as usize;
    if held_at(row, word, class) == 0 {
        return false;
    }
    match domain_place(text, tables, wanted, class) {
        Some(place) => holds(row, word, class, conflicts(tables, class, place)),
        None => false,
    }
}

// Whether the row holds a lock on some class in the way of a send to a domain.
fn domain_clashes(text: &[u8], tables: &[u32], wanted: Wanted, row: &[u32]) -> bool
    ensures { result ≡ domain_clashes text.now tables.now (asked wanted) row.now }
{
    (0..catalog::class_count(tables)).any(|class| class_clashes(text, tables, wanted, row, class))
}

// Whether the class is in the send's domain and has no such method.
fn lacks_method(text: &[u8], tables: &[u32], wanted: Wanted, class: u32) -> bool
    ensures { result ≡ lacks text.now tables.now (asked wanted) class }
{
    if !in_domain(tables, wanted, class) {
        return false;
    }
    let name = catalog::name_of(text, wanted.name);
    catalog::find(text, tables, class, layout::METHODS, name).is_none()
}

// Whether the send is to a domain of which some class has no such method.
pub fn domain_lacks(text: &[u8], tables: &[u32], wanted: Wanted) -> bool
    ensures { result ≡ lacking text.now tables.now (asked wanted) }
{
    if wanted.kind != layout::DOMAIN_KIND {
        return false;
    }
    (0..catalog::class_count(tables)).any(|class| lacks_method(text, tables, wanted, class))
}

// What the eight slots hold at a word of their rows, or on the class with its objects.
fn held_by_all(state: &[u32], word: usize, class: u32) -> u32
    requires { state_words ≤ length state.now }
    ensures { result ≡ held_upto state.now word class 8 }
{
    let mut held = 0;
    for slot in 0..layout::SLOTS {
        held |= held_at(row_of(state, slot), word, class);
    }
    held
}

// Whether a slot is in the way by a test of locks: it is open and its row passes, or it is one of the first in line and waits, and
// the words of its waiting send pass.
fn blocks<F: Fn(&[u32]) -> bool>(state: &[u32], ahead: u32, slot: u32, test: &F) -> bool
    requires slot { Within state.now slot }
    requires line { ahead ≤ 8 }
    requires callable { F.IsAlwaysCallable test.now }
    ensures { (p : List ℕ → Bool) → Tests F.Fn test.now p → result ≡ blocks state.now ahead p slot }
{
    if machine_checks::phase_of(state, slot) != layout::CLOSED && test(row_of(state, slot)) {
        return true;
    }
    waits_ahead(state, ahead, slot) && test(waiting_of(state, slot))
}

// The other slots that are in the way by a test of locks, as a mask.
fn blocking<F: Fn(&[u32]) -> bool>(state: &[u32], ahead: u32, slot: u32, test: F) -> u32
    requires slot { Within state.now slot }
    requires line { ahead ≤ 8 }
    requires callable { F.IsAlwaysCallable test }
    ensures { (p : List ℕ → Bool) → Tests F.Fn test p → result ≡ gathered (besides slot (blocks state.now ahead p)) 8 }
{
    let mut mask = 0;
    for other in 0..layout::SLOTS {
        if other != slot && blocks(state, ahead, other, &test) {
            mask |= 1u32 << other;
        }
    }
    mask
}

// The word of a row with the locks on a send's object, or on its class without its objects.
fn target_word(wanted: Wanted) -> usize
    ensures { result ≡ target_word (asked wanted) }
{
    if wanted.kind == layout::OBJECT_KIND {
        layout::OBJECT_LOCKS_AT + wanted.number as usize
    } else {
        layout::CLASS_LOCKS_AT + wanted.class as usize
    }
}

// The slots in the way of a send to an object or to a class's own objects.
fn target_clashing(text: &[u8], state: &[u32], ahead: u32, slot: u32, wanted: Wanted) -> u32
    requires { Within state.now slot × (ahead ≤ 8) × (wanted.kind < 2) }
    ensures { result ≡ gathered (in_the_way text.now state.now ahead slot (asked wanted)) 8 }
{
    let word = target_word(wanted);
    let methods = conflicts(tables_of(state), wanted.class, wanted.place);
    blocking(
        state,
        ahead,
        slot,
        |row| holds(row, word, wanted.class, methods),
    )
}

// The slots in the way of a send to a domain.
fn domain_clashing(text: &[u8], state: &[u32], ahead: u32, slot: u32, wanted: Wanted) -> u32
    requires { Within state.now slot × (ahead ≤ 8) × (2 ≤ wanted.kind) }
    ensures { result ≡ gathered (in_the_way text.now state.now ahead slot (asked wanted)) 8 }
{
    let tables = tables_of(state);
    blocking(
        state,
        ahead,
        slot,
        |row| domain_clashes(text, tables, wanted, row),
    )
}

// The slots in the way of a send, as holders or among the first in line.
pub fn clashing(text: &[u8], state: &[u32], ahead: u32, slot: u32, wanted: Wanted) -> u32
    requires { Within state.now slot × (ahead ≤ 8) }
    ensures { result ≡ gathered (in_the_way text.now state.now ahead slot (asked wanted)) 8 }
{
    if wanted.kind < layout::DOMAIN_KIND {
        target_clashing(text, state, ahead, slot, wanted)
    } else {
        domain_clashing(text, state, ahead, slot, wanted)
    }
}

// Whether a send to an object can start at once: nobody waits, no slot holds a conflict, and the body is at its place in the object's
// class.
pub fn starts_at_once(state: &[u32], wanted: Wanted) -> bool
    requires { state_words ≤ length state.now }
    ensures { result ≡ starts_at_once state.now (asked wanted) }
{
    if memory::get(state, layout::LINE_AT) != 0 {
        return false;
    }
    let word = layout::OBJECT_LOCKS_AT + wanted.number as usize;
    let methods = conflicts(tables_of(state), wanted.class, wanted.place);
    if held_by_all(state, word, wanted.class) & methods != 0 {
        return false;
    }
    catalog::body::named_at(tables_of(state), wanted.class, wanted.place, wanted.name)
}
