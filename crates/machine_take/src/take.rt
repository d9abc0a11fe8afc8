// Takes the locks of a send.
ghost use Rattle.std.specs.Prelude.{◌≡◌, ◌<◌, take, drop};
ghost use Rattle.machine_words.specs.Row.{with_bits};
ghost use Rattle.machine_words.specs.Request.{domain_lock, locked};
ghost use Rattle.machine_words.specs.Said.{asked};
ghost use Rattle.machine_take.specs.Locking.{place_bit, locked_target};
ghost use Rattle.catalog.specs.View.{class_count};
ghost use Rattle.std.proofs.lemmas.List.Edits.{sets};
ghost use Rattle.machine_words.specs.Line.{tables_of};
ghost use Rattle.machine_checks.specs.Lent.{Span};
ghost use Rattle.machine_take.specs.Taken.{locked_below};

use machine_checks::tables_of;
use machine_conflicts::clash::domain_place;
use machine_words::Wanted;

// The mask of the method at a place; 0 past the 32 of a mask.
pub fn place_bit(place: u32) -> u32
    ensures { result ≡ place_bit place }
{
    if place < 32 { 1u32 << place } else { 0 }
}

// Adds lock bits to a word of the row, and marks the word as one with locks.
pub fn add_lock(row: &mut [u32], word: usize, bits: u32)
    ensures { row.new ≡ with_bits row.old word bits }
{
    let held = memory::get(row, word);
    let marks = memory::get(row, layout::LOCK_MARKS_AT);
    memory::put(
        row,
        layout::LOCK_MARKS_AT,
        marks | (1u32 << (word / 8 % 32)),
    );
    memory::put(row, word, held | bits);
}

// Takes the locks of a send to an object, on the object and on its class, or to a class's own objects.
fn lock_target(row: &mut [u32], wanted: Wanted)
    ensures { row.new ≡ locked_target (asked wanted) row.old }
{
    let bits = place_bit(wanted.place);
    if wanted.kind == layout::OBJECT_KIND {
        add_lock(row, layout::OBJECT_LOCKS_AT + wanted.number as usize, bits);
        add_lock(row, layout::CLASS_LOCKS_AT + wanted.class as usize, bits);
        return;
    }
    add_lock(row, layout::WHOLE_LOCKS_AT + wanted.class as usize, bits);
}

// Takes a domain's lock on one class, by that class's own method of the name; does nothing where the send does not lock it.
fn lock_class(text: &[u8], state: &mut [u32], start: usize, size: usize, wanted: Wanted, class: u32)
    requires { Span state.old start size }
    ensures { state.new ≡ sets state.old start (domain_lock text.now (tables_of state.old) (asked wanted) (take size (drop start state.old)) class) }
{
    if let Some(place) = domain_place(text, tables_of(state), wanted, class) {
        let bits = place_bit(place);
        let end = start + size;
        add_lock(
            &mut state[start..end],
            layout::WHOLE_LOCKS_AT + class as usize,
            bits,
        );
    }
}

// Takes the locks of a send to a domain.
fn lock_domain(text: &[u8], state: &mut [u32], start: usize, size: usize, wanted: Wanted)
    requires { Span state.old start size }
    ensures { state.new ≡ sets state.old start (locked_below text.now (tables_of state.old) (asked wanted)
        (take size (drop start state.old)) (class_count (tables_of state.old))) }
{
    let count = catalog::class_count(tables_of(state));
    for class in 0..count {
        lock_class(text, state, start, size, wanted, class);
    }
}

// Takes the locks of a send, in a row or in the words of a waiting send: the part of the state that starts there. The part goes by its
// place, since the tables are read from the same state.
pub fn lock(text: &[u8], state: &mut [u32], start: usize, size: usize, wanted: Wanted)
    requires { Span state.old start size × (wanted.place < 32) }
    ensures { state.new ≡ sets state.old start (locked text.now (tables_of state.old) (asked wanted) (take size (drop start state.old))) }
{
    if layout::DOMAIN_KIND <= wanted.kind {
        lock_domain(text, state, start, size, wanted);
        return;
    }
    let end = start + size;
    lock_target(&mut state[start..end], wanted);
}
