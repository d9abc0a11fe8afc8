// The undo notes of a slot's row: for each value a mark where it was changed, another where it was set, and the word of its note. That
// is the sum that was added to it so far or, once it was set, the value that undoing gives.
#![tactic(auto)]

pub mod release;

ghost use Rattle.std.specs.Prelude.{◌≡◌, ◌+◌, ◌*◌, ◌/◌, ◌^◌, ◌<◌, ◌≤◌, true, length, set, bit_or, slice_index, slice_set};
ghost use Rattle.layout.specs.Layout.{values_most, row_words};
ghost use Rattle.model.specs.Base.{digit};
ghost use Rattle.model.specs.Undo.{restored, put_back};
ghost use Rattle.machine_words.specs.Said.{said_change};
ghost use Rattle.machine_words.specs.Row.{note_at, is_set, note_word, noted_row, unnoted, zeroed};
ghost use Rattle.machine_undo.specs.Freed.{bit_from, Unmarked};

use machine_words::Change;

// The value that undoing gives: that of the note where it was set, else the value less what was added to it.
fn restored(row: &[u32], place: usize, value: u32) -> u32
    requires { length row.now ≡ row_words }
    ensures { result ≡ restored (note_at row.now place) value }
{
    if place < layout::VALUES {
        let note = row[layout::NOTES_AT + place];
        let sets = row[layout::SET_MARKS_AT + place / 32];
        if (sets >> (place % 32)) % 2 == 1 {
            return note;
        }
        return value.wrapping_sub(note);
    }
    value
}

// Undoes every change: puts back the values that were set, and takes back what was added to the others.
fn put_back(row: &[u32], values: &mut [u32])
    requires { length row.now ≡ row_words }
    ensures { values.new ≡ put_back (note_at row.now) values.old }
{
    for (i, value) in values.iter_mut().enumerate() {
        *value = restored(row, i, *value);
    }
}

// Whether a change is a set.
fn is_set(change: Change) -> bool
    ensures { result ≡ is_set (said_change change) }
{
    change == Change::Replace
}

// The word of a note where `sum` was added so far and the old value is changed: a set notes that less the sum, an addition adds to
// the sum.
fn note_word(change: Change, sum: u32, old: u32, value: u32) -> u32
    ensures { result ≡ note_word (said_change change) sum old value }
{
    match change {
        Change::Replace => old.wrapping_sub(sum),
        Change::Increase => sum.wrapping_add(value),
    }
}

// Sets a bit of a word of marks where the test passes.
fn mark(row: &mut [u32], word: usize, bit: usize, test: bool)
    requires { bit < 32 }
    ensures { row.new ≡ slice_set row.old word (bit_or (slice_index row.old word) (digit test * 2 ^ bit)) }
{
    let marks = memory::get(row, word);
    memory::put(row, word, marks | ((test as u32) << bit));
}

// Makes the undo note of a value that is changed, or adds to it, unless the value was set already or the row has no room for it.
pub fn note(row: &mut [u32], change: Change, place: usize, old: u32, value: u32)
    ensures { row.new ≡ noted_row row.old (said_change change) place old value }
{
    if layout::VALUES <= place {
        return;
    }
    let word = place / 32;
    let bit = place % 32;
    let set = is_set(change);
    let marks = memory::get(row, layout::SET_MARKS_AT + word);
    if (marks >> bit) % 2 == 1 {
        return;
    }
    let sum = memory::get(row, layout::NOTES_AT + place);
    memory::put(row, layout::CHANGED_AT, 1);
    mark(row, layout::MARKS_AT + word, bit, true);
    mark(row, layout::SET_MARKS_AT + word, bit, set);
    memory::put(
        row,
        layout::NOTES_AT + place,
        note_word(change, sum, old, value),
    );
}

// Clears the notes of one word of marks: each turn clears the lowest one left.
fn clear_marked(row: &mut [u32], first: usize, marks: u32)
    requires { (length row.old ≡ row_words) × (first + 32 ≤ row_words) }
    ensures { row.new ≡ zeroed (bit_from first marks) row.old }
{
    let mut left = marks;
    // A `while`, with a turn for each bit that is set, not for each of 32: the speed of a commit.
    while left != 0 {
        let mark = left.trailing_zeros();
        row[first + mark as usize] = 0;
        left = left - (1u32 << mark);
    }
}

// Whether four words of marks from this one on, a multiple of four, are all 0.
fn unmarked(row: &[u32], word: usize) -> bool
    requires { (length row.now ≡ row_words) × (word < values_most / 32) }
    ensures { result ≡ true → Unmarked row.now word }
{
    if word % 4 != 0 {
        return false;
    }
    let at = layout::MARKS_AT + word;
    row[at] | row[at + 1] | row[at + 2] | row[at + 3] == 0
}

// Clears every note that was made. Four words without marks are passed over together.
fn clear_notes(row: &mut [u32])
    requires { length row.old ≡ row_words }
    ensures { row.new ≡ unnoted row.old }
{
    let mut word = 0;
    // A `while`, since a turn may pass over four words: the speed of a commit.
    while word < layout::VALUES / 32 {
        if unmarked(row, word) {
            word += 4;
        } else {
            let marks = row[layout::MARKS_AT + word];
            clear_marked(row, layout::NOTES_AT + word * 32, marks);
            word += 1;
        }
    }
}
