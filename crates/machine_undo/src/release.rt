// Ends a transaction: releases its locks and clears its row.
ghost use Rattle.std.specs.Prelude.{◌≡◌, ◌+◌, ◌/◌, ◌<◌, ◌≤◌, ◌++◌, length, drop, replicate, nat_eq};
ghost use Rattle.layout.specs.Layout.{row_words};
ghost use Rattle.model.specs.Undo.{put_back};
ghost use Rattle.machine_words.specs.Row.{note_at, zeroed, unlocked, released, freed};

// Clears the first words.
fn clear_first(row: &mut [u32], count: usize)
    requires { (length row.old ≡ row_words) × (count ≤ row_words) }
    ensures { row.new ≡ replicate count 0 ++ drop count row.old }
{
    row[0..count].fill(0);
}

// Clears eight words.
fn clear_eight(row: &mut [u32], eight: u32)
    requires { (length row.old ≡ row_words) × (eight < 32) }
    ensures { row.new ≡ zeroed (λ i. nat_eq (i / 8) eight) row.old }
{
    let start = eight as usize * 8;
    let end = start + 8;
    row[start..end].fill(0);
}

// Clears the words where locks were taken: a mark for each eight of them.
fn clear_locks(row: &mut [u32])
    requires { length row.old ≡ row_words }
    ensures { row.new ≡ unlocked row.old }
{
    let mut left = memory::get(row, layout::LOCK_MARKS_AT);
    // A `while`, with a turn for each bit that is set, not for each of 32: the speed of a commit.
    while left != 0 {
        let eight = left.trailing_zeros();
        clear_eight(row, eight);
        left = left - (1u32 << eight);
    }
}

// Clears what a transaction that changed no value wrote: its locks, its message and its activations, only the first where it made no
// self-call.
fn release(row: &mut [u32])
    requires { length row.old ≡ row_words }
    ensures { row.new ≡ released row.old }
{
    let calls = memory::get(row, layout::CALLED_AT);
    clear_locks(row);
    if calls == 0 {
        clear_first(row, layout::SHALLOW_WORDS);
        return;
    }
    clear_first(row, layout::OBJECT_LOCKS_AT);
}

// Closes a slot's row: clears what its transaction wrote. Where no value was changed there are no marks and no notes.
pub fn close(row: &mut [u32])
    requires { length row.old ≡ row_words }
    ensures { row.new ≡ freed row.old }
{
    if memory::get(row, layout::CHANGED_AT) == 0 {
        release(row);
        return;
    }
    super::clear_notes(row);
    clear_first(row, layout::WAITING_AT);
}

// Undoes a transaction in the values, and closes its row.
pub fn roll_back(row: &mut [u32], values: &mut [u32])
    requires { length row.old ≡ row_words }
    ensures { (row.new ≡ freed row.old) × (values.new ≡ put_back (note_at row.old) values.old) }
{
    super::put_back(row, values);
    close(row);
}
