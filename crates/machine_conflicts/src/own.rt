// Whether a slot holds the locks of its send already: such a send starts, whoever is in line.
ghost use Rattle.std.specs.Prelude.{◌≡◌};
ghost use Rattle.machine_words.specs.Request.{misses, owns_locks};
ghost use Rattle.machine_words.specs.Said.{asked};
ghost use Rattle.machine_conflicts.specs.Own.{misses_one};

use super::clash::domain_place;
use machine_words::Wanted;

// Whether a send to a domain locks a class, and the row has not that lock.
fn misses_lock(text: &[u8], tables: &[u32], wanted: Wanted, row: &[u32], class: u32) -> bool
    ensures { result ≡ misses text.now tables.now (asked wanted) row.now class }
{
    match domain_place(text, tables, wanted, class) {
        Some(place) => {
            let held = memory::get(row, layout::WHOLE_LOCKS_AT + class as usize);
            !catalog::has_bit(held, place)
        }
        None => false,
    }
}

// Whether the row misses a lock of a send to a domain.
fn misses_one(text: &[u8], tables: &[u32], wanted: Wanted, row: &[u32]) -> bool
    ensures { result ≡ misses_one text.now tables.now (asked wanted) row.now }
{
    (0..catalog::class_count(tables)).any(|class| misses_lock(text, tables, wanted, row, class))
}

// Whether the row holds every lock that the send takes.
pub fn owns_locks(text: &[u8], tables: &[u32], wanted: Wanted, row: &[u32]) -> bool
    ensures { result ≡ owns_locks text.now tables.now (asked wanted) row.now }
{
    if layout::DOMAIN_KIND <= wanted.kind {
        return !misses_one(text, tables, wanted, row);
    }
    if wanted.kind == layout::CLASS_KIND {
        let whole = memory::get(row, layout::WHOLE_LOCKS_AT + wanted.class as usize);
        return catalog::has_bit(whole, wanted.place);
    }
    let object = memory::get(row, layout::OBJECT_LOCKS_AT + wanted.number as usize);
    if !catalog::has_bit(object, wanted.place) {
        return false;
    }
    let class = memory::get(row, layout::CLASS_LOCKS_AT + wanted.class as usize);
    catalog::has_bit(class, wanted.place)
}
