// Writes the masks of every method into the tables: three of its transitive vector, and one of the methods that it commutes
// with.
ghost use Rattle.std.specs.Prelude.{◌+◌, ◌*◌, ◌<◌, ◌≡◌};
ghost use Rattle.layout.specs.Layout.{class_words, classes_at};
ghost use Rattle.catalog.specs.View.{member_count};
ghost use Rattle.vector_compiler.specs.Filled.{Filled};
ghost use Rattle.vector_compiler.specs.Filling.{with_vector, stored, commuting_mask, ModesTo, CommutingTo, ClassFilled};

use super::body::Class;
use super::closure::vector_of;
use super::memo::Memo;
use vector_commute::{commuting, mode_mask};
use vector_direct::Vector;

// The place of a method's mask.
fn mask_place(class: u32, row: u32, method: u32) -> usize
    ensures { result ≡ classes_at + (class * class_words + (row + method)) }
{
    layout::CLASSES_AT + (class as usize * layout::CLASS_WORDS + (row as usize + method as usize))
}

// Stores the masks of Read, Write and Add of a vector.
fn put_vector(tables: &mut [u32], class: u32, method: u32, vector: Vector)
    ensures { tables.new ≡ with_vector tables.old class method vector }
{
    let read = mode_mask(vector, 1);
    let add = mode_mask(vector, 2);
    let write = mode_mask(vector, 3);
    memory::put(
        tables,
        mask_place(class, layout::READ_MASKS_AT, method),
        read,
    );
    memory::put(
        tables,
        mask_place(class, layout::WRITE_MASKS_AT, method),
        write,
    );
    memory::put(tables, mask_place(class, layout::ADD_MASKS_AT, method), add);
}

// The stored vector of a method.
fn stored_vector(tables: &[u32], class: u32, method: u32) -> Vector
    ensures { result ≡ stored tables.now class method }
{
    let read = memory::get(tables, mask_place(class, layout::READ_MASKS_AT, method));
    let write = memory::get(tables, mask_place(class, layout::WRITE_MASKS_AT, method));
    let add = memory::get(tables, mask_place(class, layout::ADD_MASKS_AT, method));
    Vector {
        depends: read | write,
        changes: write | add,
    }
}

// The methods of the class with which a method commutes, by the stored vectors.
fn commuting_mask(tables: &[u32], class: u32, method: u32) -> u32
    ensures { result ≡ commuting_mask tables.now class method }
{
    let count = catalog::member_count(tables, class, layout::METHODS);
    let vector = stored_vector(tables, class, method);
    let mut mask = 0;
    for other in 0..count {
        let together = commuting(vector, stored_vector(tables, class, other));
        mask = vector_direct::with_bit(mask, other, together);
    }
    mask
}

// Stores the vectors of a class's methods.
fn fill_masks(text: &[u8], tables: &mut [u32], class: u32)
    requires { class < 16 }
    ensures { ModesTo text.now tables.old class (member_count tables.old class 1) tables.new }
{
    let count = catalog::member_count(tables, class, layout::METHODS);
    let mut memo = Memo::new();
    for method in 0..count {
        let here = Class {
            text,
            tables,
            number: class,
        };
        let vector = vector_of(&here, method, &mut memo);
        put_vector(tables, class, method, vector);
    }
}

// Stores the commuting masks of a class's methods.
fn fill_commuting(tables: &mut [u32], class: u32)
    ensures { CommutingTo tables.old class (member_count tables.old class 1) tables.new }
{
    let count = catalog::member_count(tables, class, layout::METHODS);
    for method in 0..count {
        let mask = commuting_mask(tables, class, method);
        memory::put(
            tables,
            mask_place(class, layout::COMMUTING_AT, method),
            mask,
        );
    }
}

// Stores the masks of a class's methods.
fn fill_class(text: &[u8], tables: &mut [u32], class: u32)
    requires { class < 16 }
    ensures { ClassFilled text.now tables.old class tables.new }
{
    fill_masks(text, tables, class);
    fill_commuting(tables, class);
}

// Stores the masks of every method of every class of the library in `tables`.
pub fn fill_vectors(text: &[u8], tables: &mut [u32])
    ensures { Filled text.now tables.old tables.new }
{
    let count = catalog::class_count(tables);
    for class in 0..count {
        fill_class(text, tables, class);
    }
}
