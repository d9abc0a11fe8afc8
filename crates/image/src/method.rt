// Writes what the image or `tables` has of each method, in order: its read and write masks, its commuting mask, its add mask, or its
// line.
ghost use Rattle.std.specs.Prelude.{◌+◌, ◌≤◌, ◌<◌, ◌^◌, ◌≡◌};
ghost use Rattle.model.specs.Base.{upto};
ghost use Rattle.catalog.specs.View.{class_word};
ghost use Rattle.image.specs.Written.{each_method, letters_from, line_from};
ghost use Rattle.output.specs.Append.{Appended};
ghost use Rattle.image.specs.Cells.{cell_from, methods_from, name_from, vector_from, flags_from, mark_of};

use output::{put_byte, put_bytes, put_pair, put_u32};

// The part of a method that is written. No closure: each loop says by it what it has written so far (`cell_from`).
#[derive(Clone, Copy)]
pub enum Part {
    Masks,
    Commuting,
    Adds,
    Line,
}

// The byte of the first of three masks that has the bit; the fourth byte where none has it.
fn mark(place: u32, first: u32, second: u32, third: u32, marks: &[u8; 4]) -> u8
    ensures { result ≡ mark_of first second third marks.now place }
{
    if catalog::has_bit(first, place) {
        return marks[0];
    }
    if catalog::has_bit(second, place) {
        return marks[1];
    }
    if catalog::has_bit(third, place) {
        marks[2]
    } else {
        marks[3]
    }
}

// Writes such a byte for each place below a count.
fn put_marks(
    out: &mut [u8],
    at: usize,
    count: u32,
    first: u32,
    second: u32,
    third: u32,
    marks: &[u8; 4],
) -> usize
    requires { (count ≤ 32) × (at + 32 < 2 ^ 64) }
    ensures { Appended (upto (mark_of first second third marks.now) count) out.old at result out.new }
{
    let mut end = at;
    for place in 0..count {
        let byte = mark(place, first, second, third, marks);
        end = put_byte(out, end, byte);
    }
    end
}

// Writes the letters of a vector, or `-`.
fn put_letters(out: &mut [u8], at: usize, fields: u32, read: u32, write: u32, add: u32) -> usize
    requires { (fields ≤ 32) × (at + 32 < 2 ^ 64) }
    ensures { Appended (letters_from read write add fields) out.old at result out.new }
{
    if fields == 0 {
        return put_byte(out, at, b'-');
    }
    put_marks(out, at, fields, write, read, add, b"WRAN")
}

// Writes the name that a name's word refers to, and a space.
fn put_name(text: &[u8], word: u32, out: &mut [u8], at: usize) -> usize
    requires { at + 32 < 2 ^ 64 }
    ensures { Appended (name_from text.now word) out.old at result out.new }
{
    let at = put_bytes(out, at, catalog::name_of(text, word));
    put_byte(out, at, b' ')
}

// A method of a class by its place there, with the text and the tables that tell of it.
#[derive(Clone, Copy)]
struct Method<'a> {
    text: &'a [u8],
    tables: &'a [u32],
    class: u32,
    place: u32,
}

impl Method<'_> {
    // The method's word in a row of the class's words.
    fn word(&self, row: u32) -> u32
        requires { self.now.place + row < 2 ^ 32 }
        ensures { result ≡ class_word self.now.tables.now self.now.class (row + self.now.place) }
    {
        catalog::class_word(self.tables, self.class, row + self.place)
    }
}

// Writes a method's letters and a space.
fn put_vector(method: &Method<'_>, out: &mut [u8], at: usize) -> usize
    requires { (method.now.place < 32) × (at + 33 < 2 ^ 64) }
    ensures { Appended (vector_from method.now.tables.now method.now.class method.now.place) out.old at result out.new }
{
    let fields = catalog::member_count(method.tables, method.class, layout::FIELDS);
    let read = method.word(layout::READ_MASKS_AT);
    let write = method.word(layout::WRITE_MASKS_AT);
    let add = method.word(layout::ADD_MASKS_AT);
    let at = put_letters(out, at, fields, read, write, add);
    put_byte(out, at, b' ')
}

// Writes `y` for each method that a method commutes with and `n` for each other, and a line feed.
fn put_flags(method: &Method<'_>, out: &mut [u8], at: usize) -> usize
    requires { (method.now.place < 32) × (at + 33 < 2 ^ 64) }
    ensures { Appended (flags_from method.now.tables.now method.now.class method.now.place) out.old at result out.new }
{
    let methods = catalog::member_count(method.tables, method.class, layout::METHODS);
    let mask = method.word(layout::COMMUTING_AT);
    let at = put_marks(out, at, methods, mask, mask, mask, b"ynnn");
    put_byte(out, at, b'\n')
}

// Writes a method's line.
fn put_line(method: &Method<'_>, out: &mut [u8], at: usize) -> usize
    requires { (method.now.place < 32) × (at + 130 < 2 ^ 64) }
    ensures { Appended (line_from method.now.text.now method.now.tables.now method.now.class method.now.place) out.old at result out.new }
{
    let class = catalog::class_word(method.tables, method.class, layout::CLASS_NAME_AT);
    let at = put_name(method.text, class, out, at);
    let at = put_name(method.text, method.word(layout::METHOD_NAMES_AT), out, at);
    let at = put_vector(method, out, at);
    put_flags(method, out, at)
}

// Writes one part of a method.
fn put_cell(method: &Method<'_>, part: Part, out: &mut [u8], at: usize) -> usize
    requires { (method.now.place < 32) × (at + 130 < 2 ^ 64) }
    ensures { Appended (cell_from method.now.text.now method.now.tables.now part method.now.class method.now.place) out.old at result out.new }
{
    match part {
        Part::Masks => {
            let read = method.word(layout::READ_MASKS_AT);
            let write = method.word(layout::WRITE_MASKS_AT);
            put_pair(out, at, read, write)
        }
        Part::Commuting => put_u32(out, at, method.word(layout::COMMUTING_AT)),
        Part::Adds => put_u32(out, at, method.word(layout::ADD_MASKS_AT)),
        Part::Line => put_line(method, out, at),
    }
}

// Writes that part of each method of a class.
fn put_methods(
    text: &[u8],
    tables: &[u32],
    part: Part,
    class: u32,
    out: &mut [u8],
    at: usize,
) -> usize
    requires { at + 4160 < 2 ^ 64 }
    ensures { Appended (methods_from text.now tables.now part class) out.old at result out.new }
{
    let count = catalog::member_count(tables, class, layout::METHODS);
    let mut end = at;
    for method in 0..count {
        let one = Method {
            text,
            tables,
            class,
            place: method,
        };
        end = put_cell(&one, part, out, end);
    }
    end
}

// Writes that part of each method of each class.
pub(crate) fn put_classes(
    text: &[u8],
    tables: &[u32],
    part: Part,
    out: &mut [u8],
    at: usize,
) -> usize
    requires { at + 66560 < 2 ^ 64 }
    ensures { Appended (each_method tables.now (cell_from text.now tables.now part)) out.old at result out.new }
{
    let count = catalog::class_count(tables);
    let mut end = at;
    for class in 0..count {
        end = put_methods(text, tables, part, class, out, end);
    }
    end
}
