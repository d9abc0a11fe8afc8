// Writes the image, the starting values and the lines of `tables` from the tables into lists that the caller lends. A lent list
// keeps what lies past the part that is written, and what it has no room for is left out.
#![tactic(auto)]

mod method;
mod value;

ghost use Rattle.std.specs.Prelude.{◌+◌, ◌*◌, ◌≤◌, ◌<◌, ◌^◌, ◌≡◌, length};
ghost use Rattle.image.specs.Written.{places_from, image_from, starting_from, tables_from};
ghost use Rattle.output.specs.Append.{over, Printed, Appended};
ghost use Rattle.image.specs.Sizes.{method_count, value_count, pairs};
ghost use Rattle.layout.specs.Layout.{statements_most};

// The number of methods of all classes.
fn method_count(tables: &[u32]) -> u32
    ensures { result ≡ method_count tables.now }
{
    let classes = catalog::class_count(tables);
    let mut count = 0;
    for class in 0..classes {
        count += catalog::member_count(tables, class, layout::METHODS);
    }
    count
}

// The size of the image in bytes.
pub fn image_size(tables: &[u32]) -> usize
    ensures { result ≡ length (image_from tables.now) }
{
    let statements = catalog::statement_count(tables);
    let methods = method_count(tables);
    (32 + 8 * statements + 16 * methods) as usize
}

// Writes the four pairs, for parts of so many statements and methods.
fn put_pairs(image: &mut [u8], statements: u32, methods: u32) -> usize
    requires { (statements ≤ statements_most) × (methods ≤ 512) }
    ensures { Appended (pairs (8 * statements) (8 * methods) (4 * methods) (4 * methods)) image.old 0 result image.new }
{
    let second = 32 + 8 * statements;
    let third = second + 8 * methods;
    let at = output::put_pair(image, 0, 32, 8 * statements);
    let at = output::put_pair(image, at, second, 8 * methods);
    let at = output::put_pair(image, at, third, 4 * methods);
    output::put_pair(image, at, third + 4 * methods, 4 * methods)
}

// Writes the place of each statement in the text.
fn put_places(tables: &[u32], image: &mut [u8], at: usize) -> usize
    requires { at + 32768 < 2 ^ 64 }
    ensures { Appended (places_from tables.now) image.old at result image.new }
{
    let count = catalog::statement_count(tables);
    let mut end = at;
    for statement in 0..count {
        let word = memory::get(tables, layout::STATEMENTS_AT + statement as usize);
        end = output::put_pair(
            image,
            end,
            word / layout::PART_UNIT,
            word % layout::PART_UNIT,
        );
    }
    end
}

// Writes the image, from the front on.
pub fn write_image(tables: &[u32], image: &mut [u8])
    ensures { image.new ≡ over (image_from tables.now) image.old }
{
    let at = put_pairs(
        image,
        catalog::statement_count(tables),
        method_count(tables),
    );
    let at = put_places(tables, image, at);
    let at = method::put_classes(b"", tables, method::Part::Masks, image, at);
    let at = method::put_classes(b"", tables, method::Part::Commuting, image, at);
    method::put_classes(b"", tables, method::Part::Adds, image, at);
}

// The number of the objects' values.
pub fn value_count(tables: &[u32]) -> usize
    ensures { result ≡ value_count tables.now }
{
    let objects = catalog::object_count(tables);
    let mut count = 0;
    for object in 0..objects {
        count += catalog::shown_count(tables, catalog::class_of(tables, object), layout::FIELDS);
    }
    count as usize
}

// Writes the starting values, object by object.
pub fn write_values(text: &[u8], tables: &[u32], values: &mut [u32])
    ensures { values.new ≡ over (starting_from text.now tables.now) values.old }
{
    let objects = catalog::object_count(tables);
    let mut at = 0;
    for object in 0..objects {
        at = value::put_values(text, tables, object, values, at);
    }
}

// Writes what `tables` prints for an accepted text, and answers how many bytes that is.
pub fn write_tables(text: &[u8], tables: &[u32], out: &mut [u8]) -> usize
    ensures { Printed (tables_from text.now tables.now) out.old result out.new }
{
    method::put_classes(text, tables, method::Part::Line, out, 0)
}
