// The lines of the objects: name and values.
ghost use Rattle.std.specs.Prelude.{◌+◌, ◌*◌, ◌≤◌, ◌<◌, ◌^◌, min, ◌≡◌, length, take, drop};
ghost use mathlib.Core.List.{List, flat_map};
ghost use Rattle.model.specs.Rehearsal.{objects_printed};
ghost use Rattle.catalog.specs.View.{library_of};
ghost use Rattle.output.specs.Append.{Appended};
ghost use Rattle.call_lines.specs.Objects.{value_printed, object_printed};

// Writes a space and a value for each of `count` values from `base` on; for those that there are.
fn put_values(values: &[u32], base: usize, count: usize, out: &mut [u8], at: usize) -> usize
    requires { (count ≤ 32) × (base ≤ 2048) × (at + 11 * 32 < 2 ^ 64) }
    ensures { Appended (flat_map value_printed (take count (drop base values.now))) out.old at result out.new }
{
    let rest = &values[base.min(values.len())..];
    let mut end = at;
    for value in rest.iter().take(count) {
        end = output::put_byte(out, end, b' ');
        end = output::put_digits(out, end, 10, *value);
    }
    end
}

// Writes the line of an object, whose values begin at `base`.
fn put_line(
    text: &[u8],
    tables: &[u32],
    values: &[u32],
    object: u32,
    base: usize,
    out: &mut [u8],
    at: usize,
) -> usize
    requires { (base ≤ 2048) × (at + 384 < 2 ^ 64) }
    ensures { Appended (object_printed text.now tables.now object (drop base values.now)) out.old at result out.new }
{
    let word = catalog::object_word(tables, object, layout::OBJECT_NAME_AT);
    let count = catalog::shown_count(tables, catalog::class_of(tables, object), layout::FIELDS);
    let end = output::put_bytes(out, at, catalog::name_of(text, word));
    let end = put_values(values, base, count as usize, out, end);
    output::put_byte(out, end, b'\n')
}

// Writes the lines of all objects.
pub(crate) fn put_lines(
    text: &[u8],
    tables: &[u32],
    values: &[u32],
    out: &mut [u8],
    at: usize,
) -> usize
    requires { at + 24576 < 2 ^ 64 }
    ensures { Appended (objects_printed (library_of text.now tables.now) (library_of text.now tables.now).objects values.now) out.old at result out.new }
{
    let objects = catalog::object_count(tables);
    let mut end = at;
    let mut base = 0;
    for object in 0..objects {
        end = put_line(text, tables, values, object, base, out, end);
        base += catalog::shown_count(
            tables,
            catalog::class_of(tables, object),
            layout::FIELDS,
        ) as usize;
    }
    end
}
