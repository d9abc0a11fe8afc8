// The starting values of an object, read from the words of its line.
ghost use Rattle.std.specs.Prelude.{◌+◌, ◌<◌, ◌^◌, ◌≡◌};
ghost use Rattle.catalog.specs.View.{value_of};
ghost use Rattle.image.specs.Written.{values_from};
ghost use Rattle.output.specs.Append.{Appended};

// The number that a word denotes; 0 where it is no number.
fn value_of(word: &[u8]) -> u32
    ensures { result ≡ value_of word.now }
{
    text_lex::number_of(word).unwrap_or(0)
}

// Writes the values of an object, absent ones as 0.
pub(crate) fn put_values(
    text: &[u8],
    tables: &[u32],
    object: u32,
    values: &mut [u32],
    at: usize,
) -> usize
    requires { at + 32 < 2 ^ 64 }
    ensures { Appended (values_from text.now tables.now object) values.old at result values.new }
{
    let count = catalog::shown_count(
        tables,
        catalog::class_of(tables, object),
        layout::FIELDS,
    ) as usize;
    let line = catalog::part_of(
        text,
        catalog::object_word(tables, object, layout::OBJECT_LINE_AT),
    );
    let mut words = text_lex::words_after(line, 0);
    for field in 0..count {
        let word = words.next().unwrap_or(b"");
        memory::put(values, at + field, value_of(word));
    }
    at + count
}
