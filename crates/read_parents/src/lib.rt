// The faults 13 to 15 of the names in a class line (01, "Numbers given"): the class's own name and its parents', listed with a
// space before each.
#![tactic(auto)]

ghost use Rattle.std.specs.Prelude.{◌≡◌, length};
ghost use Rattle.model.specs.Base.{same, any, some_pair};
ghost use Rattle.model.specs.Library.{class_at};
ghost use Rattle.text_lex.specs.Piece.{words_after};
ghost use Rattle.text_lex.specs.Words.{left};
ghost use Rattle.catalog.specs.View.{library_of};
ghost use Rattle.refusals.specs.Numbers.{fault_in};
ghost use Rattle.read_parents.specs.Parents.{unknown, apart, numbers_apart, apart_from, differ, differing, parent_fault};

use refusals::Fault;
use text_lex::Words;

// The number of names.
pub fn count(names: &[u8]) -> usize
    ensures { result ≡ length (words_after names.now) }
{
    text_lex::words_after(names, 0).count()
}

// Whether a name is among the words.
fn is_among(mut words: Words<'_>, name: &[u8]) -> bool
    ensures { result ≡ any (same name.now) (left words.entry) }
{
    words.any(|word| text_lex::same(name, word))
}

// Whether two of the names are the same.
fn is_repeated(names: &[u8]) -> bool
    ensures { result ≡ some_pair same (words_after names.now) }
{
    let mut words = text_lex::words_after(names, 0);
    while let Some(word) = words.next() {
        if is_among(words, word) {
            return true;
        }
    }
    false
}

// Whether one of the names is that of no class.
fn is_unknown(text: &[u8], tables: &[u32], names: &[u8]) -> bool
    ensures { result ≡ any (unknown (library_of text.now tables.now)) (words_after names.now) }
{
    text_lex::words_after(names, 0).any(|name| !catalog::is_class(text, tables, name))
}

// Whether two words of names stand for one name declared in two classes.
fn is_different(text: &[u8], word: u32, other: u32) -> bool
    ensures { result ≡ differ text.now word other }
{
    catalog::is_named(text, word, catalog::name_of(text, other))
        & (word / layout::ORIGIN_UNIT != other / layout::ORIGIN_UNIT)
}

// Whether a field, given by its word, differs from a field of its name in a class.
fn differs_from(text: &[u8], tables: &[u32], word: u32, class: u32) -> bool
    ensures { result ≡ any (differing text.now word) (class_at (library_of text.now tables.now) class).fields }
{
    let count = catalog::shown_count(tables, class, layout::FIELDS);
    (0..count).any(|j| {
        is_different(
            text,
            word,
            catalog::member_word(tables, class, layout::FIELDS, j),
        )
    })
}

// Whether two classes have different fields of one name.
fn classes_disagree(text: &[u8], tables: &[u32], class: u32, other: u32) -> bool
    ensures { result ≡ numbers_apart (library_of text.now tables.now) class other }
{
    let count = catalog::shown_count(tables, class, layout::FIELDS);
    (0..count).any(|j| {
        differs_from(
            text,
            tables,
            catalog::member_word(tables, class, layout::FIELDS, j),
            other,
        )
    })
}

// Whether a class disagrees with one of those named.
fn disagrees(text: &[u8], tables: &[u32], mut names: Words<'_>, class: u32) -> bool
    ensures { result ≡ any (apart_from (library_of text.now tables.now) class) (left names.entry) }
{
    names.any(|name| classes_disagree(
        text,
        tables,
        class,
        catalog::class_number(text, tables, name),
    ))
}

// Whether two of the classes named disagree. The loop is that of `is_repeated`: with the test as a closure, the clause about the
// closure would be longer than the loop.
fn some_disagree(text: &[u8], tables: &[u32], names: &[u8]) -> bool
    ensures { result ≡ some_pair (apart (library_of text.now tables.now)) (words_after names.now) }
{
    let mut words = text_lex::words_after(names, 0);
    while let Some(word) = words.next() {
        if disagrees(
            text,
            tables,
            words,
            catalog::class_number(text, tables, word),
        ) {
            return true;
        }
    }
    false
}

// The lowest of the faults 13, 14 and 15 of a class line.
pub fn parent_fault(text: &[u8], tables: &[u32], name: &[u8], parents: &[u8]) -> Result<(), Fault>
    ensures { fault_in result ≡ parent_fault (library_of text.now tables.now) name.now (words_after parents.now) }
{
    if catalog::is_class(text, tables, name) | is_repeated(parents) {
        return Err(Fault::Repeated);
    }
    if is_unknown(text, tables, parents) {
        return Err(Fault::Unknown);
    }
    if some_disagree(text, tables, parents) {
        return Err(Fault::FieldsDiffer);
    }
    Ok(())
}
