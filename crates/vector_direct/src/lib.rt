// What one line of a text does to fields and calls (01, "Vectors and commuting"): the masks of the fields that its statement
// depends on and of those that it changes, and the number of the method that it calls on its own object.
#![tactic(auto)]

ghost use Rattle.std.specs.Prelude.{◌*◌, ◌%◌, ◌^◌, ◌≡◌, ◌&&◌, map};
ghost use Rattle.std.specs.Int.Bits.{bit_or};
ghost use Rattle.model.specs.Base.{same, digit};
ghost use Rattle.model.specs.Text.{pieces, words};
ghost use Rattle.model.specs.Word.{is_name};
ghost use Rattle.model.specs.Form.{form_of};
ghost use Rattle.model.specs.Graph.{callee};
ghost use Rattle.model.specs.Vector.{in_statement};
ghost use Rattle.model.specs.Image.{mask};
ghost use Rattle.text_lex.specs.Words.{left};
ghost use Rattle.catalog.specs.View.{library_of};
ghost use Rattle.vector_direct.specs.Fields.{fields_in};
ghost use Rattle.vector_direct.specs.Mentions.{counts, mentions_behind};
ghost use Rattle.vector_direct.specs.Calls.{number_of, number_in, behind_send, target_in};
ghost use Rattle.vector_direct.specs.Says.{Says, joined_vector};
ghost use Rattle.vector_direct.specs.Lines.{statement_of, is_statement};

use text_lex::Words;
use text_syntax::form::Kind;

// No method: the definitions `number_of` and `number_in`, which the clauses hold, give it this number.
const NONE: u32 = 512;

const POINT: u8 = 46;

// The fields that a run depends on, and those that it changes: bit k is field k.
#[derive(Clone, Copy)]
pub struct Vector {
    pub depends: u32,
    pub changes: u32,
}

// The union of two vectors.
pub fn joined(a: Vector, b: Vector) -> Vector
    ensures { result ≡ joined_vector a b }
{
    Vector {
        depends: a.depends | b.depends,
        changes: a.changes | b.changes,
    }
}

// The mask, with the bit at the place set where the test passes; the place is taken modulo 32.
pub fn with_bit(mask: u32, place: u32, test: bool) -> u32
    ensures { result ≡ bit_or mask (digit test * 2 ^ (place % 32)) }
{
    if test {
        mask | (1u32 << (place % 32))
    } else {
        mask
    }
}

// Whether the word after this one counts: as usual, and the opposite after the keyword and after `add`.
fn counts(word: &[u8], keyword: &[u8], usual: bool) -> bool
    ensures { result ≡ counts keyword.now usual word.now }
{
    if text_lex::same(word, keyword) | text_lex::same(word, b"add") {
        !usual
    } else {
        usual
    }
}

// A class in the tables, by its number: the one whose fields and methods a line may name.
#[derive(Clone, Copy)]
struct Class<'a> {
    text: &'a [u8],
    tables: &'a [u32],
    number: u32,
}

impl Class<'_> {
    // The mask of the class's fields that the word names.
    fn field_mask(&self, word: &[u8]) -> u32
        ensures { result ≡ mask (map (λ f. same f word.now) (fields_in self.now.text.now self.now.tables.now self.now.number)) }
    {
        let count = catalog::shown_count(self.tables, self.number, layout::FIELDS);
        let mut mask = 0;
        for place in 0..count {
            let named = catalog::is_named(
                self.text,
                catalog::member_word(self.tables, self.number, layout::FIELDS, place),
                word,
            );
            mask = with_bit(mask, place, named);
        }
        mask
    }

    // The same for a word that counts and is a name; no field for any other.
    fn counted_mask(&self, word: &[u8], on: bool) -> u32
        ensures { result ≡ mask (map (λ f. on && is_name word.now && same f word.now) (fields_in self.now.text.now self.now.tables.now self.now.number)) }
    {
        if on && text_lex::is_name(word) {
            self.field_mask(word)
        } else {
            0
        }
    }

    // The fields named by those words after the line's first that count.
    fn mentioned(&self, line: &[u8], keyword: &[u8], usual: bool) -> u32
        ensures { result ≡ mask (map (mentions_behind keyword.now usual (words line.now)) (fields_in self.now.text.now self.now.tables.now self.now.number)) }
    {
        let first = text_lex::word_end(line, 0);
        let mut on = counts(&line[..first], keyword, usual);
        let mut mask = 0;
        for word in text_lex::words_after(line, first) {
            mask |= self.counted_mask(word, on);
            on = counts(word, keyword, usual);
        }
        mask
    }

    // The number of the method that `M` or `C.M` names on an object of the class.
    fn target_number(&self, target: &[u8]) -> u32
        ensures { result ≡ number_of (library_of self.now.text.now self.now.tables.now) (target_in (library_of self.now.text.now self.now.tables.now) self.now.number (pieces 46 target.now)) }
    {
        let point = text_lex::piece_end(target, 0, POINT);
        if point < target.len() {
            let other = catalog::class_number(self.text, self.tables, &target[..point]);
            method_number(
                self.text,
                self.tables,
                other,
                text_lex::piece_after(target, point, POINT),
            )
        } else {
            method_number(self.text, self.tables, self.number, target)
        }
    }
}

// Whether the line is a statement.
fn is_statement(line: &[u8]) -> bool
    ensures { result ≡ is_statement (form_of (words line.now)) }
{
    matches!(text_syntax::form::kind_of(line), Some(Kind::Statement))
}

// The vector of the line's statement over the fields of a class; empty for a line that is no statement.
pub fn line_vector(text: &[u8], tables: &[u32], class: u32, line: &[u8]) -> Vector
    ensures { Says (fields_in text.now tables.now class) (λ f. in_statement f (statement_of line.now)) result }
{
    if is_statement(line) {
        let own = Class {
            text,
            tables,
            number: class,
        };
        Vector {
            depends: own.mentioned(line, b"send", true),
            changes: own.mentioned(line, b"set", false),
        }
    } else {
        Vector {
            depends: 0,
            changes: 0,
        }
    }
}

// The words after the line's first word `send`; none where it has none.
fn behind_send(line: &[u8]) -> Words<'_>
    ensures { left result ≡ behind_send (words line.now) }
{
    let first = text_lex::word_end(line, 0);
    let mut words = text_lex::words_after(line, first);
    if text_lex::same(&line[..first], b"send") {
        return words;
    }
    while let Some(word) = words.next() {
        if text_lex::same(word, b"send") {
            return words;
        }
    }
    words
}

// The number of a class's method by name: 32 for each class before, plus its place; 512 where the class has no such method.
pub fn method_number(text: &[u8], tables: &[u32], class: u32, name: &[u8]) -> u32
    ensures { result ≡ number_of (library_of text.now tables.now) (record { class = class; method = name.now }) }
{
    let count = catalog::shown_count(tables, class, layout::METHODS);
    match catalog::find(text, tables, class, layout::METHODS, name) {
        Some(place) if place < count => class * 32 + place,
        _ => NONE,
    }
}

// The number of the method that the line's statement calls on an object of the class; 512 where it calls none.
pub fn line_callee(text: &[u8], tables: &[u32], class: u32, line: &[u8]) -> u32
    ensures { result ≡ number_in (library_of text.now tables.now) (callee (library_of text.now tables.now) class (statement_of line.now).action) }
{
    match behind_send(line).next() {
        Some(target) if is_statement(line) => {
            let own = Class {
                text,
                tables,
                number: class,
            };
            own.target_number(target)
        }
        _ => NONE,
    }
}
