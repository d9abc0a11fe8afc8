// The lines of bodies and of objects in the second pass: statement and object lines. A line function records the line,
// or answers its fault. A line is given by two places; what lies past the end of the text is left out.
#![tactic(auto)]

ghost use Rattle.std.specs.Prelude.{ℕ, ◌≤◌, ◌<◌, ◌≡◌, List, [], ◌∷◌, length};
ghost use Rattle.layout.specs.Layout.{table_words};
ghost use Rattle.model.specs.Text.{pieces, words};
ghost use Rattle.model.specs.Form.{form_of};
ghost use Rattle.model.specs.Library.{among, class_at, last_class};
ghost use Rattle.model.specs.Fault.{own_method, object_fault};
ghost use Rattle.catalog.specs.View.{library_of};
ghost use Rattle.catalog.specs.Look.{part};
ghost use Rattle.read_classes.specs.Took.{Lent};
ghost use Rattle.refusals.specs.Numbers.{fault_in};
ghost use Rattle.read_lines.specs.Below.{lines_at, look_at, seen, is_later};
ghost use Rattle.read_lines.specs.Lower.{lower, lowest};
ghost use Rattle.read_lines.specs.Mentioned.{is_stray, method_at, target_fault, word_fault, fault_behind};
ghost use Rattle.read_lines.specs.Added.{last_of, Counts, with_statement_at, with_object_words};
ghost use Rattle.read_lines.specs.Objects.{object_lowest};
ghost use Rattle.read_lines.specs.Took.{StatementTook, ObjectTook};

use refusals::Fault;
use std::ops::Range;
use text_syntax::form::Kind;

const POINT: u8 = 46;

// Whether a line decides if the class above still defines a method: true where the line defines it, false where the class ends.
fn look(line: &[u8], method: &[u8]) -> Option<bool>
    ensures { seen result ≡ look_at method.now (form_of (words line.now)) }
{
    match text_syntax::form::kind_of(line) {
        Some(Kind::Class | Kind::Object) => Some(false),
        Some(Kind::Method) => text_lex::same(
            method,
            text_lex::word_after(line, text_lex::word_end(line, 0)),
        )
        .then_some(true),
        _ => None,
    }
}

// Whether the lines from a place on still define the method in the class above them.
fn is_later(text: &[u8], from: usize, method: &[u8]) -> bool
    ensures { result ≡ is_later method.now (lines_at text.now from) }
{
    // The loop goes from line end to line end, as `lines_at` does; an iterator would hand out the same two places.
    let mut at = from;
    let mut end = text_lex::line_end(text, at);
    while end < text.len() {
        if let Some(defined) = look(&text[at..end], method) {
            return defined;
        }
        at = end + 1;
        end = text_lex::line_end(text, at);
    }
    false
}

// The class being read: the last one, or 0 where there is none, as the definition `last_number` has it.
fn last_class(tables: &[u32]) -> u32
    ensures { result ≡ last_of tables.now }
{
    catalog::class_count(tables).saturating_sub(1)
}

// Refuses what is unknown, else a prefix that is no ancestor.
fn lowest(unknown: bool, foreign: bool) -> Result<(), Fault>
    ensures { fault_in result ≡ lowest unknown foreign }
{
    if unknown {
        return Err(Fault::Unknown);
    }
    if foreign {
        return Err(Fault::NoAncestor);
    }
    Ok(())
}

// The lower of two faults.
fn lower(a: Result<(), Fault>, b: Result<(), Fault>) -> Result<(), Fault>
    ensures { fault_in result ≡ lower (fault_in a) (fault_in b) }
{
    match (a, b) {
        (Err(fault), Err(other)) if other.number() < fault.number() => b,
        (Err(_), _) => a,
        (Ok(()), _) => b,
    }
}

// What a statement may name: the classes read so far, and the methods that the lines from `below` on add to the last of them.
#[derive(Clone, Copy)]
struct Scope<'a> {
    text: &'a [u8],
    tables: &'a [u32],
    below: usize,
}

impl Scope<'_> {
    // Whether a class has a field or a method of that name.
    fn has_member(&self, class: u32, kind: u32, name: &[u8]) -> bool
        requires { kind < 2 }
        ensures { result ≡ among (part kind (class_at (library_of self.now.text.now self.now.tables.now) class)) name.now }
    {
        class < catalog::class_count(self.tables)
            && read_classes::has_member(self.text, self.tables, class, kind, name)
    }

    // Whether the word is a name but no field of the class being read.
    fn is_stray(&self, word: &[u8]) -> bool
        ensures { result ≡ is_stray (library_of self.now.text.now self.now.tables.now) word.now }
    {
        text_lex::is_name(word) & !self.has_member(last_class(self.tables), layout::FIELDS, word)
    }

    // Whether the class being read has the method, or defines it further below.
    fn is_own(&self, method: &[u8]) -> bool
        ensures { result ≡ own_method (library_of self.now.text.now self.now.tables.now) (lines_at self.now.text.now self.now.below) method.now }
    {
        self.has_member(last_class(self.tables), layout::METHODS, method)
            || is_later(self.text, self.below, method)
    }

    // Whether the class with a number has the method; the class being read may define it further below.
    fn has_method(&self, class: u32, method: &[u8]) -> bool
        ensures { result ≡ method_at (library_of self.now.text.now self.now.tables.now) (lines_at self.now.text.now self.now.below) class method.now }
    {
        if class == last_class(self.tables) {
            self.is_own(method)
        } else {
            self.has_member(class, layout::METHODS, method)
        }
    }

    // Whether the class with a number is a proper ancestor of the one being read.
    fn is_ancestor(&self, class: u32) -> bool
        ensures { (text : List ℕ) → result ≡ (last_class (library_of text self.now.tables.now)).ancestors class }
    {
        let last = last_class(self.tables);
        last < catalog::class_count(self.tables)
            && catalog::has_bit(catalog::ancestors(self.tables, last), class)
    }

    // The fault of the target `C.M` of a send.
    fn prefixed_fault(&self, class: &[u8], method: &[u8]) -> Result<(), Fault>
        ensures { fault_in result ≡ target_fault (library_of self.now.text.now self.now.tables.now) (lines_at self.now.text.now self.now.below) (class.now ∷ method.now ∷ []) }
    {
        let number = catalog::class_number(self.text, self.tables, class);
        let known = number < catalog::class_count(self.tables);
        let unknown = !known | !self.has_method(number, method);
        lowest(unknown, !self.is_ancestor(number))
    }

    // The fault of the target of a send, `M` or `C.M`.
    fn target_fault(&self, target: &[u8]) -> Result<(), Fault>
        ensures { fault_in result ≡ target_fault (library_of self.now.text.now self.now.tables.now) (lines_at self.now.text.now self.now.below) (pieces 46 target.now) }
    {
        let point = text_lex::piece_end(target, 0, POINT);
        if point < target.len() {
            let method = text_lex::piece_after(target, point, POINT);
            self.prefixed_fault(&target[..point], method)
        } else {
            lowest(!self.is_own(target), false)
        }
    }

    // The fault of a word of a statement; `sent` where it follows `send`.
    fn word_fault(&self, word: &[u8], sent: bool) -> Result<(), Fault>
        ensures { fault_in result ≡ word_fault (library_of self.now.text.now self.now.tables.now) (lines_at self.now.text.now self.now.below) sent word.now }
    {
        if sent {
            self.target_fault(word)
        } else {
            lowest(self.is_stray(word), false)
        }
    }

    // The lowest fault of the words of a statement line.
    fn words_fault(&self, line: &[u8]) -> Result<(), Fault>
        ensures { fault_in result ≡ fault_behind (library_of self.now.text.now self.now.tables.now) (lines_at self.now.text.now self.now.below) (words line.now) }
    {
        let first = text_lex::word_end(line, 0);
        let mut sent = text_lex::same(&line[..first], b"send");
        let mut fault = Ok(());
        for word in text_lex::words_after(line, first) {
            fault = lower(fault, self.word_fault(word, sent));
            sent = !sent & text_lex::same(word, b"send");
        }
        fault
    }
}

// Counts one more statement in the method being read, which has room for 32.
fn count_statement(tables: &mut [u32]) -> Result<(), Fault>
    requires { length tables.old ≡ table_words }
    ensures { (text : List ℕ) → Counts text tables.old (fault_in result) tables.new }
{
    let class = last_class(tables);
    let method = catalog::class_word(tables, class, layout::LATEST_AT);
    if catalog::shown_count(tables, class, layout::METHODS) <= method {
        return Ok(());
    }
    let word = catalog::member_word(tables, class, layout::METHODS, method);
    let body = catalog::body_word(tables, class, layout::METHODS, method);
    if 32 <= body % 64 {
        return Err(Fault::TooMany);
    }
    catalog::put_member(tables, class, layout::METHODS, method, word, body + 1);
    Ok(())
}

// Appends the place of a statement to the others.
fn put_statement(tables: &mut [u32], at: usize, size: usize)
    ensures { tables.new ≡ with_statement_at tables.old at size }
{
    let count = catalog::statement_count(tables);
    memory::put(
        tables,
        layout::STATEMENTS_AT + count as usize,
        catalog::part_word(at, size),
    );
    memory::put(tables, layout::STATEMENT_COUNT_AT, count + 1);
}

// Refuses a name that is taken, else an unknown class, else too many objects or values.
fn object_lowest(taken: bool, unknown: bool, many: bool) -> Result<(), Fault>
    ensures { fault_in result ≡ object_lowest taken unknown many }
{
    if taken {
        return Err(Fault::Repeated);
    }
    if unknown {
        return Err(Fault::Unknown);
    }
    if many {
        return Err(Fault::TooMany);
    }
    Ok(())
}

// The fault of an object with `values` values.
fn object_fault(
    text: &[u8],
    tables: &[u32],
    name: &[u8],
    class: &[u8],
    values: usize,
) -> Result<(), Fault>
    ensures { (vs : List ℕ) → length vs ≡ values → fault_in result ≡ object_fault (library_of text.now tables.now) name.now class.now vs }
{
    let objects = catalog::object_count(tables);
    let taken = catalog::object_number(text, tables, name) < objects;
    let number = catalog::class_number(text, tables, class);
    let known = number < catalog::class_count(tables);
    let fields = catalog::shown_count(tables, number, layout::FIELDS) as usize;
    object_lowest(taken, !known, (64 <= objects) | (fields < values))
}

// Appends an object to the others: its name's word, its class, and the part of the text with its values.
fn put_object(tables: &mut [u32], word: u32, class: u32, part: u32)
    ensures { tables.new ≡ with_object_words tables.old word class part }
{
    let object = catalog::object_count(tables);
    catalog::put_object_word(tables, object, layout::OBJECT_NAME_AT, word);
    catalog::put_object_word(tables, object, layout::OBJECT_CLASS_AT, class);
    catalog::put_object_word(tables, object, layout::OBJECT_LINE_AT, part);
    memory::put(tables, layout::OBJECT_COUNT_AT, object + 1);
}

// Records a statement line that lies within the text.
fn take_statement(text: &[u8], tables: &mut [u32], place: &Range<usize>) -> Result<(), Fault>
    requires { Lent text.now tables.old place.now.start place.now.end }
    ensures { StatementTook text.now tables.old place.now.start place.now.end (fault_in result) tables.new }
{
    let scope = Scope {
        text,
        tables,
        below: place.end + 1,
    };
    scope.words_fault(&text[place.start..place.end])?;
    count_statement(tables)?;
    put_statement(tables, place.start, place.end - place.start);
    Ok(())
}

// Records a statement line: counts the statement in its method and keeps its place.
pub fn statement_line(text: &[u8], tables: &mut [u32], at: usize, end: usize) -> Result<(), Fault>
    requires text_len_bound { length text.now ≤ 32768 }
    requires tables_len { length tables.old ≡ table_words }
    ensures { StatementTook text.now tables.old at end (fault_in result) tables.new }
{
    take_statement(text, tables, &read_classes::clip(text, at, end))
}

// Records an object line that lies within the text.
fn take_object(text: &[u8], tables: &mut [u32], place: &Range<usize>) -> Result<(), Fault>
    requires { Lent text.now tables.old place.now.start place.now.end }
    ensures { ObjectTook text.now tables.old place.now.start place.now.end (fault_in result) tables.new }
{
    let at = place.start;
    let line = &text[at..place.end];
    let first = text_lex::word_end(line, 0);
    let name_end = text_lex::word_end_after(line, first);
    let class_end = text_lex::word_end_after(line, name_end);
    let name = text_lex::word_after(line, first);
    let class = text_lex::word_after(line, name_end);
    object_fault(
        text,
        tables,
        name,
        class,
        read_parents::count(&line[class_end..]),
    )?;
    let number = catalog::class_number(text, tables, class);
    let word = catalog::name_word(0, at + first + 1, name.len());
    let part = catalog::part_word(at + class_end, line.len() - class_end);
    put_object(tables, word, number, part);
    Ok(())
}

// Records an object line.
pub fn object_line(text: &[u8], tables: &mut [u32], at: usize, end: usize) -> Result<(), Fault>
    requires text_len_bound { length text.now ≤ 32768 }
    requires tables_len { length tables.old ≡ table_words }
    ensures { ObjectTook text.now tables.old at end (fault_in result) tables.new }
{
    take_object(text, tables, &read_classes::clip(text, at, end))
}
