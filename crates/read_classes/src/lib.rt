// The lines of a class in the second pass: class, field and method lines. A line function records the line, or answers its fault.
// A line is given by two places; what lies past the end of the text is left out.
#![tactic(auto)]

ghost use Rattle.std.specs.Prelude.{ℕ, min, ◌≤◌, ◌<◌, ◌≡◌, ◌||◌, List, length, eqb, is_err, IsOkUnless};
ghost use Rattle.layout.specs.Layout.{table_words};
ghost use Rattle.model.specs.Library.{among, class_at, above};
ghost use Rattle.text_lex.specs.Piece.{words_after};
ghost use Rattle.laws.specs.Bits.{bit};
ghost use Rattle.catalog.specs.View.{member_count, members_of, library_of};
ghost use Rattle.refusals.specs.Numbers.{fault_in};
ghost use Rattle.read_classes.specs.Took.{Lent, ClassTook, FieldTook, MethodTook};
ghost use Rattle.read_classes.specs.Lines.{line_of, line_word};
ghost use Rattle.read_classes.specs.Joins.{Room, Making, Appended, MemberJoined, ClassJoined, ParentsJoined};
ghost use Rattle.read_classes.specs.Made.{Free, begun, ClassMade, ClassAdded, FieldAdded, MethodReplaced, MethodAppended, MethodAdded};

use refusals::Fault;
use std::ops::Range;

// Appends a member to the others of its kind, where there is room.
fn append(tables: &mut [u32], class: u32, kind: u32, word: u32, body: u32) -> Result<(), Fault>
    requires { Room tables.old class kind }
    ensures row { (text : List ℕ) → Appended text tables.old class kind word body (is_err result) tables.new }
    ensures fault { IsOkUnless result Fault.TooMany }
{
    let count = catalog::member_count(tables, class, kind);
    if 32 <= count {
        return Err(Fault::TooMany);
    }
    catalog::put_member(tables, class, kind, count, word, body);
    catalog::put_member_count(tables, class, kind, count + 1);
    Ok(())
}

// Whether a class has a field or a method of that name.
pub fn has_member(text: &[u8], tables: &[u32], class: u32, kind: u32, name: &[u8]) -> bool
    ensures { result ≡ among (members_of text.now tables.now class kind) name.now }
{
    catalog::find(text, tables, class, kind, name).is_some()
}

// Adds a member to those of its kind, unless there is one of its name.
fn add_member(
    text: &[u8],
    tables: &mut [u32],
    class: u32,
    kind: u32,
    word: u32,
    body: u32,
) -> Result<(), Fault>
    requires { Room tables.old class kind }
    ensures row { MemberJoined text.now tables.old class kind word body (is_err result) tables.new }
    ensures fault { IsOkUnless result Fault.TooMany }
{
    let name = catalog::name_of(text, word);
    if has_member(text, tables, class, kind, name) {
        return Ok(());
    }
    append(tables, class, kind, word, body)
}

// Adds a parent's members of one kind to those of the class being made.
fn join(text: &[u8], tables: &mut [u32], class: u32, kind: u32, parent: u32) -> Result<(), Fault>
    requires { Making tables.old class kind }
    ensures row { ClassJoined text.now tables.old class kind parent (is_err result) tables.new }
    ensures fault { IsOkUnless result Fault.TooMany }
{
    let count = catalog::shown_count(tables, parent, kind);
    for j in 0..count {
        let word = catalog::member_word(tables, parent, kind, j);
        let body = catalog::body_word(tables, parent, kind, j);
        add_member(text, tables, class, kind, word, body)?;
    }
    Ok(())
}

// Adds all parents' members of one kind to those of the class being made.
fn inherit(
    text: &[u8],
    tables: &mut [u32],
    class: u32,
    kind: u32,
    parents: &[u8],
) -> Result<(), Fault>
    requires { Making tables.old class kind }
    ensures row { ParentsJoined text.now tables.old class kind (words_after parents.now) (is_err result) tables.new }
    ensures fault { IsOkUnless result Fault.TooMany }
{
    for name in text_lex::words_after(parents, 0) {
        let parent = catalog::class_number(text, tables, name);
        join(text, tables, class, kind, parent)?;
    }
    Ok(())
}

// The mask of a class and its ancestors; of the number alone where there is no such class.
fn with_ancestors(tables: &[u32], class: u32) -> u32
    requires { class < 32 }
    ensures { (text : List ℕ) (d : ℕ) → bit result d ≡ (eqb class d || (class_at (library_of text tables.now) class).ancestors d) }
{
    let own = 1 << class;
    if class < catalog::class_count(tables) {
        own | catalog::ancestors(tables, class)
    } else {
        own
    }
}

// The mask of the classes named and their ancestors.
fn ancestors(text: &[u8], tables: &[u32], names: &[u8]) -> u32
    ensures { (d : ℕ) → bit result d ≡ above (library_of text.now tables.now) (words_after names.now) d }
{
    let mut mask = 0;
    for name in text_lex::words_after(names, 0) {
        mask |= with_ancestors(tables, catalog::class_number(text, tables, name));
    }
    mask
}

// Begins a class: sets its name and its ancestors, without members.
fn begin_class(tables: &mut [u32], class: u32, word: u32, mask: u32)
    ensures { tables.new ≡ begun tables.old class word mask }
{
    catalog::put_class_word(tables, class, layout::CLASS_NAME_AT, word);
    catalog::put_class_word(tables, class, layout::FIELD_COUNT_AT, 0);
    catalog::put_class_word(tables, class, layout::METHOD_COUNT_AT, 0);
    catalog::put_class_word(tables, class, layout::ANCESTORS_AT, mask);
    catalog::put_class_word(tables, class, layout::LATEST_AT, 0);
}

// Makes and counts a class of that name with those parents; refuses too many members.
fn make_class(text: &[u8], tables: &mut [u32], word: u32, names: &[u8]) -> Result<(), Fault>
    requires { Free tables.old }
    ensures { ClassMade text.now tables.old word (words_after names.now) (fault_in result) tables.new }
{
    let class = catalog::class_count(tables);
    let mask = ancestors(text, tables, names);
    begin_class(tables, class, word, mask);
    inherit(text, tables, class, layout::FIELDS, names)?;
    inherit(text, tables, class, layout::METHODS, names)?;
    memory::put(tables, layout::CLASS_COUNT_AT, class + 1);
    Ok(())
}

// Adds a class, by its name's word and its parents, unless it has a fault.
fn add_class(text: &[u8], tables: &mut [u32], word: u32, parents: &[u8]) -> Result<(), Fault>
    requires { length tables.old ≡ table_words }
    ensures { ClassAdded text.now tables.old word (words_after parents.now) (fault_in result) tables.new }
{
    read_parents::parent_fault(text, tables, catalog::name_of(text, word), parents)?;
    if (16 <= catalog::class_count(tables)) | (4 < read_parents::count(parents)) {
        return Err(Fault::TooMany);
    }
    make_class(text, tables, word, parents)
}

// The part within the text of the line from `at` to `end`.
pub fn clip(text: &[u8], at: usize, end: usize) -> Range<usize>
    ensures end { result.end ≡ min end (length text.now) }
    ensures start { result.start ≡ min at result.end }
{
    let stop = end.min(text.len());
    at.min(stop)..stop
}

// The word, for a class, of the name after the first word of a line.
fn name_behind(text: &[u8], place: &Range<usize>, class: u32) -> u32
    requires at_le_end { place.now.start ≤ place.now.end }
    requires end_in_bounds { place.now.end ≤ length text.now }
    ensures { result ≡ line_word text.now place.now.start place.now.end class }
{
    let line = &text[place.start..place.end];
    let from = text_lex::word_end(line, 0);
    let size = text_lex::word_after(line, from).len();
    catalog::name_word(class, place.start + from + 1, size)
}

// Records a class line that lies within the text.
fn take_class(text: &[u8], tables: &mut [u32], place: &Range<usize>) -> Result<(), Fault>
    requires { Lent text.now tables.old place.now.start place.now.end }
    ensures { ClassTook text.now tables.old (line_of text.now place.now.start place.now.end) (fault_in result) tables.new }
{
    let word = name_behind(text, place, 0);
    let line = &text[place.start..place.end];
    let name_end = text_lex::word_end_after(line, text_lex::word_end(line, 0));
    let behind = text_lex::word_end_after(line, name_end);
    add_class(text, tables, word, &line[behind..])
}

// Records a class line.
pub fn class_line(text: &[u8], tables: &mut [u32], at: usize, end: usize) -> Result<(), Fault>
    requires text_len_bound { length text.now ≤ 32768 }
    requires tables_len { length tables.old ≡ table_words }
    ensures { ClassTook text.now tables.old (line_of text.now at end) (fault_in result) tables.new }
{
    take_class(text, tables, &clip(text, at, end))
}

// Adds a field to a class by its name's word; refuses a name that the class has.
fn add_field(text: &[u8], tables: &mut [u32], class: u32, word: u32) -> Result<(), Fault>
    requires { Room tables.old class 0 }
    ensures { FieldAdded text.now tables.old class word (fault_in result) tables.new }
{
    let name = catalog::name_of(text, word);
    if has_member(text, tables, class, layout::FIELDS, name) {
        return Err(Fault::Repeated);
    }
    append(tables, class, layout::FIELDS, word, 0)
}

// Sets the method at a place, that of its name; refuses one that the class itself already defines.
fn replace_method(tables: &mut [u32], class: u32, word: u32, place: u32) -> Result<(), Fault>
    requires room { Room tables.old class 1 }
    requires place_in { place < member_count tables.old class 1 }
    ensures { (text : List ℕ) → MethodReplaced text tables.old class word place (fault_in result) tables.new }
{
    if catalog::member_word(tables, class, layout::METHODS, place) / layout::ORIGIN_UNIT == class {
        return Err(Fault::Repeated);
    }
    let body = catalog::statement_count(tables) * 64;
    catalog::put_member(tables, class, layout::METHODS, place, word, body);
    catalog::put_class_word(tables, class, layout::LATEST_AT, place);
    Ok(())
}

// Appends a method whose name the class does not have.
fn append_method(tables: &mut [u32], class: u32, word: u32) -> Result<(), Fault>
    requires { Room tables.old class 1 }
    ensures { (text : List ℕ) → MethodAppended text tables.old class word (fault_in result) tables.new }
{
    let place = catalog::member_count(tables, class, layout::METHODS);
    let body = catalog::statement_count(tables) * 64;
    append(tables, class, layout::METHODS, word, body)?;
    catalog::put_class_word(tables, class, layout::LATEST_AT, place);
    Ok(())
}

// Defines a method in a class by its name's word; refuses one that the class already defines.
fn add_method(text: &[u8], tables: &mut [u32], class: u32, word: u32) -> Result<(), Fault>
    requires { Room tables.old class 1 }
    ensures { MethodAdded text.now tables.old class word (fault_in result) tables.new }
{
    let name = catalog::name_of(text, word);
    match catalog::find(text, tables, class, layout::METHODS, name) {
        Some(place) => replace_method(tables, class, word, place),
        None => append_method(tables, class, word),
    }
}

// Records a field line that lies within the text.
fn take_field(text: &[u8], tables: &mut [u32], place: &Range<usize>) -> Result<(), Fault>
    requires { Lent text.now tables.old place.now.start place.now.end }
    ensures { FieldTook text.now tables.old (line_of text.now place.now.start place.now.end) (fault_in result) tables.new }
{
    let count = catalog::class_count(tables);
    if count == 0 {
        return Ok(());
    }
    let class = count - 1;
    add_field(text, tables, class, name_behind(text, place, class))
}

// Records a field line in the last class. Does nothing where there is no class.
pub fn field_line(text: &[u8], tables: &mut [u32], at: usize, end: usize) -> Result<(), Fault>
    requires text_len_bound { length text.now ≤ 32768 }
    requires tables_len { length tables.old ≡ table_words }
    ensures { FieldTook text.now tables.old (line_of text.now at end) (fault_in result) tables.new }
{
    take_field(text, tables, &clip(text, at, end))
}

// Records a method line that lies within the text. It is `take_field` with another function, which as a parameter would need a
// clause longer than the body.
fn take_method(text: &[u8], tables: &mut [u32], place: &Range<usize>) -> Result<(), Fault>
    requires { Lent text.now tables.old place.now.start place.now.end }
    ensures { MethodTook text.now tables.old (line_of text.now place.now.start place.now.end) (fault_in result) tables.new }
{
    let count = catalog::class_count(tables);
    if count == 0 {
        return Ok(());
    }
    let class = count - 1;
    add_method(text, tables, class, name_behind(text, place, class))
}

// Records a method line in the last class. Does nothing where there is no class.
pub fn method_line(text: &[u8], tables: &mut [u32], at: usize, end: usize) -> Result<(), Fault>
    requires text_len_bound { length text.now ≤ 32768 }
    requires tables_len { length tables.old ≡ table_words }
    ensures { MethodTook text.now tables.old (line_of text.now at end) (fault_in result) tables.new }
{
    take_method(text, tables, &clip(text, at, end))
}
