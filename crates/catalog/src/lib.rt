// The catalog: the tables of classes and objects, in the words that the caller lends, and the look-ups in them. The layout of the
// words is in specs/View.antt.
#![tactic(auto)]

pub mod body;

ghost use Rattle.std.specs.Prelude.{◌+◌, ◌*◌, ◌≤◌, ◌<◌, ◌≡◌, set, take, drop};
ghost use Rattle.layout.specs.Layout.{ancestors_at, domain_at, names_at, bodies_at, kind_words, commuting_at, class_words, object_class_at, object_values_at, object_words, classes_at, objects_at};
ghost use Rattle.model.specs.Base.{same, first_at};
ghost use Rattle.model.specs.Library.{member_place, class_number, is_class};
ghost use Rattle.catalog.specs.View.{name_of, part_of, class_word, object_word, class_count, statement_count, object_count, member_count, members_of, library_of};
ghost use Rattle.laws.specs.Bits.{bit};
ghost use Rattle.catalog.specs.Names.{name_word, part_word};
ghost use Rattle.catalog.specs.Rows.{with_member, with_count};
ghost use Rattle.catalog.specs.Look.{shown_count, first_named, Found};

const PART_UNIT: usize = layout::PART_UNIT as usize;

// A word of a class.
pub fn class_word(tables: &[u32], class: u32, place: u32) -> u32
    ensures { result ≡ class_word tables.now class place }
{
    memory::get(
        tables,
        layout::CLASSES_AT + (class as usize * layout::CLASS_WORDS + place as usize),
    )
}

pub fn put_class_word(tables: &mut [u32], class: u32, place: u32, value: u32)
    ensures { tables.new ≡ set tables.old (classes_at + (class * class_words + place)) value }
{
    let at = layout::CLASSES_AT + (class as usize * layout::CLASS_WORDS + place as usize);
    memory::put(tables, at, value);
}

// The ancestors of a class, bit d for class d.
pub fn ancestors(tables: &[u32], class: u32) -> u32
    ensures { result ≡ class_word tables.now class ancestors_at }
{
    class_word(tables, class, layout::ANCESTORS_AT)
}

// The domain of a class, bit d for class d.
pub fn domain(tables: &[u32], class: u32) -> u32
    ensures { result ≡ class_word tables.now class domain_at }
{
    class_word(tables, class, layout::DOMAIN_AT)
}

// The commuting mask of the method at a place of a class.
pub fn commuting_mask(tables: &[u32], class: u32, method: u32) -> u32
    ensures { result ≡ class_word tables.now class (commuting_at + method) }
{
    let place = layout::COMMUTING_AT as usize + method as usize;
    memory::get(
        tables,
        layout::CLASSES_AT + (class as usize * layout::CLASS_WORDS + place),
    )
}

// A word of an object.
pub fn object_word(tables: &[u32], object: u32, place: u32) -> u32
    ensures { result ≡ object_word tables.now object place }
{
    memory::get(
        tables,
        layout::OBJECTS_AT + (object as usize * layout::OBJECT_WORDS + place as usize),
    )
}

pub fn put_object_word(tables: &mut [u32], object: u32, place: u32, value: u32)
    ensures { tables.new ≡ set tables.old (objects_at + (object * object_words + place)) value }
{
    let at = layout::OBJECTS_AT + (object as usize * layout::OBJECT_WORDS + place as usize);
    memory::put(tables, at, value);
}

// The class of an object.
pub fn class_of(tables: &[u32], object: u32) -> u32
    ensures { result ≡ object_word tables.now object object_class_at }
{
    object_word(tables, object, layout::OBJECT_CLASS_AT)
}

// Where the values of an object begin.
pub fn values_of(tables: &[u32], object: u32) -> u32
    ensures { result ≡ object_word tables.now object object_values_at }
{
    object_word(tables, object, layout::OBJECT_VALUES_AT)
}

// A part of the text; what lies past the end of the text is left out.
pub fn part(text: &[u8], at: usize, size: usize) -> &[u8]
    ensures { result.now ≡ take size (drop at text.now) }
{
    if text.len() <= at {
        return &text[..0];
    }
    if text.len() - at <= size {
        return &text[at..];
    }
    let end = at + size;
    &text[at..end]
}

// The name that a name's word stands for.
pub fn name_of(text: &[u8], word: u32) -> &[u8]
    ensures { result.now ≡ name_of text.now word }
{
    part(text, (word / 32 % 32768) as usize, (word % 32) as usize)
}

// Whether the name's word stands for that name.
pub fn is_named(text: &[u8], word: u32, name: &[u8]) -> bool
    ensures { result ≡ same (name_of text.now word) name.now }
{
    text_lex::same(name_of(text, word), name)
}

// The part of the text that a part's word stands for.
pub fn part_of(text: &[u8], word: u32) -> &[u8]
    ensures { result.now ≡ part_of text.now word }
{
    part(
        text,
        (word / layout::PART_UNIT) as usize,
        (word % layout::PART_UNIT) as usize,
    )
}

// The word of a name of a class, or of an object's name where the class is 0.
pub fn name_word(class: u32, place: usize, size: usize) -> u32
    ensures { result ≡ name_word class place size }
{
    class % 4096 * layout::ORIGIN_UNIT + ((place % 32768) as u32 * 32 + (size % 32) as u32)
}

// The word of a part of the text.
pub fn part_word(place: usize, size: usize) -> u32
    ensures { result ≡ part_word place size }
{
    (place % PART_UNIT) as u32 * layout::PART_UNIT + (size % PART_UNIT) as u32
}

// Whether the mask has the bit; no mask has a bit past its 32.
pub fn has_bit(mask: u32, place: u32) -> bool
    ensures { result ≡ bit mask place }
{
    if place < 32 {
        (mask >> place) % 2 == 1
    } else {
        false
    }
}

// The number of classes in the tables.
pub fn class_count(tables: &[u32]) -> u32
    ensures { result ≡ class_count tables.now }
{
    memory::get(tables, layout::CLASS_COUNT_AT).min(layout::CLASSES)
}

pub fn statement_count(tables: &[u32]) -> u32
    ensures { result ≡ statement_count tables.now }
{
    memory::get(tables, layout::STATEMENT_COUNT_AT).min(layout::STATEMENTS)
}

pub fn object_count(tables: &[u32]) -> u32
    ensures { result ≡ object_count tables.now }
{
    memory::get(tables, layout::OBJECT_COUNT_AT).min(layout::OBJECTS)
}

// The number of fields (kind 0) or methods (kind 1) of a class.
pub fn member_count(tables: &[u32], class: u32, kind: u32) -> u32
    ensures { result ≡ member_count tables.now class kind }
{
    let count = memory::get(
        tables,
        layout::CLASSES_AT
            + (class as usize * layout::CLASS_WORDS + (layout::MEMBER_COUNTS_AT + kind as usize)),
    );
    count.min(layout::MEMBERS)
}

// The number of fields or methods of the class with a number; 0 where there is no such class.
pub fn shown_count(tables: &[u32], class: u32, kind: u32) -> u32
    ensures { result ≡ shown_count tables.now class kind }
{
    if class < class_count(tables) {
        member_count(tables, class, kind)
    } else {
        0
    }
}

// The place of a member's word in one of a row's two parts: names or bodies.
fn member_place(class: u32, kind: u32, part: u32, member: u32) -> usize
    ensures { result ≡ classes_at + (class * class_words + (part + (kind * kind_words + member))) }
{
    layout::CLASSES_AT
        + (class as usize * layout::CLASS_WORDS
            + (part as usize + (kind as usize * layout::KIND_WORDS + member as usize)))
}

fn row_word(tables: &[u32], class: u32, kind: u32, part: u32, member: u32) -> u32
    ensures { result ≡ class_word tables.now class (part + (kind * kind_words + member)) }
{
    memory::get(tables, member_place(class, kind, part, member))
}

// The word of a member's name.
pub fn member_word(tables: &[u32], class: u32, kind: u32, member: u32) -> u32
    ensures { result ≡ class_word tables.now class (names_at + (kind * kind_words + member)) }
{
    row_word(tables, class, kind, layout::NAMES_AT, member)
}

// The word of a member's body.
pub fn body_word(tables: &[u32], class: u32, kind: u32, member: u32) -> u32
    ensures { result ≡ class_word tables.now class (bodies_at + (kind * kind_words + member)) }
{
    row_word(tables, class, kind, layout::BODIES_AT, member)
}

// Sets both words of a member.
pub fn put_member(tables: &mut [u32], class: u32, kind: u32, member: u32, word: u32, body: u32)
    ensures { tables.new ≡ with_member tables.old class kind member word body }
{
    memory::put(
        tables,
        member_place(class, kind, layout::NAMES_AT, member),
        word,
    );
    memory::put(
        tables,
        member_place(class, kind, layout::BODIES_AT, member),
        body,
    );
}

pub fn put_member_count(tables: &mut [u32], class: u32, kind: u32, count: u32)
    ensures { tables.new ≡ with_count tables.old class kind count }
{
    let place = layout::MEMBER_COUNTS_AT + kind as usize;
    let at = layout::CLASSES_AT + (class as usize * layout::CLASS_WORDS + place);
    memory::put(tables, at, count);
}

// The place of the first of `count` names that equals the name; None where none does. Their words stand `step` places apart, the first
// at `from`.
fn first_named(
    text: &[u8],
    tables: &[u32],
    from: usize,
    step: usize,
    count: u32,
    name: &[u8],
) -> Option<u32>
    requires { (from < 17592186044416) × (step ≤ class_words) }
    ensures { Found result (first_named text.now tables.now from step count name.now) count }
{
    let mut place = from;
    for i in 0..count {
        if is_named(text, memory::get(tables, place), name) {
            return Some(i);
        }
        place += step;
    }
    None
}

// The place of the first member of that name among a class's fields or methods; None where there is none.
pub fn find(text: &[u8], tables: &[u32], class: u32, kind: u32, name: &[u8]) -> Option<u32>
    ensures { Found result (member_place (members_of text.now tables.now class kind) name.now) (member_count tables.now class kind) }
{
    let count = member_count(tables, class, kind);
    let from = member_place(class, kind, layout::NAMES_AT, 0);
    first_named(text, tables, from, 1, count, name)
}

// The number of the first class of that name; where there is none, the number of classes, as the definition `class_number` has it.
pub fn class_number(text: &[u8], tables: &[u32], name: &[u8]) -> u32
    ensures { result ≡ class_number (library_of text.now tables.now) name.now }
{
    let count = class_count(tables);
    let found = first_named(
        text,
        tables,
        layout::CLASSES_AT,
        layout::CLASS_WORDS,
        count,
        name,
    );
    found.unwrap_or(count)
}

// Whether there is a class of that name.
pub fn is_class(text: &[u8], tables: &[u32], name: &[u8]) -> bool
    ensures { result ≡ is_class (library_of text.now tables.now) name.now }
{
    class_number(text, tables, name) < class_count(tables)
}

// The number of the first object of that name; where there is none, the number of objects, as the definition `first_at` has it.
pub fn object_number(text: &[u8], tables: &[u32], name: &[u8]) -> u32
    ensures { result ≡ first_at (λ o. same o.name name.now) (library_of text.now tables.now).objects }
{
    let count = object_count(tables);
    let found = first_named(
        text,
        tables,
        layout::OBJECTS_AT,
        layout::OBJECT_WORDS,
        count,
        name,
    );
    found.unwrap_or(count)
}
