// Look-up of the body that a class runs for a method.
ghost use Rattle.std.specs.Prelude.{ℕ, ◌≡◌, List, Some};
ghost use Rattle.model.specs.Library.{member_place};
ghost use Rattle.catalog.specs.View.{member_count, member_at, members_of};
ghost use Rattle.catalog.specs.Look.{Found};
ghost use Rattle.catalog.specs.Bodies.{body_in, named_at, body_at, Bounds, bounds_of, origin_at};

// The statements of a body: its first, and the one past its last.
#[derive(Clone, Copy)]
pub struct Statements {
    pub first: u32,
    pub end: u32,
}

// The class that defines the method at a place of a class; the number of classes where there is no method there.
fn origin_at(tables: &[u32], class: u32, place: u32) -> u32
    ensures { result ≡ origin_at tables.now class place }
{
    if place < super::shown_count(tables, class, layout::METHODS) {
        super::member_word(tables, class, layout::METHODS, place) / layout::ORIGIN_UNIT
    } else {
        super::class_count(tables)
    }
}

// The place of the method in the class that defines it, which is `found` where that is the class itself.
fn place_in(
    text: &[u8],
    tables: &[u32],
    class: u32,
    found: u32,
    origin: u32,
    name: &[u8],
) -> Option<u32>
    requires { Found (Some found) (member_place (members_of text.now tables.now class 1) name.now) (member_count tables.now class 1) }
    ensures { Found result (member_place (members_of text.now tables.now origin 1) name.now) (member_count tables.now origin 1) }
{
    if origin == class {
        return Some(found);
    }
    super::find(text, tables, origin, layout::METHODS, name)
}

// The body of the method at a place of a class, by its word.
pub fn body_of(tables: &[u32], class: u32, place: u32) -> Statements
    ensures { (text : List ℕ) → Bounds (member_at text tables.now class 1 place) result.first result.end }
{
    let word = super::body_word(tables, class, layout::METHODS, place);
    Statements {
        first: word / 64,
        end: word / 64 + word % 64,
    }
}

// The body of a class's method of that name; None where there is none.
pub fn body_in(text: &[u8], tables: &[u32], class: u32, name: &[u8]) -> Option<Statements>
    ensures { result ≡ bounds_of (body_in text.now tables.now class name.now) }
{
    let found = super::find(text, tables, class, layout::METHODS, name)?;
    let origin = origin_at(tables, class, found);
    let place = place_in(text, tables, class, found, origin, name)?;
    if place < super::shown_count(tables, origin, layout::METHODS) {
        Some(body_of(tables, origin, place))
    } else {
        None
    }
}

// Whether the class exists and has a method at that place with that name's word.
pub fn named_at(tables: &[u32], class: u32, place: u32, name: u32) -> bool
    ensures { result ≡ named_at tables.now class place name }
{
    if super::shown_count(tables, class, layout::METHODS) <= place {
        return false;
    }
    super::member_word(tables, class, layout::METHODS, place) % layout::ORIGIN_UNIT == name
}

// The body of a class's method by its name's word: found at the place if the class has that name there, else by its name.
pub fn body_at(text: &[u8], tables: &[u32], class: u32, place: u32, name: u32) -> Option<Statements>
    ensures { result ≡ bounds_of (body_at text.now tables.now class place name) }
{
    if named_at(tables, class, place, name) {
        Some(body_of(tables, class, place))
    } else {
        body_in(text, tables, class, super::name_of(text, name))
    }
}
