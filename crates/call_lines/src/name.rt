// Names of a call line looked up in the lent state.
ghost use Rattle.std.specs.Prelude.{◌≡◌, MatchOption};
ghost use Rattle.model.specs.Library.{class_number};
ghost use Rattle.model.specs.Rehearsal.{class_of_number};
ghost use Rattle.machine_words.specs.Calls.{tables_of};
ghost use Rattle.call_lines.specs.Lent.{lent_library};
ghost use Rattle.call_lines.specs.Names.{method_named, object_named, NoForm, Finds};

use machine_words::Target;

// Whom a send goes to: the target by its number, and the class whose methods it has.
#[derive(Clone, Copy)]
pub struct Receiver {
    pub target: Target,
    pub class: u32,
}

// The tables of the lent state; all of it where it is shorter.
pub(crate) fn tables_of(state: &[u32]) -> &[u32]
    ensures { result.now ≡ tables_of state.now }
{
    &state[..state.len().min(layout::TABLE_WORDS)]
}

// The number of the class of that name; where there is none, the number of classes, for which a send is refused.
pub(crate) fn class_named(text: &[u8], state: &[u32], name: &[u8]) -> u32
    ensures { result ≡ class_number (lent_library text.now state.now) name.now }
{
    catalog::class_number(text, tables_of(state), name)
}

// The number of the object of that name; where there is none, the number of objects, for which a send is refused.
pub(crate) fn object_named(text: &[u8], state: &[u32], name: &[u8]) -> u32
    ensures { result ≡ object_named text.now state.now name.now }
{
    catalog::object_number(text, tables_of(state), name)
}

// The class of the object with a number; the number of classes where there is no such object. A count stands for none, since the
// look-up may not refuse: the send tests for 31, 37 and 34 before it gives 36 (`request_for` in specs/Rehearsal.antt of `model`).
pub(crate) fn class_of_number(text: &[u8], state: &[u32], object: u32) -> u32
    ensures { result ≡ class_of_number (lent_library text.now state.now) object }
{
    let tables = tables_of(state);
    if object < catalog::object_count(tables) {
        catalog::class_of(tables, object)
    } else {
        catalog::class_count(tables)
    }
}

// The place of a class's method of that name; where there is none the number of its methods, 0 where there is no such class, for
// which a send is refused: a count, as in `class_of_number`.
pub(crate) fn method_named(text: &[u8], state: &[u32], class: u32, name: &[u8]) -> u32
    ensures { result ≡ method_named text.now state.now class name.now }
{
    let tables = tables_of(state);
    if class < catalog::class_count(tables) {
        let methods = catalog::member_count(tables, class, layout::METHODS);
        catalog::find(text, tables, class, layout::METHODS, name).unwrap_or(methods)
    } else {
        0
    }
}

// Whom the keyword of a send and a name say: by `send` the object of that name, by `all` the own objects of the class of that name,
// by `tree` the domain of that class.
pub(crate) fn receiver_named(
    text: &[u8],
    state: &[u32],
    keyword: &[u8],
    name: &[u8],
) -> Option<Receiver>
    ensures { MatchOption result (NoForm keyword.now name.now) (Finds text.now state.now keyword.now name.now) }
{
    if text_lex::same(keyword, b"send") {
        let object = object_named(text, state, name);
        let class = class_of_number(text, state, object);
        return Some(Receiver {
            target: Target::Object(object),
            class,
        });
    }
    if text_lex::same(keyword, b"all") {
        let class = class_named(text, state, name);
        return Some(Receiver {
            target: Target::Class(class),
            class,
        });
    }
    if text_lex::same(keyword, b"tree") {
        let class = class_named(text, state, name);
        return Some(Receiver {
            target: Target::Domain(class),
            class,
        });
    }
    None
}
