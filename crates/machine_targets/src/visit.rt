// The objects that a message visits: one, those of a class, or those of a domain, in text order.
ghost use Rattle.std.specs.Prelude.{◌-◌, ◌≡◌, eqb};
ghost use Rattle.machine_words.specs.Turn.{target_there, in_target, first_from, object_from};

// Whether the target of that kind and number exists: an object, or a class.
pub fn target_there(tables: &[u32], kind: u32, number: u32) -> bool
    ensures { result ≡ target_there tables.now kind number }
{
    if kind == layout::OBJECT_KIND {
        return number < catalog::object_count(tables);
    }
    (kind <= layout::DOMAIN_KIND) & (number < catalog::class_count(tables))
}

// Whether the object is one of those that a message to a target of that kind and number visits. One whose class does not exist
// counts too, and fits no turn.
fn in_target(tables: &[u32], kind: u32, number: u32, object: u32) -> bool
    ensures { result ≡ in_target tables.now kind number object }
{
    if kind == layout::OBJECT_KIND {
        return object == number;
    }
    let class = catalog::class_of(tables, object);
    if catalog::class_count(tables) <= class {
        return true;
    }
    if kind == layout::CLASS_KIND {
        return class == number;
    }
    catalog::has_bit(catalog::domain(tables, number), class)
}

// The number itself, if it is one of those from `from` up to `end`; else the greater of `end` and `from`.
fn one_from(number: u32, from: u32, end: u32) -> u32
    ensures { result ≡ first_from (λ o. eqb o number) from (end - from) }
{
    if from <= number && number < end {
        number
    } else {
        end.max(from)
    }
}

// The first object to visit from a number on, testing each.
fn object_among(tables: &[u32], kind: u32, number: u32, from: u32) -> u32
    ensures { result ≡ object_from tables.now kind number from }
{
    let count = catalog::object_count(tables);
    for object in from..count {
        if in_target(tables, kind, number, object) {
            return object;
        }
    }
    count.max(from)
}

// The first object to visit from a number on; where there is none, the number of objects, or `from` where that is greater: a row keeps
// it as the place past the last (`past_row`). A message to one object looks at no other.
pub fn object_from(tables: &[u32], kind: u32, number: u32, from: u32) -> u32
    ensures { result ≡ object_from tables.now kind number from }
{
    if kind == layout::OBJECT_KIND {
        return one_from(number, from, catalog::object_count(tables));
    }
    object_among(tables, kind, number, from)
}
