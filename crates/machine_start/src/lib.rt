// What a start works out from the tables of an accepted text: the masks of its methods, each class's domain, where each
// object's values begin, and the words that tell whether what a later call is lent fits; and the state that it leaves.
#![tactic(auto)]

ghost use Rattle.std.specs.Prelude.{◌%◌, ◌≤◌, ◌≡◌, ◌++◌, length, take, drop, replicate};
ghost use Rattle.layout.specs.Layout.{table_words, slots_words, state_words};
ghost use Rattle.catalog.specs.View.{class_count, object_count};
ghost use Rattle.machine_start.specs.Worked.{belongs, domain_mask, with_domains, first_value, with_places, with_counts, with_header};
ghost use Rattle.machine_start.specs.Started.{Fill};

// Whether the other class is in the domain of the class: it is the class, or has it among its ancestors.
fn belongs(tables: &[u32], class: u32, other: u32) -> bool
    ensures { result ≡ belongs tables.now class other }
{
    if other == class {
        return true;
    }
    catalog::has_bit(catalog::ancestors(tables, other), class)
}

// The mask of the classes in the domain of a class.
fn domain_mask(tables: &[u32], class: u32) -> u32
    ensures { result ≡ domain_mask tables.now class }
{
    let count = catalog::class_count(tables);
    let mut mask = 0;
    for other in 0..count {
        mask = vector_direct::with_bit(mask, other, belongs(tables, class, other));
    }
    mask
}

// Stores the domain of every class.
fn fill_domains(tables: &mut [u32])
    ensures { tables.new ≡ with_domains tables.old (class_count tables.old) }
{
    let count = catalog::class_count(tables);
    for class in 0..count {
        let mask = domain_mask(tables, class);
        catalog::put_class_word(tables, class, layout::DOMAIN_AT, mask);
    }
}

// Stores the place of every object's first value, and answers the number of values.
fn fill_places(tables: &mut [u32]) -> u32
    ensures { (tables.new ≡ with_places tables.old (object_count tables.old))
        × (result ≡ first_value tables.old (object_count tables.old)) }
{
    let count = catalog::object_count(tables);
    let mut values = 0;
    for object in 0..count {
        let fields = catalog::shown_count(
            tables,
            catalog::class_of(tables, object),
            layout::FIELDS,
        );
        catalog::put_object_word(tables, object, layout::OBJECT_VALUES_AT, values);
        values += fields;
    }
    values
}

// Writes the counts of classes, statements and objects again, as far as there is room: what later calls test first.
fn put_counts(tables: &mut [u32])
    ensures { tables.new ≡ with_counts tables.old }
{
    let classes = catalog::class_count(tables);
    memory::put(tables, layout::CLASS_COUNT_AT, classes);
    let statements = catalog::statement_count(tables);
    memory::put(tables, layout::STATEMENT_COUNT_AT, statements);
    let objects = catalog::object_count(tables);
    memory::put(tables, layout::OBJECT_COUNT_AT, objects);
}

// Stores what later calls must be lent, the number of values and the text's length, and the mark.
fn put_header(tables: &mut [u32], values: u32, size: usize)
    ensures { tables.new ≡ with_header tables.old values (size % 65536) }
{
    memory::put(tables, layout::VALUE_COUNT_AT, values);
    memory::put(tables, layout::TEXT_LENGTH_AT, (size % 65536) as u32);
    memory::put(tables, layout::START_MARK_AT, layout::START_MARK);
}

// Fills the tables of an accepted text with what a start works out.
pub fn fill(text: &[u8], tables: &mut [u32])
    requires { length tables.old ≡ table_words }
    ensures { Fill text.now tables.old tables.new }
{
    vector_compiler::fill::fill_vectors(text, tables);
    fill_domains(tables);
    let values = fill_places(tables);
    put_counts(tables);
    put_header(tables, values, text.len());
}

// Lays the tables over the state's first words.
fn lay_tables(tables: &[u32], state: &mut [u32])
    requires { (length tables.now ≡ table_words) × (table_words ≤ length state.old) }
    ensures { state.new ≡ tables.now ++ drop table_words state.old }
{
    state[..layout::TABLE_WORDS].copy_from_slice(tables);
}

// Closes the eight slots and empties the line: clears all words of the rows and of the line.
fn close_slots(state: &mut [u32])
    requires { state_words ≤ length state.old }
    ensures { state.new ≡ take table_words state.old ++ (replicate slots_words 0 ++ drop state_words state.old) }
{
    let end = layout::TABLE_WORDS + layout::SLOTS_WORDS;
    state[layout::TABLE_WORDS..end].fill(0);
}

// Lays filled tables into the state, closes its eight slots and empties the line; what lies past the machine's words stays.
pub fn install(tables: &[u32], state: &mut [u32])
    requires { (length tables.now ≡ table_words) × (state_words ≤ length state.old) }
    ensures { state.new ≡ tables.now ++ (replicate slots_words 0 ++ drop state_words state.old) }
{
    lay_tables(tables, state);
    close_slots(state);
}
