// The layout of the state's words, stated once: sizes first, and places derived from them. specs/Layout.antt has the same names
// for definitions. A place within a class, an object or an activation is a u32, since it is added to a number of the tables.
#![tactic(auto)]

ghost use Rattle.std.specs.Prelude.{◌≡◌};
ghost use Rattle.layout.specs.Layout.{state_words, values_most};

// ---- limits

pub const CLASSES: u32 = 16;

pub const MEMBERS: u32 = 32;

pub const STATEMENTS: u32 = 4096;

pub const OBJECTS: u32 = 64;

pub const VALUES: usize = 2048;

pub const SLOTS: u32 = 8;

pub const ACTIVATIONS: u32 = 8;

// ---- what words mean

// The mark that a start leaves.
pub const START_MARK: u32 = 1128352845;

// A name's word is origin * ORIGIN_UNIT + place * 32 + length; a part's word is place * PART_UNIT + length.
pub const ORIGIN_UNIT: u32 = 1048576;

pub const PART_UNIT: u32 = 65536;

// The kinds of a class's members.
pub const FIELDS: u32 = 0;

pub const METHODS: u32 = 1;

// The kinds of a send's target.
pub const OBJECT_KIND: u32 = 0;

pub const CLASS_KIND: u32 = 1;

pub const DOMAIN_KIND: u32 = 2;

// A slot's phase: closed, open, with a message running, waiting with a send.
pub const CLOSED: u32 = 0;

pub const IDLE: u32 = 1;

pub const RUNNING: u32 = 2;

pub const WAITING: u32 = 3;

// ---- the tables' head: how many classes, statements, objects and values, the text's length, the mark of a start; two words spare

pub const CLASS_COUNT_AT: usize = 0;

pub const STATEMENT_COUNT_AT: usize = 1;

pub const OBJECT_COUNT_AT: usize = 2;

pub const VALUE_COUNT_AT: usize = 3;

pub const TEXT_LENGTH_AT: usize = 4;

pub const START_MARK_AT: usize = 5;

pub const HEAD_WORDS: usize = 8;

// ---- a class: its name, how many fields and methods, its ancestors (bit d for class d), the place of its latest method, its domain
// ---- (bit d for class d), two words spare; for its fields, then for its methods, names and bodies; four masks for each method

pub const CLASS_NAME_AT: u32 = 0;

// Fields are kind 0, methods kind 1.
pub const MEMBER_COUNTS_AT: usize = 1;

pub const FIELD_COUNT_AT: u32 = 1;

pub const METHOD_COUNT_AT: u32 = 2;

pub const ANCESTORS_AT: u32 = 3;

pub const LATEST_AT: u32 = 4;

pub const DOMAIN_AT: u32 = 5;

pub const NAMES_AT: u32 = 8;

pub const BODIES_AT: u32 = NAMES_AT + MEMBERS;

// Names and bodies of one kind, fields or methods.
pub const KIND_WORDS: usize = 2 * MEMBERS as usize;

pub const METHOD_NAMES_AT: u32 = NAMES_AT + 2 * MEMBERS;

pub const METHOD_BODIES_AT: u32 = BODIES_AT + 2 * MEMBERS;

pub const READ_MASKS_AT: u32 = METHOD_BODIES_AT + MEMBERS;

pub const WRITE_MASKS_AT: u32 = READ_MASKS_AT + MEMBERS;

pub const COMMUTING_AT: u32 = WRITE_MASKS_AT + MEMBERS;

pub const ADD_MASKS_AT: u32 = COMMUTING_AT + MEMBERS;

pub const CLASS_WORDS: usize = ADD_MASKS_AT as usize + MEMBERS as usize;

// ---- an object: its name, its class, where its values begin, the part of its line with values

pub const OBJECT_NAME_AT: u32 = 0;

pub const OBJECT_CLASS_AT: u32 = 1;

pub const OBJECT_VALUES_AT: u32 = 2;

pub const OBJECT_LINE_AT: u32 = 3;

pub const OBJECT_WORDS: usize = 4;

// ---- the tables: the head, the classes, the objects, each statement's place in the text

pub const CLASSES_AT: usize = HEAD_WORDS;

pub const OBJECTS_AT: usize = CLASSES_AT + CLASSES as usize * CLASS_WORDS;

pub const STATEMENTS_AT: usize = OBJECTS_AT + OBJECTS as usize * OBJECT_WORDS;

pub const TABLE_WORDS: usize = STATEMENTS_AT + STATEMENTS as usize;

// ---- a slot's row: the message, its activations, the locks, the marks of the values that have a note and of those that were set, the
// ---- notes

pub const PHASE_AT: usize = 0;

pub const DEPTH_AT: usize = 1;

pub const STEPS_AT: usize = 2;

pub const SUM_AT: usize = 3;

pub const OBJECT_AT: usize = 4;

pub const KIND_AT: usize = 5;

pub const NUMBER_AT: usize = 6;

pub const NAME_AT: usize = 7;

pub const ARGUMENT_AT: usize = 8;

// 1 where a value was set or added to.
pub const CHANGED_AT: usize = 9;

// Where locks were taken: bit b for words 8 * b to 8 * b + 7. So every lock stands below word 256.
pub const LOCK_MARKS_AT: usize = 10;

// 1 where a self-call was made.
pub const CALLED_AT: usize = 11;

// Words 12, 13 and 15 are spare, and in a row 14 too: a waiting send's words have the method's place in its class there.
pub const HEAD_SPARE_AT: usize = 12;

pub const PLACE_AT: usize = 14;

// An activation: its next statement, the statement past its last, its arg, its got, its reply.
pub const ACTIVATIONS_AT: usize = 16;

pub const NEXT_AT: u32 = 0;

pub const END_AT: u32 = 1;

pub const ARG_AT: u32 = 2;

pub const GOT_AT: u32 = 3;

pub const REPLY_AT: u32 = 4;

pub const ACTIVATION_WORDS: usize = 5;

// The words after the first activation; and the words before the others, in whole eights.
pub const SHALLOW_AT: usize = ACTIVATIONS_AT + ACTIVATION_WORDS;

pub const SHALLOW_WORDS: usize = ACTIVATIONS_AT + 8;

// Bit j of a lock word is method j of the object's or the class's own class.
pub const OBJECT_LOCKS_AT: usize = ACTIVATIONS_AT + ACTIVATIONS as usize * ACTIVATION_WORDS;

pub const CLASS_LOCKS_AT: usize = OBJECT_LOCKS_AT + OBJECTS as usize;

// Locks on a class with its objects.
pub const WHOLE_LOCKS_AT: usize = CLASS_LOCKS_AT + CLASSES as usize;

// A bit for each value that was set or added to; and one for each that was set.
pub const MARKS_AT: usize = WHOLE_LOCKS_AT + CLASSES as usize;

pub const SET_MARKS_AT: usize = MARKS_AT + VALUES / 32;

// A waiting send with its locks, laid out as the words before the marks are; 0 where the slot does not wait.
pub const WAITING_AT: usize = SET_MARKS_AT + VALUES / 32;

pub const WAITING_WORDS: usize = MARKS_AT;

// Spare: a note for each object's number and its marks.
pub const SPARE_AT: usize = WAITING_AT + WAITING_WORDS;

pub const SPARE_WORDS: usize = OBJECTS as usize + OBJECTS as usize / 32;

pub const NOTES_AT: usize = SPARE_AT + SPARE_WORDS;

pub const ROW_WORDS: usize = NOTES_AT + VALUES;

// ---- the state: the tables, then the rows of the slots, then the line: how many slots wait, and which, the first to arrive first

pub const LINE_AT: usize = TABLE_WORDS + SLOTS as usize * ROW_WORDS;

pub const FIRST_IN_LINE_AT: usize = LINE_AT + 1;

pub const LINE_WORDS: usize = 1 + SLOTS as usize;

pub const SLOTS_WORDS: usize = SLOTS as usize * ROW_WORDS + LINE_WORDS;

pub const STATE_WORDS: usize = TABLE_WORDS + SLOTS_WORDS;

// The sizes that the C header names.
pub fn state_words() -> usize
    ensures { result ≡ state_words }
{
    STATE_WORDS
}

pub fn most_values() -> usize
    ensures { result ≡ values_most }
{
    VALUES
}
