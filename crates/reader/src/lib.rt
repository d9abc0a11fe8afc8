// The second pass over a text, and the verdict on it (01, "Numbers given"): 11, then 12, then 13 to 17 from the first line on.
// The lines are recorded in the tables, which represent the text's library where it is accepted.
#![tactic(auto)]

ghost use Rattle.std.specs.Prelude.{◌≤◌, ◌≡◌, length};
ghost use Rattle.layout.specs.Layout.{table_words};
ghost use Rattle.model.specs.Text.{lines_and_rest};
ghost use Rattle.model.specs.Form.{lines_from};
ghost use Rattle.model.specs.Library.{nothing};
ghost use Rattle.model.specs.Read.{judged};
ghost use Rattle.catalog.specs.View.{library_of};
ghost use Rattle.read_classes.specs.Took.{Lent};
ghost use Rattle.refusals.specs.Numbers.{fault_in};
ghost use Rattle.reader.specs.Verdicts.{Tells, ReadInto};
ghost use Rattle.reader.specs.Judging.{LineTook, cleared};

use refusals::Fault;
use text_syntax::form::Kind;

const MAX_TEXT: usize = 32768;

// The first fault of a text, and its line; line 0 for a text that is too long.
#[derive(Clone, Copy, Debug, PartialEq, Eq)]
pub struct Refused {
    pub fault: Fault,
    pub line: usize,
}

// Records a line, or answers its fault, 13 to 17.
fn take_line(text: &[u8], tables: &mut [u32], at: usize, end: usize) -> Result<(), Fault>
    requires { Lent text.now tables.old at end }
    ensures { LineTook text.now tables.old at end (fault_in result) tables.new }
{
    match text_syntax::form::kind_of(&text[at..end]) {
        Some(Kind::Class) => read_classes::class_line(text, tables, at, end),
        Some(Kind::Field) => read_classes::field_line(text, tables, at, end),
        Some(Kind::Method) => read_classes::method_line(text, tables, at, end),
        Some(Kind::Statement) => read_lines::statement_line(text, tables, at, end),
        Some(Kind::Object) => read_lines::object_line(text, tables, at, end),
        Some(Kind::End) => Ok(()),
        None => Ok(()),
    }
}

// Empties the tables: no class, no statement, no object.
fn clear(tables: &mut [u32])
    ensures { tables.new ≡ cleared tables.old }
{
    memory::put(tables, layout::CLASS_COUNT_AT, 0);
    memory::put(tables, layout::STATEMENT_COUNT_AT, 0);
    memory::put(tables, layout::OBJECT_COUNT_AT, 0);
}

// The second pass: records the lines up to the first with a fault from 13 to 17, for which the text is refused.
fn judge(text: &[u8], tables: &mut [u32]) -> Result<(), Refused>
    requires text_len_bound { length text.now ≤ 32768 }
    requires tables_len { length tables.old ≡ table_words }
    ensures { Tells result (library_of text.now tables.new) (judged nothing 1 (lines_from 0 (lines_and_rest text.now))) }
{
    clear(tables);
    let mut number: usize = 1;
    // A line is recorded by its places, so the loop goes over places.
    let mut at: usize = 0;
    let mut end = text_lex::line_end(text, 0);
    while end < text.len() {
        if let Err(fault) = take_line(text, tables, at, end) {
            return Err(Refused {
                fault,
                line: number,
            });
        }
        number += 1;
        at = end + 1;
        end = text_lex::line_end(text, at);
    }
    Ok(())
}

// Reads a text into the tables, or answers its first fault.
pub fn read_text(text: &[u8], tables: &mut [u32]) -> Result<(), Refused>
    requires { length tables.old ≡ table_words }
    ensures { ReadInto text.now result tables.new }
{
    if MAX_TEXT < text.len() {
        return Err(Refused {
            fault: Fault::TooLong,
            line: 0,
        });
    }
    if let Some(line) = text_syntax::place::first_misplaced(text) {
        return Err(Refused {
            fault: Fault::Misplaced,
            line,
        });
    }
    judge(text, tables)
}
