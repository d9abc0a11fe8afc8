// The turn of a statement, read from its line; None for a line that is no statement. Whether it is one is found out along with its turn,
// so that each expression is read once.
ghost use Rattle.std.specs.Prelude.{◌≡◌, Some, drop};
ghost use Rattle.model.specs.Text.{pieces, words};
ghost use Rattle.model.specs.Expression.{expression};
ghost use Rattle.model.specs.Form.{action_of, when_form, form_of};
ghost use Rattle.text_lex.specs.Piece.{words_after};
ghost use Rattle.text_syntax.specs.Keywords.{said_keyword};
ghost use Rattle.machine_words.specs.Turn.{assign_turn, call_turn, form_turn, line_turn};
ghost use Rattle.machine_words.specs.Said.{said_change, said_turn};
ghost use Rattle.catalog.specs.Bodies.{bounds_of};
ghost use Rattle.machine_statement.specs.Actions.{is_when, is_to_self, is_begun, skipped, target_body, acted_turn, skipped_turn, valued_in, turn_in, formed_turn};

use catalog::body::{Statements, body_in};
use machine_evaluate::{Scope, Value, value_after};
use machine_words::{Change, Turn};
use text_syntax::keyword::{Keyword, keyword_of};

const POINT: u8 = 46;

const LEVELS: usize = 9;

// What a statement runs in: the scope of its expressions, the place of the object's first value, and how many activations there are.
#[derive(Clone, Copy)]
pub struct Frame<'a> {
    pub scope: Scope<'a>,
    pub base: u32,
    pub depth: u32,
}

// The body that `M` names in a class, or `C.M` in the class C.
fn target_body(text: &[u8], tables: &[u32], class: u32, target: &[u8]) -> Option<Statements>
    ensures { result ≡ bounds_of (target_body text.now tables.now class (pieces 46 target.now)) }
{
    let point = text_lex::piece_end(target, 0, POINT);
    if target.len() <= point {
        body_in(text, tables, class, &target[..point])
    } else {
        let owner = catalog::class_number(text, tables, &target[..point]);
        let method = text_lex::piece_after(target, point, POINT);
        body_in(text, tables, owner, method)
    }
}

// A self-call, unless it would be the ninth activation; None where there is no such body.
fn call_turn(frame: &Frame<'_>, target: &[u8], value: u32) -> Option<Turn>
    ensures { said_turn result ≡ call_turn frame.now.depth (target_body frame.now.scope.text.now frame.now.scope.tables.now frame.now.scope.class (pieces 46 target.now)) value }
{
    let scope = frame.scope;
    let body = target_body(scope.text, scope.tables, scope.class, target)?;
    if 8 <= frame.depth {
        return Some(Turn::Stop);
    }
    Some(Turn::Call(body.first, body.end, value))
}

// The turn that changes a field of the object; None where its class has no such field.
fn assign_turn(frame: &Frame<'_>, change: Change, name: &[u8], value: u32) -> Option<Turn>
    ensures { said_turn result ≡ assign_turn frame.now.scope.text.now frame.now.scope.tables.now frame.now.scope.class frame.now.base (said_change change) name.now value }
{
    let scope = frame.scope;
    let field = catalog::find(scope.text, scope.tables, scope.class, layout::FIELDS, name)?;
    Some(Turn::Assign(change, frame.base as usize + field as usize, value))
}

// The turn of an action by its keyword, the word after that, and its expression's value; None for a keyword of no action.
fn acted_turn(frame: &Frame<'_>, keyword: Keyword, word: &[u8], value: u32) -> Option<Turn>
    ensures { said_turn result ≡ acted_turn frame.now (said_keyword (Some keyword)) word.now value }
{
    match keyword {
        Keyword::Set => assign_turn(frame, Change::Replace, word, value),
        Keyword::Add => assign_turn(frame, Change::Increase, word, value),
        Keyword::Send => call_turn(frame, word, value),
        Keyword::Reply => Some(Turn::Reply(value)),
        _ => None,
    }
}

// Whether the words after `at` begin with `to self`.
fn is_to_self(line: &[u8], at: usize) -> bool
    ensures { result ≡ is_to_self (words_after (drop at line.now)) }
{
    if !text_lex::same(text_lex::word_after(line, at), b"to") {
        return false;
    }
    let to = text_lex::word_end_after(line, at);
    text_lex::same(text_lex::word_after(line, to), b"self")
}

// Whether the words after `at`, up to the expression, are as the keyword of an action requires.
fn is_begun(keyword: Keyword, line: &[u8], at: usize) -> bool
    ensures { result ≡ is_begun (said_keyword (Some keyword)) (words_after (drop at line.now)) }
{
    match keyword {
        Keyword::Set => text_lex::is_name(text_lex::word_after(line, at)),
        Keyword::Add => text_lex::is_name(text_lex::word_after(line, at)),
        Keyword::Send => {
            let target = text_lex::word_end_after(line, at);
            if !is_to_self(line, target) {
                return false;
            }
            text_syntax::form::is_target(text_lex::word_after(line, at))
        }
        Keyword::Reply => true,
        _ => false,
    }
}

// The place before the expression of an action whose keyword ends at `at`.
fn expression_place(keyword: Keyword, line: &[u8], at: usize) -> usize
    ensures { words_after (drop result line.now) ≡ skipped (said_keyword (Some keyword)) (words_after (drop at line.now)) }
{
    match keyword {
        Keyword::Set => text_lex::word_end_after(line, at),
        Keyword::Add => text_lex::word_end_after(line, at),
        Keyword::Send => {
            let target = text_lex::word_end_after(line, at);
            let to = text_lex::word_end_after(line, target);
            text_lex::word_end_after(line, to)
        }
        _ => at,
    }
}

// The value of the expression after `at`.
fn value_behind(frame: &Frame<'_>, line: &[u8], at: usize) -> Option<Value>
    ensures { result ≡ valued_in frame.now line.now (expression (words_after (drop at line.now))) }
{
    value_after(&frame.scope, line, at, LEVELS)
}

// The turn of an action whose keyword ends at `at`; None where the words are no action, or its expression has no value.
fn words_turn(frame: &Frame<'_>, keyword: Option<Keyword>, line: &[u8], at: usize) -> Option<Turn>
    ensures { said_turn result ≡ formed_turn frame.now (action_of (said_keyword keyword) (words_after (drop at line.now))) }
{
    let keyword = keyword?;
    if !is_begun(keyword, line, at) {
        return None;
    }
    let place = expression_place(keyword, line, at);
    let value = value_behind(frame, line, place)?;
    if value.end < line.len() {
        return None;
    }
    let word = text_lex::word_after(line, at);
    acted_turn(frame, keyword, word, value.number)
}

// The turn of an action after a guard of value 0, whose keyword ends at `at`; None where the words are no action.
fn skipped_turn(keyword: Option<Keyword>, line: &[u8], at: usize) -> Option<Turn>
    ensures { said_turn result ≡ skipped_turn (action_of (said_keyword keyword) (words_after (drop at line.now))) }
{
    if text_syntax::form::is_action(keyword, line, at) {
        Some(Turn::Skip)
    } else {
        None
    }
}

// The turn of a statement whose `when` ends at `at`; None where the words are no statement, or an expression that is evaluated has no
// value.
fn guarded_turn(frame: &Frame<'_>, line: &[u8], at: usize) -> Option<Turn>
    ensures { said_turn result ≡ form_turn (when_form (expression (words_after (drop at line.now)))) (turn_in frame.now) }
{
    let guard = value_behind(frame, line, at)?;
    let keyword = keyword_of(text_lex::word_after(line, guard.end));
    let place = text_lex::word_end_after(line, guard.end);
    if guard.number == 0 {
        return skipped_turn(keyword, line, place);
    }
    words_turn(frame, keyword, line, place)
}

// Whether the keyword is `when`.
fn is_when(keyword: Option<Keyword>) -> bool
    ensures { result ≡ is_when (said_keyword keyword) }
{
    keyword == Some(Keyword::When)
}

// The turn of a line; None where it is no statement.
fn statement_turn(frame: &Frame<'_>, line: &[u8]) -> Option<Turn>
    ensures { said_turn result ≡ form_turn (form_of (words line.now)) (turn_in frame.now) }
{
    let at = text_lex::word_end(line, 0);
    let keyword = keyword_of(&line[..at]);
    if is_when(keyword) {
        guarded_turn(frame, line, at)
    } else {
        words_turn(frame, keyword, line, at)
    }
}

// The turn of a statement on an object; None where the object's class or values, or the statement's place in the text, do not exist.
pub fn line_turn(
    text: &[u8],
    tables: &[u32],
    values: &[u32],
    object: u32,
    depth: u32,
    statement: u32,
    arg: u32,
    got: u32,
) -> Option<Turn>
    ensures { said_turn result ≡ line_turn text.now tables.now values.now object depth statement arg got }
{
    let class = catalog::class_of(tables, object);
    let base = catalog::values_of(tables, object);
    let start = base as usize;
    let end = start + catalog::member_count(tables, class, layout::FIELDS) as usize;
    let place = memory::get(tables, layout::STATEMENTS_AT + statement as usize);
    if (catalog::class_count(tables) <= class)
        | (values.len() < end)
        | (text.len() < (place / layout::PART_UNIT + place % layout::PART_UNIT) as usize)
    {
        return None;
    }
    let own = &values[start..end];
    let scope = Scope {
        text,
        tables,
        class,
        own,
        arg,
        got,
    };
    let frame = Frame { scope, base, depth };
    statement_turn(&frame, catalog::part_of(text, place))
}
