// The form of a line: its keyword, and whether the words after it are as that keyword requires. A position is the end of a word;
// a missing word counts as empty, and an empty word is nothing.
ghost use Rattle.std.specs.Prelude.{◌≡◌, Some, drop};
ghost use Rattle.model.specs.Base.{every};
ghost use Rattle.model.specs.Text.{pieces, words};
ghost use Rattle.model.specs.Word.{is_name, is_number};
ghost use Rattle.model.specs.Expression.{expression};
ghost use Rattle.model.specs.Form.{action_of, form_of};
ghost use Rattle.text_lex.specs.Piece.{words_after};
ghost use Rattle.text_syntax.specs.Keywords.{said_keyword};
ghost use Rattle.text_syntax.specs.Kinds.{kind_of, said, kind_by, fits, is_action, is_whole};
ghost use Rattle.text_syntax.specs.Kinds.{is_named, are_names, is_class, is_object, is_assign, is_target, is_send, is_guarded};

use super::expression::expression_end_after;
use super::keyword::{Keyword, keyword_of};

const LEVELS: usize = 9;

const POINT: u8 = 46;

// The kind of a line, by its form.
#[derive(Clone, Copy, Debug, PartialEq, Eq)]
pub enum Kind {
    Class,
    Field,
    Method,
    Statement,
    End,
    Object,
}

// Whether each word after `at` is a name.
fn all_names(line: &[u8], at: usize) -> bool
    ensures { result ≡ every is_name (words_after (drop at line.now)) }
{
    text_lex::words_after(line, at).all(|word| text_lex::is_name(word))
}

// Whether each word after `at` is a number.
fn all_numbers(line: &[u8], at: usize) -> bool
    ensures { result ≡ every is_number (words_after (drop at line.now)) }
{
    text_lex::words_after(line, at).all(|word| text_lex::is_number(word))
}

// Whether one name, and nothing more, follows `at`.
fn is_named(line: &[u8], at: usize) -> bool
    ensures { result ≡ is_named (words_after (drop at line.now)) }
{
    let name = text_lex::word_end_after(line, at);
    text_lex::is_name(text_lex::word_after(line, at)) & (line.len() <= name)
}

// Whether at least one word follows `at`, and each is a name.
fn are_names(line: &[u8], at: usize) -> bool
    ensures { result ≡ are_names (words_after (drop at line.now)) }
{
    !(line.len() <= at) & all_names(line, at)
}

// Whether the words of a class follow `at`: its name, and after a colon its parents, if any.
fn is_class(line: &[u8], at: usize) -> bool
    ensures { result ≡ is_class (words_after (drop at line.now)) }
{
    let name = text_lex::word_end_after(line, at);
    let colon = text_lex::word_end_after(line, name);
    text_lex::is_name(text_lex::word_after(line, at))
        & ((line.len() <= name)
            | text_lex::same(text_lex::word_after(line, name), b":") & are_names(line, colon))
}

// Whether the words of an object follow `at`: its name, its class and its starting values, if any.
fn is_object(line: &[u8], at: usize) -> bool
    ensures { result ≡ is_object (words_after (drop at line.now)) }
{
    let name = text_lex::word_end_after(line, at);
    let class = text_lex::word_end_after(line, name);
    text_lex::is_name(text_lex::word_after(line, at))
        & text_lex::is_name(text_lex::word_after(line, name))
        & all_numbers(line, class)
}

// Whether the words after `at` are one expression.
fn is_whole(line: &[u8], at: usize) -> bool
    ensures { result ≡ is_whole (expression (words_after (drop at line.now))) }
{
    match expression_end_after(line, at, LEVELS) {
        Some(end) => line.len() <= end,
        None => false,
    }
}

// Whether the words of a `set` or an `add` follow `at`: a field and an expression.
fn is_assign(line: &[u8], at: usize) -> bool
    ensures { result ≡ is_assign (words_after (drop at line.now)) }
{
    let field = text_lex::word_end_after(line, at);
    text_lex::is_name(text_lex::word_after(line, at)) & is_whole(line, field)
}

// Whether the word is `M` or `C.M`.
pub fn is_target(word: &[u8]) -> bool
    ensures { result ≡ is_target (pieces 46 word.now) }
{
    let first = text_lex::piece_end(word, 0, POINT);
    let second = text_lex::piece_end_after(word, first, POINT);
    text_lex::is_name(&word[..first])
        & ((word.len() <= first)
            | text_lex::is_name(text_lex::piece_after(word, first, POINT)) & (word.len() <= second))
}

// Whether the words of a `send` follow `at`: a method, `to self` and an expression.
fn is_send(line: &[u8], at: usize) -> bool
    ensures { result ≡ is_send (words_after (drop at line.now)) }
{
    let target = text_lex::word_end_after(line, at);
    let to = text_lex::word_end_after(line, target);
    let own = text_lex::word_end_after(line, to);
    text_lex::same(text_lex::word_after(line, target), b"to")
        & text_lex::same(text_lex::word_after(line, to), b"self")
        & (is_target(text_lex::word_after(line, at)) & is_whole(line, own))
}

// Whether the words after `at` make an action of the keyword; false for a keyword of no action. Inlined, since each statement of a
// text passes here.
#[inline(always)]
fn makes_action(keyword: Keyword, line: &[u8], at: usize) -> bool
    ensures { result ≡ is_action (action_of (said_keyword (Some keyword)) (words_after (drop at line.now))) }
{
    match keyword {
        Keyword::Set => is_assign(line, at),
        Keyword::Add => is_assign(line, at),
        Keyword::Send => is_send(line, at),
        Keyword::Reply => is_whole(line, at),
        _ => false,
    }
}

// The same for a word's keyword, if it has one.
pub fn is_action(keyword: Option<Keyword>, line: &[u8], at: usize) -> bool
    ensures { result ≡ is_action (action_of (said_keyword keyword) (words_after (drop at line.now))) }
{
    match keyword {
        Some(keyword) => makes_action(keyword, line, at),
        None => false,
    }
}

// Whether the words after `at` are an expression and an action.
fn is_guarded(line: &[u8], at: usize) -> bool
    ensures { result ≡ is_guarded (expression (words_after (drop at line.now))) }
{
    match expression_end_after(line, at, LEVELS) {
        Some(end) => {
            let keyword = keyword_of(text_lex::word_after(line, end));
            is_action(keyword, line, text_lex::word_end_after(line, end))
        }
        None => false,
    }
}

// Whether the words after `at` are as the keyword requires.
fn fits(keyword: Keyword, line: &[u8], at: usize) -> bool
    ensures { result ≡ fits (said_keyword (Some keyword)) (words_after (drop at line.now)) }
{
    match keyword {
        Keyword::Class => is_class(line, at),
        Keyword::Field => is_named(line, at),
        Keyword::Method => is_named(line, at),
        Keyword::End => line.len() <= at,
        Keyword::Object => is_object(line, at),
        Keyword::When => is_guarded(line, at),
        _ => makes_action(keyword, line, at),
    }
}

// The kind of a line that begins with the keyword and fits it.
fn kind_by(keyword: Keyword) -> Kind
    ensures { said (Some result) ≡ kind_by (said_keyword (Some keyword)) }
{
    match keyword {
        Keyword::Class => Kind::Class,
        Keyword::Field => Kind::Field,
        Keyword::Method => Kind::Method,
        Keyword::End => Kind::End,
        Keyword::Object => Kind::Object,
        Keyword::Set | Keyword::Add | Keyword::Send | Keyword::Reply | Keyword::When => {
            Kind::Statement
        }
    }
}

// The kind of the line; None where it has no form.
pub fn kind_of(line: &[u8]) -> Option<Kind>
    ensures { said result ≡ kind_of (form_of (words line.now)) }
{
    let at = text_lex::word_end(line, 0);
    let keyword = keyword_of(&line[..at])?;
    if fits(keyword, line, at) {
        Some(kind_by(keyword))
    } else {
        None
    }
}
