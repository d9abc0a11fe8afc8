// The value of an expression, read from the text of its statement (01, "Statements"): nothing is kept of an expression but
// its words, and each use reads them again.
#![tactic(auto)]

ghost use Rattle.std.specs.Prelude.{◌≡◌, ◌*◌, ◌%◌, length, drop, int_lt};
ghost use Rattle.model.specs.Text.{words};
ghost use Rattle.model.specs.Expression.{field, read_levels, signed, operate};
ghost use Rattle.text_lex.specs.Piece.{words_after};
ghost use Rattle.text_syntax.specs.Tokens.{said_operator, said_leaf};
ghost use Rattle.machine_evaluate.specs.Valued.{value_here, valued_at, valued};

use text_syntax::token::{Leaf, Operator, Token, token_of};

// The value of an expression, and the place after it.
#[derive(Clone, Copy)]
pub struct Value {
    pub number: u32,
    pub end: usize,
}

// What an expression is evaluated in: the text and the tables, the class of its object and the object's own values, and what `arg` and
// `got` are.
#[derive(Clone, Copy)]
pub struct Scope<'a> {
    pub text: &'a [u8],
    pub tables: &'a [u32],
    pub class: u32,
    pub own: &'a [u32],
    pub arg: u32,
    pub got: u32,
}

// The product modulo 2^32.
fn times(x: u32, y: u32) -> u32
    ensures { result ≡ x * y % 4294967296 }
{
    x.wrapping_mul(y)
}

// Whether x is below y, both read as signed numbers.
fn is_less(x: u32, y: u32) -> bool
    ensures { result ≡ int_lt (signed x) (signed y) }
{
    x.cast_signed() < y.cast_signed()
}

// The operator's result for two values.
fn operate(operator: Operator, x: u32, y: u32) -> u32
    ensures { result ≡ operate (said_operator operator) x y }
{
    match operator {
        Operator::Plus => x.wrapping_add(y),
        Operator::Minus => x.wrapping_sub(y),
        Operator::Times => times(x, y),
        Operator::Less => u32::from(is_less(x, y)),
        Operator::Equal => u32::from(x == y),
    }
}

// The value of the object's field of that name, and the name's length; None where its class has no such field.
fn field_value(scope: &Scope<'_>, name: &[u8]) -> Option<Value>
    ensures { result ≡ valued_at (value_here scope.now (field name.now)) (length name.now) }
{
    let place = catalog::find(scope.text, scope.tables, scope.class, layout::FIELDS, name)?;
    Some(Value {
        number: memory::get(scope.own, place as usize),
        end: name.len(),
    })
}

// The value of an expression of one word, and the word's length; None where it names a field that the class does not have.
fn leaf_value(scope: &Scope<'_>, word: &[u8], leaf: Leaf) -> Option<Value>
    ensures { result ≡ valued_at (value_here scope.now (said_leaf word.now leaf)) (length word.now) }
{
    let end = word.len();
    match leaf {
        Leaf::Literal(number) => Some(Value { number, end }),
        Leaf::Field => field_value(scope, word),
        Leaf::Argument => Some(Value {
            number: scope.arg,
            end,
        }),
        Leaf::Got => Some(Value {
            number: scope.got,
            end,
        }),
    }
}

// The value of the expression at the front of `rest`, nested at most so many levels deep; None where there is no expression, or where it
// names a field that the class does not have.
#[cycle(value_after_value_of)]
pub fn value_of(scope: &Scope<'_>, rest: &[u8], levels: usize) -> Option<Value>
    ensures { result ≡ valued (value_here scope.now) rest.now (read_levels levels (words rest.now)) }
{
    if levels == 0 {
        return None;
    }
    let below = levels - 1;
    let end = text_lex::word_end(rest, 0);
    match token_of(&rest[..end])? {
        Token::Sign(operator) => {
            let first = value_after(scope, rest, end, below)?;
            let second = value_after(scope, rest, first.end, below)?;
            Some(Value {
                number: operate(operator, first.number, second.number),
                end: second.end,
            })
        }
        Token::Single(leaf) => leaf_value(scope, &rest[..end], leaf),
    }
}

// The value of the expression after the space at `at`, read in the part of the line from there on.
#[cycle(value_after_value_of)]
pub fn value_after(scope: &Scope<'_>, line: &[u8], at: usize, levels: usize) -> Option<Value>
    ensures { result ≡ valued (value_here scope.now) line.now (read_levels levels (words_after (drop at line.now))) }
{
    if at < line.len() {
        let from = at + 1;
        let value = value_of(scope, &line[from..], levels)?;
        Some(Value {
            number: value.number,
            end: from + value.end,
        })
    } else {
        None
    }
}
