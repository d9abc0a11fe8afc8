// Where an expression ends in its line.
ghost use Rattle.std.specs.Prelude.{◌≡◌, drop};
ghost use Rattle.model.specs.Text.{words};
ghost use Rattle.model.specs.Expression.{read_levels};
ghost use Rattle.text_lex.specs.Piece.{words_after};
ghost use Rattle.text_syntax.specs.Reading.{placed};

use super::token::{Token, token_of};

// Where the expression at the front of `rest` ends, which is the end of its last word, with at most `levels` words on a path; None where
// there is no expression.
#[cycle(expression_end_expression_end_after)]
pub fn expression_end(rest: &[u8], levels: usize) -> Option<usize>
    ensures { result ≡ placed rest.now (read_levels levels (words rest.now)) }
{
    if levels == 0 {
        return None;
    }
    let below = levels - 1;
    let end = text_lex::word_end(rest, 0);
    match token_of(&rest[..end])? {
        Token::Sign(_) => {
            let next = expression_end_after(rest, end, below)?;
            expression_end_after(rest, next, below)
        }
        Token::Single(_) => Some(end),
    }
}

// Where the expression after the space at `at` ends: it is read in the part of the line from there on.
#[cycle(expression_end_expression_end_after)]
pub fn expression_end_after(line: &[u8], at: usize, levels: usize) -> Option<usize>
    ensures { result ≡ placed line.now (read_levels levels (words_after (drop at line.now))) }
{
    if at < line.len() {
        let from = at + 1;
        let end = expression_end(&line[from..], levels)?;
        Some(from + end)
    } else {
        None
    }
}
