// The tokens of expressions: what a word is within an expression.
ghost use Rattle.std.specs.Prelude.{◌≡◌, [], ◌∷◌};
ghost use Rattle.model.specs.Expression.{neither, token_of};
ghost use Rattle.text_syntax.specs.Tokens.{said_token, named_or};

// `+ - * < =`
#[derive(Clone, Copy)]
pub enum Operator {
    Plus,
    Minus,
    Times,
    Less,
    Equal,
}

// An expression of one word: a number, a field by its name, `arg` or `got`.
#[derive(Clone, Copy)]
pub enum Leaf {
    Literal(u32),
    Field,
    Argument,
    Got,
}

// A word of an expression.
#[derive(Clone, Copy)]
pub enum Token {
    Sign(Operator),
    Single(Leaf),
}

// What a word of this single byte is in an expression; None where it is no token.
fn token_of_byte(byte: u8) -> Option<Token>
    ensures { said_token (byte ∷ []) result ≡ token_of (byte ∷ []) }
{
    match byte {
        b'a'..=b'z' => Some(Token::Single(Leaf::Field)),
        b'0'..=b'9' => Some(Token::Single(Leaf::Literal(u32::from(byte - b'0')))),
        b'+' => Some(Token::Sign(Operator::Plus)),
        b'-' => Some(Token::Sign(Operator::Minus)),
        b'*' => Some(Token::Sign(Operator::Times)),
        b'<' => Some(Token::Sign(Operator::Less)),
        b'=' => Some(Token::Sign(Operator::Equal)),
        _ => None,
    }
}

// What a word that begins with a letter is: `arg`, `got` or a field; None where it is no name.
fn token_of_name(word: &[u8]) -> Option<Token>
    ensures { said_token word.now result ≡ named_or word.now neither }
{
    if text_lex::same(word, b"arg") {
        return Some(Token::Single(Leaf::Argument));
    }
    if text_lex::same(word, b"got") {
        return Some(Token::Single(Leaf::Got));
    }
    if text_lex::is_name(word) {
        return Some(Token::Single(Leaf::Field));
    }
    None
}

// What the word is in an expression, by its first byte; None where it is no token.
pub fn token_of(word: &[u8]) -> Option<Token>
    ensures { said_token word.now result ≡ token_of word.now }
{
    if word.len() == 0 {
        return None;
    }
    let first = word[0];
    if word.len() == 1 {
        return token_of_byte(first);
    }
    if first.is_ascii_lowercase() {
        return token_of_name(word);
    }
    let number = text_lex::number_of(word)?;
    Some(Token::Single(Leaf::Literal(number)))
}
