// The word that begins a line, or a statement after its `when E`.
ghost use Rattle.std.specs.Prelude.{◌≡◌, cond, Some};
ghost use Rattle.model.specs.Form.{keyword_of};
ghost use Rattle.text_syntax.specs.Keywords.{said_keyword};

// The ten words that begin a line.
#[derive(Clone, Copy, Debug, PartialEq, Eq)]
pub enum Keyword {
    Class,
    Field,
    Method,
    End,
    Object,
    Set,
    Add,
    Send,
    Reply,
    When,
}

// The keyword where the test passes, else the other.
fn choose(test: bool, keyword: Keyword, other: Option<Keyword>) -> Option<Keyword>
    ensures { result ≡ cond test (Some keyword) other }
{
    if test { Some(keyword) } else { other }
}

// The keyword of a word, found by its length; None where it is none.
pub fn keyword_of(word: &[u8]) -> Option<Keyword>
    ensures { said_keyword result ≡ keyword_of word.now }
{
    match word.len() {
        3 => {
            let keyword = choose(text_lex::same(word, b"add"), Keyword::Add, None);
            let keyword = choose(text_lex::same(word, b"set"), Keyword::Set, keyword);
            choose(text_lex::same(word, b"end"), Keyword::End, keyword)
        }
        4 => {
            let keyword = choose(text_lex::same(word, b"when"), Keyword::When, None);
            choose(text_lex::same(word, b"send"), Keyword::Send, keyword)
        }
        5 => {
            let keyword = choose(text_lex::same(word, b"reply"), Keyword::Reply, None);
            let keyword = choose(text_lex::same(word, b"field"), Keyword::Field, keyword);
            choose(text_lex::same(word, b"class"), Keyword::Class, keyword)
        }
        6 => {
            let keyword = choose(text_lex::same(word, b"object"), Keyword::Object, None);
            choose(text_lex::same(word, b"method"), Keyword::Method, keyword)
        }
        _ => None,
    }
}
