// Words, names and numbers of a class text (01, "The class text", first paragraph): where a piece of a text ends, whether two
// pieces are equal, and whether a word is a name or a number.
#![tactic(auto)]

ghost use Rattle.std.specs.Prelude.{◌≡◌, ◌+◌, drop};
ghost use Rattle.model.specs.Base.{same, every};
ghost use Rattle.model.specs.Word.{is_letter, is_digit, is_name_byte, is_reserved, is_name, is_number, begins_with_letter, well_begun};
ghost use Rattle.text_lex.specs.Scan.{is_byte, before};
ghost use Rattle.text_lex.specs.Piece.{pieces_after, words_after, first, end_after};
ghost use Rattle.text_lex.specs.Number.{number_of, said};
ghost use Rattle.text_lex.specs.Words.{left};
ghost use Rattle.std.specs.Iterator.{YieldsFirstRef, item_count};

const SPACE: u8 = 32;

const LINE_FEED: u8 = 10;

// Where the piece that begins at `at` ends: at the next divider, or at the end; `at` itself past the end.
pub fn piece_end(text: &[u8], at: usize, divider: u8) -> usize
    ensures { result ≡ at + before (is_byte divider) (drop at text.now) }
{
    for i in at..text.len() {
        if text[i] == divider {
            return i;
        }
    }
    at.max(text.len())
}

// Where the word that begins at `at` ends.
pub fn word_end(line: &[u8], at: usize) -> usize
    ensures { result ≡ at + before (is_byte 32) (drop at line.now) }
{
    piece_end(line, at, SPACE)
}

// Where the line that begins at `at` ends: at its LF, or at the end of a text that lacks it.
pub fn line_end(text: &[u8], at: usize) -> usize
    ensures { result ≡ at + before (is_byte 10) (drop at text.now) }
{
    piece_end(text, at, LINE_FEED)
}

// Where the piece after the divider at `at` ends; `at` itself where no piece follows.
pub fn piece_end_after(text: &[u8], at: usize, divider: u8) -> usize
    ensures { result ≡ end_after divider text.now at }
{
    if at < text.len() {
        piece_end(text, at + 1, divider)
    } else {
        at
    }
}

// The piece after the divider at `at`; empty where there is none.
pub fn piece_after(text: &[u8], at: usize, divider: u8) -> &[u8]
    ensures { result.now ≡ first (pieces_after divider (drop at text.now)) }
{
    if at < text.len() {
        let from = at + 1;
        let end = piece_end(text, from, divider);
        &text[from..end]
    } else {
        &text[..0]
    }
}

// Where the word after the space at `at` ends; `at` itself where no word follows.
pub fn word_end_after(line: &[u8], at: usize) -> usize
    ensures { result ≡ end_after 32 line.now at }
{
    piece_end_after(line, at, SPACE)
}

// The word after the space at `at`; empty where there is none.
pub fn word_after(line: &[u8], at: usize) -> &[u8]
    ensures { result.now ≡ first (words_after (drop at line.now)) }
{
    piece_after(line, at, SPACE)
}

// The words of a line that are still to come: those after the space at `at`.
#[derive(Clone, Copy)]
pub struct Words<'a> {
    line: &'a [u8],
    at: usize,
}

impl<'a> Iterator for Words<'a> {
    type Item = &'a [u8];

    ghost next_gives = { YieldsFirstRef left };

    ghost remaining = { item_count left };

    fn next(&mut self) -> Option<&'a [u8]> {
        if self.line.len() <= self.at {
            return None;
        }
        let word = word_after(self.line, self.at);
        self.at = word_end_after(self.line, self.at);
        Some(word)
    }
}

// The words after the space at `at`.
pub fn words_after(line: &[u8], at: usize) -> Words<'_>
    ensures { left result ≡ words_after (drop at line.now) }
{
    Words { line, at }
}

// Whether two pieces hold the same bytes. A loop: `==` of slices is a call, which costs more than to compare a short word.
pub fn same(a: &[u8], b: &[u8]) -> bool
    ensures { result ≡ same a.now b.now }
{
    if a.len() != b.len() {
        return false;
    }
    for i in 0..a.len() {
        if a[i] != b[i] {
            return false;
        }
    }
    true
}

// Whether the byte is one of a–z.
fn is_letter(byte: u8) -> bool
    ensures { result ≡ is_letter byte }
{
    byte.is_ascii_lowercase()
}

// Whether the byte is one of 0–9.
fn is_digit(byte: u8) -> bool
    ensures { result ≡ is_digit byte }
{
    byte.is_ascii_digit()
}

// Whether the byte may stand in a name.
fn is_name_byte(byte: u8) -> bool
    ensures { result ≡ is_name_byte byte }
{
    // Most bytes of a name are letters.
    if is_letter(byte) {
        return true;
    }
    is_digit(byte) | (byte == b'_')
}

// Whether each byte may stand in a name.
fn all_name_bytes(bytes: &[u8]) -> bool
    ensures { result ≡ every is_name_byte bytes.now }
{
    for byte in bytes {
        if !is_name_byte(*byte) {
            return false;
        }
    }
    true
}

// Whether the word is reserved; it is compared only with the reserved words of its length.
fn is_reserved(word: &[u8]) -> bool
    ensures { result ≡ is_reserved word.now }
{
    match word.len() {
        2 => same(word, b"to"),
        3 => {
            same(word, b"end")
                | same(word, b"set")
                | same(word, b"arg")
                | same(word, b"got")
                | same(word, b"add")
        }
        4 => same(word, b"send") | same(word, b"self") | same(word, b"when"),
        5 => {
            same(word, b"class")
                | same(word, b"field")
                | same(word, b"reply")
                | same(word, b"level")
        }
        6 => same(word, b"method") | same(word, b"object"),
        _ => false,
    }
}

// Whether the word's first byte is a letter; false for an empty word.
fn begins_with_letter(word: &[u8]) -> bool
    ensures { result ≡ begins_with_letter word.now }
{
    match word {
        [first, ..] => is_letter(*first),
        [] => false,
    }
}

// Whether the word is a name.
pub fn is_name(word: &[u8]) -> bool
    ensures { result ≡ is_name word.now }
{
    if begins_with_letter(word) & (word.len() <= 16) {
        all_name_bytes(word) & !is_reserved(word)
    } else {
        false
    }
}

// Whether the word is not empty, and begins with a zero only if that is its only byte.
fn well_begun(word: &[u8]) -> bool
    ensures { result ≡ well_begun word.now }
{
    match word {
        [] => false,
        [_] => true,
        [first, ..] => *first != b'0',
    }
}

// The value of the word; None where it is no number.
pub fn number_of(word: &[u8]) -> Option<u32>
    ensures { said result ≡ number_of word.now }
{
    if !well_begun(word) {
        return None;
    }
    let mut n: u32 = 0;
    for byte in word {
        if !is_digit(*byte) {
            return None;
        }
        n = n.checked_mul(10)?.checked_add(u32::from(*byte - b'0'))?;
    }
    Some(n)
}

// Whether the word is a number.
pub fn is_number(word: &[u8]) -> bool
    ensures { result ≡ is_number word.now }
{
    number_of(word).is_some()
}
