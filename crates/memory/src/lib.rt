// A word of lent memory, by its place.
#![tactic(auto)]

ghost use Rattle.std.specs.Prelude.{◌≡◌, get_or, set};

// The word at a place; 0 past the end.
pub fn get(words: &[u32], place: usize) -> u32
    ensures { result ≡ get_or words.now place 0 }
{
    if place < words.len() { words[place] } else { 0 }
}

// Stores a word at a place; nothing past the end.
pub fn put(words: &mut [u32], place: usize, value: u32)
    ensures { words.new ≡ set words.old place value }
{
    if place < words.len() {
        words[place] = value;
    }
}
