// Prints the access vectors and commuting methods of the class text on standard input (01, "What `tables` prints").
#![tactic(auto)]

// Prints the lines of the text; there is room for those of every text. A write that fails is let go.
fn print_text(rt: &impl Print, text: &[u8]) {
    let mut lines = [0u8; 66560];
    let answer = cishmolaq::print_tables(text, &mut lines);
    let _ = rt.write_all(streams::filled(&lines, answer));
}

fn main(rt: HostRuntime) {
    // Twice the longest text: a longer one is cut, and is refused as too long all the same.
    let mut text = [0u8; 65536];
    let size = streams::read_full(&mut rt.reader(), &mut text);
    print_text(&rt, &text[..size]);
}
