// Prints for each text that its arguments name: its name and its verdict (the number of the fault and its line, 0 0 for an
// accepted text), what `tables` prints, and the bytes of its image. The texts and these answers are the test vectors'.
// A write that fails is let go.
#![tactic(auto)]

use std::env::FillError;
use std::io::Read;
use std::rt::{Env, Files};
use std::{fs, str};

// Writes the name of a text, and its verdict.
fn print_verdict(rt: &impl Print, path: &str, verdict: Result<(), reader::Refused>) {
    let (number, line) = match verdict {
        Ok(()) => (0, 0),
        Err(refused) => (refused.fault.number(), refused.line),
    };
    let _ = println!(rt; "{path} {number} {line}");
}

// Writes what `tables` prints for the text.
fn print_lines(rt: &impl Print, text: &[u8]) {
    let mut lines = [0u8; 66560];
    let answer = cishmolaq::print_tables(text, &mut lines);
    let _ = rt.write_all(streams::filled(&lines, answer));
}

// Writes the image of the text, nothing where it is refused.
fn print_image(rt: &impl Print, text: &[u8]) {
    let mut image = [0u8; 40992];
    let answer = cishmolaq::compile(text, &mut image);
    let _ = rt.write_all(streams::filled(&image, answer));
}

// Reads the text and writes its answers.
fn check_text(rt: &impl Print, path: &str, file: &mut impl Read) {
    // Twice the longest text: a longer one is cut, and is refused as too long all the same.
    let mut text = [0u8; 65536];
    let size = streams::read_full(file, &mut text);
    print_verdict(rt, path, cishmolaq::check(&text[..size]));
    print_lines(rt, &text[..size]);
    print_image(rt, &text[..size]);
}

// Reads the file and writes its answers, or why it can't be opened.
fn check_file(rt: &(impl Files + Print + Eprint), path: &str) {
    match fs::open(rt, path) {
        Ok(mut file) => check_text(rt, path, &mut file),
        Err(error) => {
            let _ = eprintln!(rt; "{path}: {error}");
        }
    }
}

// Checks the text that one argument names, and answers whether there is such an argument. One that is longer than a path, or
// is not UTF-8, names no file.
fn check_argument(rt: &(impl Env + Files + Print + Eprint), i: usize) -> bool {
    let mut path = [0u8; 4096];
    let size = match rt.arg(i, &mut path) {
        Ok(size) => size,
        Err(FillError::TooLong) => 0,
        Err(FillError::NotPresent) => return false,
    };
    check_file(rt, str::from_utf8(&path[..size]).unwrap_or(""));
    true
}

fn main(rt: HostRuntime) {
    for i in 1..usize::MAX {
        if !check_argument(&rt, i) {
            break;
        }
    }
}
