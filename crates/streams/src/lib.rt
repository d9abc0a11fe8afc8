// Reading in fixed memory: a read that fails counts as the end of what is read. And the part of a list that a call has filled.
#![tactic(auto)]

ghost use Rattle.std.specs.Prelude.{◌≡◌};
ghost use Rattle.streams.specs.Counts.{IsPrefixLen, front};

use std::io::Read;

// Reads once, and answers how many bytes it put at the part's start: 0 where the input ends or the read fails.
pub fn read_once(input: &mut impl Read, part: &mut [u8]) -> usize
    ensures { IsPrefixLen result part.new }
{
    input.read(part).unwrap_or(0)
}

// Reads until the list is full, the input ends or a read fails, and answers how many bytes it put at the list's start.
pub fn read_full(input: &mut impl Read, list: &mut [u8]) -> usize
    ensures { IsPrefixLen result list.new }
{
    let mut done = 0;
    // A loop over a range would fix the places ahead, but how far a read goes is known after it.
    while done < list.len() {
        let size = read_once(input, &mut list[done..]);
        if size == 0 {
            break;
        }
        done += size;
    }
    done
}

// The bytes at the list's front that a call has written, by its answer; none where it is refused.
pub fn filled<E: Copy>(list: &[u8], answer: Result<usize, E>) -> &[u8]
    ensures { result.now ≡ front list.now answer }
{
    match answer {
        Ok(size) => &list[..size.min(list.len())],
        Err(_) => &list[..0],
    }
}
