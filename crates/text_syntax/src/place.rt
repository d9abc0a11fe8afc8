// The first pass over a text: the first line in no allowed form or place (01, "Order", and number 12).
ghost use Rattle.std.specs.Prelude.{◌≡◌};
ghost use Rattle.model.specs.Text.{lines_and_rest};
ghost use Rattle.model.specs.Form.{at_start, lines_from, rest_of, first_misplaced};
ghost use Rattle.text_syntax.specs.Kinds.{said};
ghost use Rattle.text_syntax.specs.Places.{said_place, next_place, is_unfinished, line_in};

use super::form::{Kind, kind_of};

// Where a line stands: at the start of a text, among the fields of a class, within a body, among the methods of a class, among the
// objects.
#[derive(Clone, Copy, Debug, PartialEq, Eq)]
enum Place {
    Start,
    Fields,
    Body,
    Methods,
    Objects,
}

// A row for each place; in it, for each kind of line, the place after such a line, None where such a line may not stand in this place.
const NEXT: [[Option<Place>; 6]; 5] = [
    [
        Some(Place::Fields),
        None,
        None,
        None,
        None,
        Some(Place::Objects),
    ],
    [
        Some(Place::Fields),
        Some(Place::Fields),
        Some(Place::Body),
        None,
        None,
        Some(Place::Objects),
    ],
    [
        None,
        None,
        None,
        Some(Place::Body),
        Some(Place::Methods),
        None,
    ],
    [
        Some(Place::Fields),
        None,
        Some(Place::Body),
        None,
        None,
        Some(Place::Objects),
    ],
    [None, None, None, None, None, Some(Place::Objects)],
];

// The place after a line of this kind; None where such a line may not stand in this place.
fn next_place(place: Place, kind: Option<Kind>) -> Option<Place>
    ensures { result ≡ next_place place (said kind) }
{
    NEXT[place as usize][kind? as usize]
}

// Whether a text whose lines lead to this place is unfinished: part of a line is left, or an `end` is missing.
fn is_unfinished(place: Place, left: bool) -> bool
    ensures { result ≡ is_unfinished (said_place place) left }
{
    left | (place == Place::Body)
}

// The number of the first line that is misplaced; None where there is none.
pub fn first_misplaced(text: &[u8]) -> Option<usize>
    ensures { result ≡ line_in (first_misplaced 1 at_start (lines_from 0 (lines_and_rest text.now)) (rest_of (lines_and_rest text.now))) }
{
    let mut number: usize = 1;
    let mut place = Place::Start;
    // The loop goes from line end to line end, as `lines_from` does; what is left behind the last is looked at after it.
    let mut at: usize = 0;
    let mut end = text_lex::line_end(text, 0);
    while end < text.len() {
        let Some(next) = next_place(place, kind_of(&text[at..end])) else {
            return Some(number);
        };
        place = next;
        number += 1;
        at = end + 1;
        end = text_lex::line_end(text, at);
    }
    if is_unfinished(place, at < text.len()) {
        Some(number)
    } else {
        None
    }
}
