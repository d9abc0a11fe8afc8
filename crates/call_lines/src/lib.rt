// Call lines (02, Ticket 2): each is read, its call made on the lent memory, and its answer's line written. Also writes the lines
// of the objects.
#![tactic(auto)]

mod answer;
mod name;
mod objects;

ghost use Rattle.std.specs.Prelude.{◌+◌, ◌<◌, ◌^◌, drop};
ghost use Rattle.model.specs.Base.{bytes};
ghost use Rattle.model.specs.Text.{words};
ghost use Rattle.model.specs.Rehearsal.{call_line, slot_form, send_form};
ghost use Rattle.text_lex.specs.Piece.{words_after};
ghost use Rattle.machine_words.specs.Calls.{lending};
ghost use Rattle.output.specs.Append.{Appended};
ghost use Rattle.call_lines.specs.Lent.{lent_reply, lent_last};
ghost use Rattle.call_lines.specs.Says.{Says};
ghost use Rattle.call_lines.specs.Forms.{send_after};

// Writes the answer to a line of another form.
fn put_no_form(out: &mut [u8], at: usize) -> usize
    requires { at + 3 < 2 ^ 64 }
    ensures { Appended (bytes "51\n") out.old at result out.new }
{
    output::put_bytes(out, at, b"51\n")
}

// Makes the call of a line that is a keyword and a slot, and writes its answer.
fn slot_call(
    text: &[u8],
    state: &mut [u32],
    values: &mut [u32],
    keyword: &[u8],
    slot: u32,
    out: &mut [u8],
    at: usize,
) -> usize
    requires { at + 18 < 2 ^ 64 }
    ensures { Says (lent_reply (lending text.now state.old values.old) (slot_form keyword.now slot))
        out.old at result (lending text.now state.new values.new) out.new }
{
    if text_lex::same(keyword, b"step") {
        let outcome = machine_calls::step::step(text, state, values, slot);
        return answer::put_outcome(out, at, outcome);
    }
    if text_lex::same(keyword, b"commit") {
        let outcome = machine_calls::commit(text, state, values, slot);
        return answer::put_outcome(out, at, outcome);
    }
    if text_lex::same(keyword, b"abort") {
        let outcome = machine_calls::abort(text, state, values, slot);
        return answer::put_outcome(out, at, outcome);
    }
    put_no_form(out, at)
}

// Makes the send of a line, by its keyword, and writes its answer.
fn send_call(
    text: &[u8],
    state: &mut [u32],
    values: &[u32],
    keyword: &[u8],
    slot: u32,
    name: &[u8],
    method: &[u8],
    argument: u32,
    out: &mut [u8],
    at: usize,
) -> usize
    requires { at + 18 < 2 ^ 64 }
    ensures { Says (lent_reply (lending text.now state.old values.now) (send_form keyword.now slot name.now method.now argument))
        out.old at result (lending text.now state.new values.now) out.new }
{
    match name::receiver_named(text, state, keyword, name) {
        Some(receiver) => {
            let place = name::method_named(text, state, receiver.class, method);
            let target = receiver.target;
            let outcome = machine_calls::send::send(
                text, state, values, slot, target, place, argument,
            );
            answer::put_outcome(out, at, outcome)
        }
        None => put_no_form(out, at),
    }
}

// Reads the words after the slot of a line, which ends at `from`: a name, a method and an argument. Makes the send, and writes its
// answer.
fn send_line(
    text: &[u8],
    state: &mut [u32],
    values: &[u32],
    line: &[u8],
    keyword: &[u8],
    slot: u32,
    from: usize,
    out: &mut [u8],
    at: usize,
) -> usize
    requires { at + 18 < 2 ^ 64 }
    ensures { Says (lent_reply (lending text.now state.old values.now) (send_after keyword.now slot (words_after (drop from line.now))))
        out.old at result (lending text.now state.new values.now) out.new }
{
    let name = text_lex::word_after(line, from);
    let name_end = text_lex::word_end_after(line, from);
    let method = text_lex::word_after(line, name_end);
    let method_end = text_lex::word_end_after(line, name_end);
    let number = text_lex::number_of(text_lex::word_after(line, method_end));
    let end = text_lex::word_end_after(line, method_end);
    let Some(argument) = number else {
        return put_no_form(out, at);
    };
    if text_lex::is_name(name) & text_lex::is_name(method) & (line.len() <= end) {
        send_call(
            text, state, values, keyword, slot, name, method, argument, out, at,
        )
    } else {
        put_no_form(out, at)
    }
}

// Answers one line: makes its call and writes the line of the answer. A line of another form is 51 and does nothing else.
pub fn answer_line(
    text: &[u8],
    state: &mut [u32],
    values: &mut [u32],
    line: &[u8],
    out: &mut [u8],
    at: usize,
) -> usize
    requires { at + 18 < 2 ^ 64 }
    ensures { Says (lent_reply (lending text.now state.old values.old) (call_line (words line.now)))
        out.old at result (lending text.now state.new values.new) out.new }
{
    let keyword_end = text_lex::word_end(line, 0);
    let keyword = &line[..keyword_end];
    let number = text_lex::number_of(text_lex::word_after(line, keyword_end));
    let Some(slot) = number else {
        return put_no_form(out, at);
    };
    let slot_end = text_lex::word_end_after(line, keyword_end);
    if line.len() <= slot_end {
        slot_call(text, state, values, keyword, slot, out, at)
    } else {
        send_line(text, state, values, line, keyword, slot, slot_end, out, at)
    }
}

// Writes a line for each object: its name and its values.
pub fn put_objects(text: &[u8], state: &[u32], values: &[u32], out: &mut [u8], at: usize) -> usize
    requires { at + 24576 < 2 ^ 64 }
    ensures { Appended (lent_last (lending text.now state.now values.now)) out.old at result out.new }
{
    objects::put_lines(text, name::tables_of(state), values, out, at)
}
