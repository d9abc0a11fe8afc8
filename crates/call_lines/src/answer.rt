// The line of an answer.
ghost use Rattle.std.specs.Prelude.{◌+◌, ◌<◌, ◌^◌, ◌++◌};
ghost use Rattle.model.specs.Base.{bytes};
ghost use Rattle.model.specs.Tables.{digits};
ghost use Rattle.output.specs.Append.{Appended};
ghost use Rattle.call_lines.specs.Says.{outcome_printed};

use machine_words::Outcome;
use refusals::Refusal;

// Writes a number and LF.
fn put_number(out: &mut [u8], at: usize, number: u32) -> usize
    requires { at + 11 < 2 ^ 64 }
    ensures { Appended (digits 10 number ++ bytes "\n") out.old at result out.new }
{
    let end = output::put_digits(out, at, 10, number);
    output::put_bytes(out, end, b"\n")
}

// Writes the line of a call's outcome, or of its refusal.
pub(crate) fn put_outcome(out: &mut [u8], at: usize, outcome: Result<Outcome, Refusal>) -> usize
    requires { at + 18 < 2 ^ 64 }
    ensures { Appended (outcome_printed outcome) out.old at result out.new }
{
    match outcome {
        Ok(Outcome::Done) => output::put_bytes(out, at, b"ok\n"),
        Ok(Outcome::Going) => output::put_bytes(out, at, b"going\n"),
        Ok(Outcome::Answer(value)) => {
            let end = output::put_bytes(out, at, b"answer ");
            put_number(out, end, value)
        }
        Ok(Outcome::Held(slot)) => {
            let end = output::put_bytes(out, at, b"40 ");
            put_number(out, end, slot)
        }
        Ok(Outcome::Stopped) => output::put_bytes(out, at, b"41\n"),
        Err(refusal) => put_number(out, at, refusal.number()),
    }
}
