// What every call tests first (01, "The machine") on the lent text, state and values.
#![tactic(auto)]

ghost use Rattle.std.specs.Prelude.{◌≡◌, ◌≤◌, ◌+◌, length, IfOk};
ghost use Rattle.layout.specs.Layout.{table_words, row_words};
ghost use Rattle.machine_words.specs.Calls.{lending, tables_of, row_start, row_of, phase_of, misfit_of, is_counted};
ghost use Rattle.machine_words.specs.Line.{waiting_in};
ghost use Rattle.machine_checks.specs.Lent.{Within};
ghost use Rattle.machine_checks.specs.Phases.{first_refusal, idle_refusal};
ghost use Rattle.machine_checks.specs.Phase.{phase_number};
ghost use Rattle.refusals.specs.Numbers.{refusal_in};

use refusals::Refusal;
use std::ops::Range;

// A slot's phase: closed, open, with a message running, waiting with a send.
#[derive(Clone, Copy, Debug, PartialEq, Eq)]
pub enum Phase {
    Closed,
    Idle,
    Running,
    Waiting,
}

impl TryFrom<u32> for Phase {
    ghost use Rattle.std.specs.Prelude.{◌≡◌};
    ghost use Rattle.machine_checks.specs.Phase.{phase_from};

    type Error = Refusal;

    ghost try_from_gives = { λ n r. r ≡ phase_from n };

    // The phase that a word stands for; a word above 3 is none.
    fn try_from(word: u32) -> Result<Phase, Refusal> {
        match word {
            layout::CLOSED => Ok(Phase::Closed),
            layout::IDLE => Ok(Phase::Idle),
            layout::RUNNING => Ok(Phase::Running),
            layout::WAITING => Ok(Phase::Waiting),
            _ => Err(Refusal::Misfit),
        }
    }
}

// Whether the counts of classes, statements, objects and waiting slots are within their limits.
fn is_counted(state: &[u32]) -> bool
    ensures { result ≡ is_counted state.now }
{
    (memory::get(state, layout::CLASS_COUNT_AT) <= layout::CLASSES)
        & (memory::get(state, layout::STATEMENT_COUNT_AT) <= layout::STATEMENTS)
        & (memory::get(state, layout::OBJECT_COUNT_AT) <= layout::OBJECTS)
        & (memory::get(state, layout::LINE_AT) <= layout::SLOTS)
}

// Refuses what is lent where it does not fit: a short state, or parts that are not of one start.
fn misfit(text: &[u8], state: &[u32], values: &[u32]) -> Result<(), Refusal>
    ensures { refusal_in result ≡ misfit_of (lending text.now state.now values.now) }
{
    if state.len() < layout::STATE_WORDS {
        return Err(Refusal::TooShort);
    }
    if (memory::get(state, layout::START_MARK_AT) == layout::START_MARK)
        & (memory::get(state, layout::TEXT_LENGTH_AT) as usize == text.len())
        & (memory::get(state, layout::VALUE_COUNT_AT) as usize == values.len())
        & (values.len() <= layout::VALUES)
        & is_counted(state)
    {
        return Ok(());
    }
    Err(Refusal::Misfit)
}

// The tables of the state.
pub fn tables_of(state: &[u32]) -> &[u32]
    requires { table_words ≤ length state.now }
    ensures { result.now ≡ tables_of state.now }
{
    &state[0..layout::TABLE_WORDS]
}

// Where a slot's row stands in the state.
pub fn row_range(slot: u32) -> Range<usize>
    ensures { (result.start ≡ row_start slot) × (result.end ≡ row_start slot + row_words) }
{
    let start = layout::TABLE_WORDS + slot as usize * layout::ROW_WORDS;
    start..start + layout::ROW_WORDS
}

// A slot's row.
pub fn row_of(state: &[u32], slot: u32) -> &[u32]
    requires { Within state.now slot }
    ensures { result.now ≡ row_of state.now slot }
{
    &state[row_range(slot)]
}

// The words of a slot's waiting send.
pub fn waiting_of(state: &[u32], slot: u32) -> &[u32]
    requires { Within state.now slot }
    ensures { result.now ≡ waiting_in (row_of state.now slot) }
{
    let end = layout::WAITING_AT + layout::WAITING_WORDS;
    &row_of(state, slot)[layout::WAITING_AT..end]
}

// The word of a slot's phase, which may be any.
pub fn phase_of(state: &[u32], slot: u32) -> u32
    ensures { result ≡ phase_of (row_of state.now slot) }
{
    memory::get(state, row_range(slot).start)
}

// What every call tests first: that what is lent fits, that there is such a slot, and that its phase is a known one. Answers the
// slot's phase.
pub fn refusal(text: &[u8], state: &[u32], values: &[u32], slot: u32) -> Result<Phase, Refusal>
    ensures refused { refusal_in result ≡ first_refusal (lending text.now state.now values.now) slot }
    ensures phase { IfOk result (λ p. phase_number p ≡ phase_of (row_of state.now slot)) }
{
    misfit(text, state, values)?;
    if layout::SLOTS <= slot {
        return Err(Refusal::NoSlot);
    }
    Phase::try_from(phase_of(state, slot))
}

// What send and commit test first: the same, and that no send waits and no message runs in the slot. Answers the slot's phase.
pub fn idle_refusal(text: &[u8], state: &[u32], values: &[u32], slot: u32) -> Result<Phase, Refusal>
    ensures refused { refusal_in result ≡ idle_refusal (lending text.now state.now values.now) slot }
    ensures phase { IfOk result (λ p. phase_number p ≡ phase_of (row_of state.now slot)) }
{
    match refusal(text, state, values, slot)? {
        Phase::Waiting => Err(Refusal::Waiting),
        Phase::Running => Err(Refusal::Running),
        phase => Ok(phase),
    }
}
