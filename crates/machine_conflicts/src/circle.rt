// Circles of waits: the slots that each waiting slot waits for, as eight masks, and those that it leads to by way of others. Bit t of mask s
// is 1 where slot s waits for slot t.
ghost use Rattle.std.specs.Prelude.{◌≤◌, ◌<◌, ◌≡◌, length};
ghost use Rattle.layout.specs.Layout.{state_words};
ghost use Rattle.model.specs.Base.{leads};
ghost use Rattle.machine_words.specs.Line.{in_the_way, waits_from, closes_circle, waiting_send};
ghost use Rattle.machine_words.specs.Said.{asked};
ghost use Rattle.machine_checks.specs.Lent.{Within};
ghost use Rattle.machine_conflicts.specs.Way.{gathered};
ghost use Rattle.machine_conflicts.specs.Circle.{waits_here, relation, Relates, with_mask, Adds, led_on, Through};

use super::clash::clashing;
use super::line::{is_waiting, slot_at, waiting_count, wanted_in};
use machine_checks::{tables_of, waiting_of};
use machine_words::Wanted;

// The slots in the way of the waiting send of a slot that has so many ahead of it.
fn waits_for(text: &[u8], state: &[u32], ahead: u32, slot: u32) -> u32
    requires { Within state.now slot × (ahead ≤ 8) }
    ensures { result ≡ gathered (in_the_way text.now state.now ahead slot (waiting_send state.now slot)) 8 }
{
    let wanted = wanted_in(tables_of(state), waiting_of(state, slot));
    clashing(text, state, ahead, slot, wanted)
}

// Adds bits to a slot's mask.
fn add_mask(masks: &mut [u32; 8], slot: u32, mask: u32)
    ensures { masks.new ≡ with_mask masks.old slot mask }
{
    let old = memory::get(masks, slot as usize);
    memory::put(masks, slot as usize, old | mask);
}

// Adds the slots that the one at a place of the line waits for; none where it does not wait.
fn add_waits(text: &[u8], state: &[u32], place: u32, masks: &mut [u32; 8])
    requires { (state_words ≤ length state.now) × (place ≤ 8) }
    ensures { Adds (waits_here text.now state.now place) masks.old masks.new }
{
    let slot = slot_at(state, place);
    if !is_waiting(state, slot) {
        return;
    }
    let mask = waits_for(text, state, place, slot);
    add_mask(masks, slot, mask);
}

// Adds the slots that each waiting slot waits for.
fn add_all_waits(text: &[u8], state: &[u32], count: u32, masks: &mut [u32; 8])
    requires { (state_words ≤ length state.now) × (count ≤ 8) }
    ensures { Adds (waits_from text.now state.now 0 count) masks.old masks.new }
{
    for place in 0..count {
        add_waits(text, state, place, masks);
    }
}

// Adds to a slot's mask what it leads to by way of another slot.
fn lead_on(masks: &mut [u32; 8], slot: u32, way: u32)
    ensures { masks.new ≡ led_on masks.old slot way }
{
    let mask = memory::get(masks, slot as usize);
    if !catalog::has_bit(mask, way) {
        return;
    }
    let more = memory::get(masks, way as usize);
    add_mask(masks, slot, more);
}

// Adds to each slot's mask what it leads to by way of one slot.
fn lead_through(masks: &mut [u32; 8], way: u32)
    requires { way < 8 }
    ensures { Through way masks.old masks.new }
{
    for slot in 0..layout::SLOTS {
        lead_on(masks, slot, way);
    }
}

// Adds to each slot's mask what it leads to by any way.
fn lead_all(masks: &mut [u32; 8])
    ensures { Relates (leads (relation masks.old) 8) masks.new }
{
    for way in 0..layout::SLOTS {
        lead_through(masks, way);
    }
}

// Whether a slot would wait for itself, by one or more steps, with its send as the last in line.
pub fn closes_circle(text: &[u8], state: &[u32], slot: u32, wanted: Wanted) -> bool
    requires { Within state.now slot }
    ensures { result ≡ closes_circle text.now state.now slot (asked wanted) }
{
    let count = waiting_count(state);
    let mut masks = [0u32; 8];
    add_all_waits(text, state, count, &mut masks);
    let mask = clashing(text, state, count, slot, wanted);
    add_mask(&mut masks, slot, mask);
    lead_all(&mut masks);
    catalog::has_bit(masks[slot as usize], slot)
}
