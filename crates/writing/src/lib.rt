// Writing: the bytes of a book, and the list of dropped states.
#![tactic(auto)]

ghost use Rattle.std.specs.Prelude.{◌≡◌, List, ℕ, ◌≤◌, length};
ghost use Rattle.statements.specs.Sets.{over};
ghost use Rattle.statements.specs.Plants.{plant_of, plant_fault};
ghost use Rattle.statements.specs.Books.{head_of};
ghost use Rattle.graph.specs.Packed.{accepts_by};
ghost use Rattle.writing.specs.Written.{written_long, written_book, dropped_count, written_drops};

use format::plant::book_long;
use format::word::{number, put, put_all};
use graph::Way;
use rows::{lost_in, staged};
use solve::solve;

// The header: eight numbers, the last the length by the plant's sort.
fn head(plant: &[u8], mask: u32, kept: u16, out: &mut [u8])
    requires accepted { plant_fault plant.now ≡ 0 }
    requires room { 16 ≤ length out.old }
    ensures { (states : List ℕ) → length states ≡ kept →
        out.new ≡ over (head_of (plant_of plant.now) mask states) out.old }
{
    let states = number(plant, 0);
    let moves = number(plant, 1);
    let goals = number(plant, 2);
    let low = (mask % 65536) as u16;
    let high = (mask / 65536) as u16;
    let long = book_long(plant) as u16;
    let numbers = [states, moves, goals, kept, low, high, 16, long];
    put_all(&numbers, out);
}

// Writes the book for the moves in service when strategies may not leave the states of a start, a rising list, by an
// index where one is lent; returns its length. Where the plant is refused, the bytes lent are not its index, the start
// is no such list or the buffer is too short it returns None and writes nothing.
pub fn book(plant: &[u8], way: Way, start: &[u16], out: &mut [u8]) -> Option<u32>
    ensures long { result ≡ written_long (accepts_by way.entry.index plant.now)
        plant.now start.now out.old }
    ensures bytes { out.new
        ≡ written_book (accepts_by way.entry.index plant.now)
        plant.now way.entry.mask start.now out.old }
{
    let kept = solve(plant, way, start, out)?;
    head(plant, way.mask, kept, out);
    Some(book_long(plant) as u32)
}

// Kept: an Option for the count is no plainer, since each caller has room and would take the number out again.
// Lists the states kept in one book and lost in another, rising; returns how many. Where the drop buffer has no room
// for every state it returns 0 and writes nothing.
pub fn dropped(before: &[u8], after: &[u8], drops: &mut [u8]) -> u32
    ensures count { result ≡ dropped_count before.now after.now drops.old }
    ensures bytes { drops.new ≡
        written_drops before.now after.now drops.old }
{
    let states = number(before, 0);
    if drops.len() < 2 * usize::from(states) {
        return 0;
    }
    let stages_before = staged(before);
    let stages_after = staged(after);
    let mut at: usize = 0;
    for state in 0..states {
        let was_lost = lost_in(before, stages_before, u32::from(state));
        if !was_lost & lost_in(after, stages_after, u32::from(state)) {
            put(drops, at, state);
            at += 2;
        }
    }
    (at / 2) as u32
}
