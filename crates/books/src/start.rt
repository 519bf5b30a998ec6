// The states that strategies may not leave, as a rising list, and how many they are. A making begins with all states, a
// withdrawal with those that the old book keeps; then the ones that are not allowed are struck out.
ghost use Rattle.std.specs.Prelude.{◌≡◌, ◌≤◌, true, length, get_or, take};
ghost use Rattle.statements.specs.Sets.{bit, numbers, filter, over};
ghost use Rattle.statements.specs.Plants.{plant_of, head_ok, allowed};
ghost use Rattle.statements.specs.Books.{book_states, book_kept, book_fault};

use format::plant::labels_to;
use format::word::{bit_at, number};
use rows::{lost_in, staged};

// Lists all states of a plant; returns how many they are.
pub(crate) fn states(plant: &[u8], list: &mut [u16]) -> usize
    requires room { (plant_of plant.now).states ≤ length list.old }
    ensures number { result ≡ (plant_of plant.now).states }
    ensures list { list.new
        ≡ over (numbers (plant_of plant.now).states 0) list.old }
{
    let count = number(plant, 0);
    for x in 0..count {
        list[usize::from(x)] = x;
    }
    usize::from(count)
}

// Lists the states that a book keeps; returns how many they are. Its header says that, and the list is filled from that
// place down.
pub(crate) fn kept(book: &[u8], list: &mut [u16]) -> usize
    requires accepted { book_fault book.now ≡ 0 }
    requires room { book_states book.now ≤ length list.old }
    ensures number { result ≡ length (book_kept book.now) }
    ensures list { list.new ≡ over (book_kept book.now) list.old }
{
    let count = usize::from(number(book, 3));
    let stages = staged(book);
    let mut at = count;
    for x in (0..number(book, 0)).rev() {
        let lost = lost_in(book, stages, u32::from(x));
        if !lost {
            at -= 1;
            list[at] = x;
        }
    }
    count
}

// The label of a state in a list of labels; 0 past its end.
fn label_of(labels: &[u16], state: u16) -> u16
    ensures { result ≡ get_or labels.now state 0 }
{
    labels.get(usize::from(state)).copied().unwrap_or(0)
}

// Strikes out the states whose label has no bit 0. Each state is written to its place and counted off again if it is
// struck out, so that no branch hangs on it; what stands behind the front at the end is not said.
fn strike_out(labels: &[u16], list: &mut [u16], count: usize) -> usize
    requires { count ≤ length list.old }
    ensures number { result ≡ length (filter (λ x. bit 0 (get_or labels.now x 0))
        (take count list.old)) }
    ensures still { take result list.new ≡ filter (λ x. bit 0 (get_or labels.now x 0))
        (take count list.old) }
{
    let mut kept = count;
    for k in 0..count {
        let state = list[k];
        list[k - (count - kept)] = state;
        let stays = bit_at(u32::from(label_of(labels, state)), 0);
        if !stays {
            kept -= 1;
        }
    }
    kept
}

// Strikes out the states that are not allowed. Takes the states kept, at the front of a list, and their number; leaves
// those still kept there, and hands on their number. The labels are read at once.
pub(crate) fn allowed(plant: &[u8], list: &mut [u16], count: usize) -> usize
    requires head { head_ok plant.now ≡ true }
    requires room { count ≤ length list.old }
    ensures number { result
        ≡ length (filter (allowed (plant_of plant.now)) (take count list.old)) }
    ensures still { take result list.new
        ≡ filter (allowed (plant_of plant.now)) (take count list.old) }
{
    let mut labels = [0u16; 1024];
    labels_to(plant, &mut labels);
    strike_out(&labels, list, count)
}
