// The index of a plant's arrows by where they end: its exact check, what is gathered by it, and writing it.
#![tactic(auto)]

ghost use Rattle.std.specs.Prelude.{◌≡◌, ◌&&◌, [], ◌∷◌, ◌+◌, ◌*◌, ◌<◌, ◌≤◌, eqb, leb, length, take, MatchOption};
ghost use Rattle.statements.specs.Sets.{pick, over};
ghost use Rattle.statements.specs.Plants.{word, plant_of, head_ok, plant_fault};
ghost use Rattle.statements.specs.Index.{by_end, index_long, index_bytes, same_bytes};
ghost use Rattle.format.specs.Arrows.{arrow_in};
ghost use Rattle.sort.specs.Steps.{Holds};
ghost use Rattle.index.specs.Checked.{opens_well, numbers_in, ascends};
ghost use Rattle.index.specs.Gathered.{climbed, taken, ready, gathers};
ghost use Rattle.index.specs.Steps.{least_next, index_numbers};

use format::arrows::arrow_at;
use format::check_plant;
use format::plant::head_ok;
use format::word::{number, pair, put_all};
use sort::sort;

// The least key that the number after n may have; none if n is no arrow's number or its key is below the least. The
// place where the first arrow's end stands is worked out before, and the plant has all its arrows.
#[tactic(auto, using(crate::proofs::Passing::least_none, crate::proofs::Passing::least_low, crate::proofs::Passing::least_passed, crate::proofs::Passing::end_bytes))]
fn least_next(plant: &[u8], ends: usize, count: usize, least: u64, n: u16) -> Option<u64>
    requires place { ends ≡ 20 + 2 * word 0 plant.now }
    requires long { 16 + 2 * word 0 plant.now + 6 * count ≤ length plant.now }
    ensures { MatchOption result (0 ≡ least_next plant.now count least n)
        (λ next. (0 < next) × (next ≡ least_next plant.now count least n)) }
{
    if count <= (n as usize) {
        return None;
    }
    let at = ends + 6 * (n as usize);
    let key = 65536 * (pair(plant[at], plant[at + 1]) as u64) + (n as u64);
    if key < least {
        return None;
    }
    Some(key + 1)
}

// The length is that of an index of so many arrows, and so are the first four numbers.
fn opens_well(index: &[u8], states: u16, count: u16) -> bool
    ensures { result ≡ opens_well states count index.now }
{
    let long = 8 + 2 * usize::from(count);
    let first = number(index, 0);
    let second = number(index, 1);
    let third = number(index, 2);
    let fourth = usize::from(number(index, 3));
    (index.len() == long) & (first == states) & (second == count) & (third == 8) & (fourth == long)
}

// A plant's header is good, and so is an index's for that plant.
fn opens(plant: &[u8], index: &[u8]) -> bool
    ensures { result ≡ (head_ok plant.now
        && opens_well (word 0 plant.now) (word 3 plant.now) index.now) }
{
    if !head_ok(plant) {
        return false;
    }
    opens_well(index, number(plant, 0), number(plant, 3))
}

// Some bytes are as long as the index of a plant, open as it does, and have numbers of its arrows, by rising end and
// then by rising number. Of a plant that is accepted that is exactly its index.
// Kept: the twin of gather's loop: of a list that a closure writes, a proof would know nothing.
pub fn is_index(plant: &[u8], index: &[u8]) -> bool
    ensures value { result ≡ (head_ok plant.now
        && ascends (plant_of plant.now) index.now) }
    ensures exact { plant_fault plant.now ≡ 0 → result
        ≡ same_bytes index.now (index_bytes (plant_of plant.now)) }
{
    if !opens(plant, index) {
        return false;
    }
    let count = usize::from(number(plant, 3));
    let ends = 20 + 2 * usize::from(number(plant, 0));
    let mut least = 0;
    for k in 0..count {
        let at = 8 + 2 * k;
        let n = pair(index[at], index[at + 1]);
        let Some(next) = least_next(plant, ends, count, least, n) else {
            return false;
        };
        least = next;
    }
    true
}

// Lists the values of a plant's arrows in the order of an index over the front of a list. The index is checked on the
// way: where a number of it does not climb it returns false, and the values before that one are listed. Where plant or
// index has no good header, or a list is too short, it returns false and writes nothing.
pub fn gather(plant: &[u8], index: &[u8], by: &[u16], out: &mut [u16]) -> bool
    ensures fits { result ≡ gathers plant.now index.now by.now
        out.old }
    ensures list { out.new ≡ pick (ready plant.now index.now by.now
        out.old)
        (over (taken by.now (climbed (plant_of plant.now) 0
        (numbers_in (plant_of plant.now) index.now))) out.old) out.old }
    ensures exact { plant_fault plant.now ≡ 0 → word 3 plant.now ≤ length by.now
        → word 3 plant.now ≤ length out.old → result
        ≡ same_bytes index.now (index_bytes (plant_of plant.now)) }
{
    let count = usize::from(number(plant, 3));
    let room = (count <= by.len()) & (count <= out.len());
    if !(opens(plant, index) & room) {
        return false;
    }
    let ends = 20 + 2 * usize::from(number(plant, 0));
    let mut least = 0;
    for k in 0..count {
        let at = 8 + 2 * k;
        let n = pair(index[at], index[at + 1]);
        let Some(next) = least_next(plant, ends, count, least, n) else {
            return false;
        };
        out[k] = by[usize::from(n)];
        least = next;
    }
    true
}

// Lists the end of each arrow, and the number of each.
fn list_ends(plant: &[u8], count: u16, ends: &mut [u16], numbers: &mut [u16])
    requires { (count ≤ length ends.old) × (count ≤ length numbers.old) }
    ensures ends { Holds count (λ n. (arrow_in plant.now n).to) ends.new }
    ensures numbers { Holds count (λ n. n) numbers.new }
{
    for n in 0..count {
        ends[usize::from(n)] = arrow_at(plant, n).to;
        numbers[usize::from(n)] = n;
    }
}

// The numbers of the arrows of an accepted plant, sorted by where the arrows end, over the front of a list.
fn by_end(plant: &[u8], out: &mut [u16])
    requires accepted { plant_fault plant.now ≡ 0 }
    requires room { word 3 plant.now ≤ length out.old }
    ensures { out.new ≡ over (by_end (plant_of plant.now)) out.old }
{
    let states = usize::from(number(plant, 0));
    let count = number(plant, 3);
    let mut ends = [0; 8192];
    let mut numbers = [0; 8192];
    let mut starts = [0; 1025];
    list_ends(plant, count, &mut ends, &mut numbers);
    let last = usize::from(count);
    sort(&ends[..last], &numbers, states, &mut starts, out);
}

// Puts the header's numbers at the front of a list.
fn head(numbers: &mut [u16], states: u16, count: u16)
    requires { (4 ≤ length numbers.old) × (count ≤ 8192) }
    ensures { take 4 numbers.new ≡ states ∷ (count ∷ (8 ∷ (index_long count ∷ []))) }
{
    numbers[0] = states;
    numbers[1] = count;
    numbers[2] = 8;
    numbers[3] = 8 + 2 * count;
}

// Fills the front of a list with the numbers of an accepted plant's index.
fn fill(plant: &[u8], numbers: &mut [u16])
    requires accepted { plant_fault plant.now ≡ 0 }
    requires room { 4 + word 3 plant.now ≤ length numbers.old }
    ensures { take (4 + word 3 plant.now) numbers.new
        ≡ index_numbers (plant_of plant.now) }
{
    head(numbers, number(plant, 0), number(plant, 3));
    by_end(plant, &mut numbers[4..]);
}

// Writes the index of a plant over the front of a buffer. Where the plant is refused or the buffer is too short it
// returns false and writes nothing.
pub fn write(plant: &[u8], out: &mut [u8]) -> bool
    ensures fits { result ≡ (eqb (plant_fault plant.now) 0
        && leb (index_long (length (plant_of plant.now).arrows)) (length out.old)) }
    ensures bytes { out.new ≡ pick (eqb (plant_fault plant.now) 0
        && leb (index_long (length (plant_of plant.now).arrows)) (length out.old))
        (over (index_bytes (plant_of plant.now)) out.old) out.old }
{
    if check_plant(plant).is_err() {
        return false;
    }
    let last = 4 + (number(plant, 3) as usize);
    if out.len() < 2 * last {
        return false;
    }
    let mut numbers = [0u16; 8196];
    fill(plant, &mut numbers);
    put_all(&numbers[..last], out);
    true
}
