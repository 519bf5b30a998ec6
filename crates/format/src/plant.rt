// A plant's bytes: header, labels, arrows.
ghost use Rattle.std.specs.Prelude.{◌≡◌, true, ◌&&◌, ◌+◌, ◌-◌, ◌*◌, ◌≤◌, length, get_or, drop};
ghost use Rattle.std.specs.Int.Bits.{bit_and};
ghost use Rattle.format.specs.Checks.{labels_fit, labels_fine, arrows_fine, least_after};
ghost use Rattle.statements.specs.Sets.{pick, over};
ghost use Rattle.statements.specs.Plants.{word, words, arrows_from, plant_of, settled};
ghost use Rattle.statements.specs.Plants.{head_ok, labels_ok, arrows_ok};
ghost use Rattle.statements.specs.Books.{book_long};

use crate::arrows::{Arrow, Arrows};
use crate::word::{bit_at, number, word_at, word_in};

// The header is as document 01 says, with 0 or 1 for its last number, and the slice is as long as the header says.
pub fn head_ok(plant: &[u8]) -> bool
    ensures { result ≡ head_ok plant.now }
{
    if plant.len() < 16 {
        return false;
    }
    let s = usize::from(number(plant, 0));
    let u = number(plant, 1);
    let n = number(plant, 2);
    let e = usize::from(number(plant, 3));
    let labels = number(plant, 4);
    let arrows = usize::from(number(plant, 5));
    let total = usize::from(number(plant, 6));
    let last = number(plant, 7);
    (1 <= s)
        & (s <= 1024)
        & (1 <= u)
        & (u <= 32)
        & (1 <= n)
        & (n <= 8)
        & (e <= 8192)
        & (labels == 16)
        & (arrows == 16 + 2 * s)
        & (total == 16 + (2 * s + 6 * e))
        & (last <= 1)
        & (plant.len() == total)
}

// The plant settles: its last header number is 1.
#[tactic(auto, unfolding(statements::specs::Plants::plant_of))]
pub fn settles(plant: &[u8]) -> bool
    ensures { result ≡ (plant_of plant.now).settles }
{
    number(plant, 7) == 1
}

// A label less bit 9 where that is free.
fn checked(label: u16, free: bool) -> u16
    ensures { result ≡ pick free (label - bit_and label 512) label }
{
    if free { label - (label & 512) } else { label }
}

// No label of the slice's first ones, as many as given from byte 16 on, has a bit above bit `goals`, bit 9 left aside
// where it is free. The labels are joined without a test, and the whole is tested once.
fn labels_within(plant: &[u8], count: usize, goals: u32, free: bool) -> bool
    requires room { 16 + 2 * count ≤ length plant.now }
    requires few { goals ≤ 8 }
    ensures { result ≡ labels_ok free goals (words count (drop 16 plant.now)) }
{
    let limit: u32 = 1 << (goals + 1);
    let mut all = 0;
    for k in 0..count {
        all |= word_in(plant, 16 + 2 * k);
    }
    u32::from(checked(all, free)) < limit
}

// The number by which arrows are compared.
pub fn rank_of(from: u16, action: u16, to: u16) -> u64
    ensures { result ≡ 65536 * (65536 * from) + (65536 * action + to) }
{
    65536 * (65536 * u64::from(from)) + (65536 * u64::from(action) + u64::from(to))
}

// The least rank that the arrow after this one may have; 0 if this one is out of range or its rank is below the least.
pub fn least_after(arrow: Arrow, least: u64, states: u16, moves: u16) -> u64
    ensures { result ≡ least_after states moves least arrow }
{
    let rank = rank_of(arrow.from, arrow.action, arrow.to);
    if (arrow.from < states) & ((arrow.action < moves) & ((arrow.to < states) & (least <= rank))) {
        return rank + 1;
    }
    0
}

// The first arrows, as many as given, are in range and strictly ascend by from, move and to.
fn arrows_ascend(plant: &[u8], count: u16, states: u16, moves: u16) -> bool
    requires { 16 + 2 * word 0 plant.now + 6 * count ≤ length plant.now }
    ensures { result ≡ arrows_ok states moves 0
        (arrows_from count (drop (16 + 2 * word 0 plant.now) plant.now)) }
{
    let mut least = 0;
    for arrow in Arrows::new(plant, count) {
        least = least_after(arrow, least, states, moves);
        if least == 0 {
            return false;
        }
    }
    true
}

// Every label of a plant with a good header is in range.
#[tactic(auto, using(crate::proofs::Header::plant_head))]
pub(crate) fn labels_ok(plant: &[u8]) -> bool
    requires { head_ok plant.now ≡ true }
    ensures { result ≡ labels_fine (plant_of plant.now) }
{
    labels_within(
        plant,
        usize::from(number(plant, 0)),
        u32::from(number(plant, 2)),
        settles(plant),
    )
}

// The header is good and every label is in range: all of a plant's check but that of its arrows.
pub fn before_arrows_ok(plant: &[u8]) -> bool
    ensures { result ≡ (head_ok plant.now && labels_fine (plant_of plant.now)) }
{
    if !head_ok(plant) {
        return false;
    }
    labels_ok(plant)
}

// Every arrow of a plant with a good header is in range, and the arrows strictly ascend.
#[tactic(auto, using(crate::proofs::Header::plant_head), unfolding(statements::specs::Plants::plant_of))]
pub(crate) fn arrows_ok(plant: &[u8]) -> bool
    requires { head_ok plant.now ≡ true }
    ensures { result ≡ arrows_fine (plant_of plant.now) }
{
    arrows_ascend(plant, number(plant, 3), number(plant, 0), number(plant, 1))
}

// The length of a plant's books.
#[tactic(auto, using(crate::proofs::Header::long_staged, crate::proofs::Header::long_plain))]
pub fn book_long(plant: &[u8]) -> usize
    ensures { result ≡ book_long (plant_of plant.now).settles (plant_of plant.now).states
        (plant_of plant.now).goals }
{
    let states = usize::from(number(plant, 0));
    let entries = 4 * (states * usize::from(number(plant, 2)));
    if settles(plant) {
        16 + (2 * states + entries)
    } else {
        16 + entries
    }
}

// The label of a state; 0 for a number that is no state.
pub(crate) fn label(plant: &[u8], state: u32) -> u16
    ensures { result ≡ get_or (plant_of plant.now).labels state 0 }
{
    if u32::from(number(plant, 0)) <= state {
        return 0;
    }
    word_at(plant, 16 + 2 * (state as usize))
}

// Writes the labels of a plant over the front of a list. Where the plant lacks their bytes or the list the room, nothing
// is written.
pub fn labels_to(plant: &[u8], to: &mut [u16])
    ensures { to.new ≡ pick (labels_fit plant.now to.old)
        (over (plant_of plant.now).labels to.old) to.old }
{
    let count = usize::from(number(plant, 0));
    if (plant.len() < 16 + 2 * count) | (to.len() < count) {
        return;
    }
    for x in 0..count {
        to[x] = word_in(plant, 16 + 2 * x);
    }
}

// A state is settled.
#[tactic(auto, unfolding(statements::specs::Plants::settled))]
pub fn is_settled(plant: &[u8], state: u32) -> bool
    ensures { result ≡ settled (plant_of plant.now) state }
{
    bit_at(u32::from(label(plant, state)), 9)
}
