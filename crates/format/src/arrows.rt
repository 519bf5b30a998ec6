// The arrows of a plant: each at its place, for any bytes, and one after another where the bytes are known to be there.
ghost use Rattle.std.specs.Prelude.{◌≡◌, ◌+◌, ◌*◌, ◌≤◌, length, drop};
ghost use Rattle.std.specs.Iterator.{YieldsFirstBy, at_most};
ghost use Rattle.statements.specs.Plants.{word, arrows_from};
ghost use Rattle.format.specs.Arrows.{arrow_in, arrow_from, plant_arrow};

use crate::word::{number, word_at, word_in};

// An arrow: a state, a move made in it, and a state to which it may lead.
#[derive(Clone, Copy)]
pub struct Arrow {
    pub from: u16,
    pub action: u16,
    pub to: u16,
}

// The arrow whose six bytes start at a place, all within the slice.
pub(crate) fn arrow_in(plant: &[u8], place: usize) -> Arrow
    requires { place + 6 ≤ length plant.now }
    ensures { result ≡ arrow_from plant.now place }
{
    let from = word_in(plant, place);
    let action = word_in(plant, place + 2);
    let to = word_in(plant, place + 4);
    Arrow { from, action, to }
}

// Arrow k of a plant; bytes past the end count as 0.
#[tactic(auto, unfolding(crate::specs::Arrows::arrow_in, crate::specs::Arrows::arrow_from))]
pub fn arrow_at(plant: &[u8], k: u16) -> Arrow
    ensures { result ≡ arrow_in plant.now k }
{
    let place = 16 + 2 * usize::from(number(plant, 0)) + 6 * usize::from(k);
    if place + 6 <= plant.len() {
        return arrow_in(plant, place);
    }
    let from = word_at(plant, place);
    let action = word_at(plant, place + 2);
    let to = word_at(plant, place + 4);
    Arrow { from, action, to }
}

// The arrow at a place among those of a plant, for all code outside the check of plants.
pub fn read(plant: &[u8], k: u16) -> Arrow
    ensures { result ≡ arrow_in plant.now k }
{
    arrow_at(plant, k)
}

// A reader of a plant's arrows: it holds the plant's bytes, the place of the next arrow among them, and how many arrows
// are left.
#[derive(Clone, Copy)]
pub struct Arrows<'a> {
    pub plant: &'a [u8],
    pub at: usize,
    left: u16,
    ghost there: { at + 6 * left ≤ length plant.now },
}

impl<'a> Arrows<'a> {
    // The first arrows of a plant, as many as given, which are all within the slice.
    pub(crate) fn new(plant: &'a [u8], count: u16) -> Arrows<'a>
        requires { 16 + 2 * word 0 plant.now + 6 * count ≤ length plant.now }
        ensures { arrows_from result.left (drop result.at result.plant.now)
            ≡ arrows_from count (drop (16 + 2 * word 0 plant.now) plant.now) }
    {
        let at = 16 + 2 * usize::from(number(plant, 0));
        Arrows {
            plant,
            at,
            left: count,
        }
    }
}

impl Iterator for Arrows<'_> {
    type Item = Arrow;

    ghost next_gives = { YieldsFirstBy plant_arrow (λ r. arrows_from r.left (drop r.at r.plant.now)) };

    ghost remaining = { λ r. at_most r.left };

    fn next(&mut self) -> Option<Arrow> {
        if self.left == 0 {
            return None;
        }
        let arrow = arrow_in(self.plant, self.at);
        self.at += 6;
        self.left -= 1;
        Some(arrow)
    }
}
