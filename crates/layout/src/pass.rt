// The pass over a plant's arrows: each is checked, and laid out where its move is in service. What begins a group is
// written for every arrow at the place of the next group, and stays where that many groups are counted.
ghost use Rattle.std.specs.Prelude.{◌≡◌, true, ◌+◌, ◌*◌, ◌≤◌, ◌<◌, IfSome, is_some, leb, length, get_or, set, take, replicate};
ghost use Rattle.statements.specs.Sets.{pick, bit};
ghost use Rattle.statements.specs.Plants.{word, plant_of, head_ok};
ghost use Rattle.format.specs.Arrows.{arrow_in};
ghost use Rattle.format.specs.Checks.{arrows_fine};
ghost use Rattle.layout.specs.Passing.{Room, LaidIn};

use crate::Loaded;
use format::arrows::Arrow;
use format::plant::{least_after, rank_of};
use format::word::{number, pair};

// Arrow k of a plant that has it. The place where the first arrow stands is worked out before.
fn arrow_from(plant: &[u8], first: usize, k: u16) -> Arrow
    requires place { first ≡ 16 + 2 * word 0 plant.now }
    requires long { first + 6 * k + 6 ≤ length plant.now }
    ensures { result ≡ arrow_in plant.now k }
{
    let at = first + 6 * usize::from(k);
    let from = pair(plant[at], plant[at + 1]);
    let action = pair(plant[at + 2], plant[at + 3]);
    let to = pair(plant[at + 4], plant[at + 5]);
    Arrow { from, action, to }
}

// 1 for a move in service, and otherwise 0.
fn serves(mask: u32, action: u16) -> u16
    requires { action < 32 }
    ensures { result ≡ pick (bit action mask) 1 0 }
{
    ((mask >> u32::from(action)) % 2) as u16
}

// The number given where no arrow of the state and the move came before: all ranks so far are below `least`. Else 0.
fn opens(arrow: Arrow, least: u64, on: u16) -> u16
    ensures { result ≡ pick (leb least (65536 * (65536 * arrow.from) + 65536 * arrow.action)) on 0 }
{
    if least <= rank_of(arrow.from, arrow.action, 0) {
        on
    } else {
        0
    }
}

// Writes what begins a group at its place: state, move, and the place of its first end.
fn open(table: &mut [u16], states: &mut [u16], room: usize, group: u16, arrow: Arrow, at: u16)
    requires table { (1026 + 4 * room ≤ length table.old) × (group < room) }
    requires states { group < length states.old }
    ensures states { states.new ≡ set states.old group arrow.from }
    ensures table { table.new
        ≡ set (set table.old (1026 + room + group) arrow.action) (1025 + group) at }
{
    let g = usize::from(group);
    states[g] = arrow.from;
    table[1026 + room + g] = arrow.action;
    table[1025 + g] = at;
}

// Writes an end and the group that it is of.
fn append(table: &mut [u16], room: usize, at: u16, to: u16, owner: u16)
    requires { (1026 + 4 * room ≤ length table.old) × (at < room) }
    ensures { table.new
        ≡ set (set table.old (1026 + 2 * room + at) to) (1026 + 3 * room + at) owner }
{
    let a = usize::from(at);
    table[1026 + 2 * room + a] = to;
    table[1026 + 3 * room + a] = owner;
}

// Adds to the number that stands at a place.
fn add(first: &mut [u16], at: u16, more: u16)
    requires room { at < length first.old }
    requires small { get_or first.old at 0 + more < 65536 }
    ensures { first.new ≡ set first.old at (get_or first.old at 0 + more) }
{
    first[usize::from(at)] += more;
}

// Lays out the arrows of a plant with a good header, and counts the groups of each state over zeros; none where an
// arrow is out of range or does not ascend. By itself it has more registers than as a part of the solver.
#[inline(never)]
pub(crate) fn lay(
    plant: &[u8],
    mask: u32,
    table: &mut [u16],
    states: &mut [u16],
    room: usize,
) -> Option<Loaded>
    requires head { head_ok plant.now ≡ true }
    requires room { Room (word 3 plant.now) room table.old states.old }
    requires clear { take (word 0 plant.now) table.old ≡ replicate (word 0 plant.now) 0 }
    ensures fits { is_some result ≡ arrows_fine (plant_of plant.now) }
    ensures laid { IfSome result (λ laid. LaidIn (plant_of plant.now) mask laid.groups laid.arrows room
        table.new states.new) }
{
    let limit = number(plant, 0);
    let actions = number(plant, 1);
    let first = 16 + 2 * usize::from(limit);
    let mut least: u64 = 0;
    let mut groups: u16 = 0;
    let mut arrows: u16 = 0;
    for k in 0..number(plant, 3) {
        let arrow = arrow_from(plant, first, k);
        let next = least_after(arrow, least, limit, actions);
        if next == 0 {
            return None;
        }
        let on = serves(mask, arrow.action);
        let new = opens(arrow, least, on);
        add(table, arrow.from, new);
        open(table, states, room, groups, arrow, arrows);
        append(table, room, arrows, arrow.to, groups - (on - new));
        groups += new;
        arrows += on;
        least = next;
    }
    Some(Loaded { groups, arrows })
}
