// The layout of the moves in service in a flat table: groups, one for each available move of a state, with their ends.
// It is loaded from a plant by one pass over the arrows, which checks them too.
#![tactic(auto)]

mod pass;
mod sums;

ghost use Rattle.std.specs.Prelude.{◌≡◌, Some, None, true, ◌&&◌, IfSome, ◌+◌, ◌*◌, ◌≤◌, eqb, length};
ghost use Rattle.statements.specs.Sets.{pick};
ghost use Rattle.statements.specs.Plants.{word, plant_of, head_ok, plant_fault};
ghost use Rattle.format.specs.Checks.{arrows_fine};
ghost use Rattle.layout.specs.Layout.{table_room, roomy, Layout};
ghost use Rattle.layout.specs.Loading.{loaded_of};
ghost use Rattle.layout.specs.Passing.{Room};

use format::plant::before_arrows_ok;
use format::word::number;
use pass::lay;
use sums::bound;

// How many groups a layout has, and how many ends these have.
#[derive(Clone, Copy)]
pub struct Loaded {
    pub groups: u16,
    pub arrows: u16,
}

// How many groups, and how many ends, a table of so many numbers has room for.
#[tactic(auto, unfolding(crate::specs::Layout::table_room))]
pub fn table_room(numbers: usize) -> usize
    ensures value { result ≡ table_room numbers }
    ensures fits { 1026 ≤ numbers → 1026 + 4 * result ≤ numbers }
{
    numbers.saturating_sub(1026) / 4
}

// Lays out a plant with good header and labels: the arrows, and then the sums. None where the arrows are refused.
fn fill(
    plant: &[u8],
    mask: u32,
    table: &mut [u16],
    states: &mut [u16],
    room: usize,
) -> Option<Loaded>
    requires head { head_ok plant.now ≡ true }
    requires room { Room (word 3 plant.now) room table.old states.old }
    requires place { room ≡ table_room (length table.old) }
    ensures loaded { result
        ≡ pick (arrows_fine (plant_of plant.now)) (Some (loaded_of (plant_of plant.now) mask)) None }
    ensures room { IfSome result (λ loaded. (1026 ≤ length table.old)
        × (loaded.arrows ≤ table_room (length table.old))) }
    ensures laid { IfSome result (λ _. Layout (plant_of plant.now) mask table.new states.new) }
{
    let count = number(plant, 0);
    table[..usize::from(count)].fill(0);
    let laid = lay(plant, mask, table, states, room)?;
    bound(&mut table[..1025], count);
    table[1025 + usize::from(laid.groups)] = laid.arrows;
    Some(laid)
}

// Loads the layout of a plant and the moves in service. Where the plant is refused, or an array is too short for it,
// none is loaded, and nothing is said of what the arrays hold.
pub fn load(plant: &[u8], mask: u32, table: &mut [u16], states: &mut [u16]) -> Option<Loaded>
    ensures loaded { result
        ≡ pick (eqb (plant_fault plant.now) 0 && roomy (plant_of plant.now) table.old states.old)
        (Some (loaded_of (plant_of plant.now) mask)) None }
    ensures room { IfSome result (λ loaded. (1026 ≤ length table.old)
        × (loaded.arrows ≤ table_room (length table.old))) }
    ensures laid { IfSome result (λ _. Layout (plant_of plant.now) mask table.new states.new) }
{
    let count = usize::from(number(plant, 3));
    let room = table_room(table.len());
    let roomy = (1026 <= table.len()) & ((count <= room) & (count <= states.len()));
    let fine = roomy & before_arrows_ok(plant);
    if fine {
        fill(plant, mask, table, states, room)
    } else {
        None
    }
}
