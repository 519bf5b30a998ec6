// The solver: kept states, stages, waits and moves of a plant with moves in service, written as the rows of a book.
#![tactic(auto)]

mod moves;
mod rows;
mod search;
mod stages;

ghost use Rattle.std.specs.Prelude.{◌≡◌, true, ◌||◌, [], ℕ, ◌+◌, ◌*◌, ◌≤◌, length, is_some};
ghost use Rattle.statements.specs.Sets.{numbers};
ghost use Rattle.statements.specs.Plants.{plant_of, plant_fault};
ghost use Rattle.statements.specs.Kept.{kept_within};
ghost use Rattle.arrays.specs.Lists.{among, rising};
ghost use Rattle.sets.proofs.Members.{Sifted};
ghost use Rattle.graph.specs.Packed.{accepts_by, Packed};
ghost use Rattle.layout.specs.Layout.{group_states, group_ends};
ghost use Rattle.solve.specs.Graphed.{Wide};
ghost use Rattle.solve.specs.Rows.{row_size, rows_long, rows_over, solved_kept, solved_rows};

use arrays::rises;
use format::check_plant;
use format::plant::{book_long, settles};
use format::word::number;
use graph::{Way, build};
use index::is_index;
use layout::Loaded;
use moves::{Frame, Moves};
use rows::blank;

// The figures of a plant with groups loaded.
fn frame_of(plant: &[u8], way: Way, loaded: Loaded) -> Frame
    requires { plant_fault plant.now ≡ 0 }
    ensures { result ≡ record {
      mask = way.entry.mask;
      none = (plant_of plant.now).moves;
      states = (plant_of plant.now).states;
      goals = (plant_of plant.now).goals;
      size = row_size (plant_of plant.now);
      groups = loaded.groups;
      positions = loaded.arrows;
      eager = (is_some way.entry.index || (plant_of plant.now).settles);
    } }
{
    let goals = number(plant, 2) as usize;
    let stages = settles(plant);
    let mut size = 2 * goals;
    if stages {
        size += 1;
    }
    Frame {
        mask: way.mask,
        none: number(plant, 1),
        states: number(plant, 0) as usize,
        goals,
        size,
        groups: loaded.groups as usize,
        positions: loaded.arrows as usize,
        eager: way.index.is_some() | stages,
    }
}

// The rows of an accepted plant, from what was loaded; returns the number of states kept.
fn solved(
    plant: &[u8],
    way: Way,
    loaded: Loaded,
    table: &[u16],
    graph: &mut [u16],
    start: &[u16],
    out: &mut [u8],
) -> usize
    requires accepted { plant_fault plant.now ≡ 0 }
    requires loaded { (loaded.groups ≡ length (group_states (plant_of plant.now) way.mask))
        × (loaded.arrows ≡ length (group_ends (plant_of plant.now) way.mask)) }
    requires packed { Packed (plant_of plant.now) way.mask table.now graph.old
        × Wide (plant_of plant.now) (length table.now) (length graph.old) }
    requires set { Sifted (numbers (plant_of plant.now).states 0) start.now }
    requires room { 16 + 2 * rows_long (plant_of plant.now) ≤ length out.old }
    ensures count { result ≡ length (kept_within (plant_of plant.now) way.entry.mask (among start.now)) }
    ensures rows { out.new ≡ rows_over (plant_of plant.now) way.entry.mask
        (kept_within (plant_of plant.now) way.entry.mask (among start.now)) out.old }
{
    let frame = frame_of(plant, way, loaded);
    blank(plant, frame.states * frame.size, out);
    let moves = Moves {
        plant,
        table,
        frame,
    };
    if settles(plant) {
        return moves.by_stages(graph, start, out);
    }
    moves.at_once(graph, start, out)
}

// A plant is accepted, and where an index is lent so is that.
fn is_good(plant: &[u8], index: Option<&[u8]>) -> bool
    ensures { result ≡ accepts_by index.entry plant.now }
{
    if check_plant(plant).is_err() {
        return false;
    }
    if let Some(index) = index {
        return is_index(plant, index);
    }
    true
}

// With no state to start from none is kept: there are marks in all rows, where the plant and an index lent are accepted.
fn nothing(plant: &[u8], index: Option<&[u8]>, out: &mut [u8]) -> Option<u16>
    requires { 16 + 2 * rows_long (plant_of plant.now) ≤ length out.old }
    ensures count { (mask : ℕ) → result ≡ solved_kept (accepts_by index.entry plant.now)
        plant.now mask [] out.old }
    ensures rows { (mask : ℕ) → out.new
        ≡ solved_rows (accepts_by index.entry plant.now)
        plant.now mask [] out.old }
{
    if !is_good(plant, index) {
        return None;
    }
    blank(plant, (book_long(plant) - 16) / 2, out);
    Some(0)
}

// The rows, by way of a table and a graph with room for the plant's arrows.
fn within(
    plant: &[u8],
    way: Way,
    start: &[u16],
    table: &mut [u16],
    graph: &mut [u16],
    out: &mut [u8],
) -> Option<u16>
    requires set { rising 0 (plant_of plant.now).states start.now ≡ true }
    requires room { 16 + 2 * rows_long (plant_of plant.now) ≤ length out.old }
    requires wide { plant_fault plant.now ≡ 0
        → Wide (plant_of plant.now) (length table.old) (length graph.old) }
    ensures count { result ≡ solved_kept (accepts_by way.entry.index plant.now)
        plant.now way.entry.mask start.now out.old }
    ensures rows { out.new
        ≡ solved_rows (accepts_by way.entry.index plant.now)
        plant.now way.entry.mask start.now out.old }
{
    let loaded = build(plant, way, table, graph)?;
    Some(solved(plant, way, loaded, table, graph, start, out) as u16)
}

// The rows, by way of arrays of these lengths. What a plant with few arrows saves in filling shows where the rest takes
// little time.
fn in_arrays<const TABLE: usize, const GRAPH: usize>(
    plant: &[u8],
    way: Way,
    start: &[u16],
    out: &mut [u8],
) -> Option<u16>
    requires lengths { (TABLE ≤ 33794) × (GRAPH ≤ 18433) }
    requires wide { plant_fault plant.now ≡ 0 → Wide (plant_of plant.now) TABLE GRAPH }
    requires set { rising 0 (plant_of plant.now).states start.now ≡ true }
    requires room { 16 + 2 * rows_long (plant_of plant.now) ≤ length out.old }
    ensures count { result ≡ solved_kept (accepts_by way.entry.index plant.now)
        plant.now way.entry.mask start.now out.old }
    ensures rows { out.new
        ≡ solved_rows (accepts_by way.entry.index plant.now)
        plant.now way.entry.mask start.now out.old }
{
    let mut table = [0u16; TABLE];
    let mut graph = [0u16; GRAPH];
    within(plant, way, start, &mut table, &mut graph, out)
}

// Writes the rows of the book for a plant, the moves in service and a start, a rising list of states, behind the header
// of a book buffer, by an index where one is lent. Returns the number kept. Where the plant is refused, the bytes lent
// are not its index, the start is no such list or the buffer is too short there is none, and nothing is written.
pub fn solve(plant: &[u8], way: Way, start: &[u16], out: &mut [u8]) -> Option<u16>
    ensures count { result ≡ solved_kept (accepts_by way.entry.index plant.now)
        plant.now way.entry.mask start.now out.old }
    ensures rows { out.new
        ≡ solved_rows (accepts_by way.entry.index plant.now)
        plant.now way.entry.mask start.now out.old }
{
    let states = number(plant, 0) as usize;
    if !rises(start, states) | (out.len() < book_long(plant)) {
        return None;
    }
    if start.len() == 0 {
        return nothing(plant, way.index, out);
    }
    if number(plant, 3) <= 2048 {
        return in_arrays::<9218, 6145>(plant, way, start, out);
    }
    in_arrays::<33794, 18433>(plant, way, start, out)
}
