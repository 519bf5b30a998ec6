// The graph of a plant in two packed arrays, for the walk: the groups of the layout, and the links from each end back
// to its group, sorted.
#![tactic(auto)]

ghost use Rattle.std.specs.Prelude.{◌≡◌, Some, None, true, ◌&&◌, IfSome, ◌≤◌, length};
ghost use Rattle.statements.specs.Sets.{pick, over};
ghost use Rattle.statements.specs.Plants.{word, plant_of, plant_fault};
ghost use Rattle.sort.specs.Sorted.{sorted_by, starts_of};
ghost use Rattle.layout.specs.Layout.{group_ends, group_owners, Front};
ghost use Rattle.layout.specs.Loading.{loaded_of};
ghost use Rattle.graph.specs.Packed.{lent_by, accepts_by, roomy_pack, Packed};
ghost use Rattle.graph.specs.Steps.{Owned, Linkable, Linked};

use format::plant::labels_to;
use format::word::number;
use index::{gather, is_index};
use layout::{Loaded, load, table_room};
use sort::{begin, sort};

// The bytes of an index that the links are packed by, where one is lent, and the moves in service.
#[derive(Clone, Copy)]
pub struct Way<'a> {
    pub index: Option<&'a [u8]>,
    pub mask: u32,
}

// The groups by their ends, and where those of each end begin. Where all arrows are in service the groups stand by
// arrow, and an index gathers them and is checked on the way; otherwise they are sorted by counting, and an index is
// checked alone. Refused where the bytes lent are not the plant's index.
fn order(
    plant: &[u8],
    way: Way,
    ends: &[u16],
    owners: &[u16],
    starts: &mut [u16],
    rev: &mut [u16],
) -> bool
    requires laid { (ends.now ≡ group_ends (plant_of plant.now) way.mask)
        × Owned plant.now way.mask owners.now rev.old }
    requires room { 1025 ≤ length starts.old }
    ensures lent { result ≡ lent_by way.entry.index (plant_of plant.now) }
    ensures starts { result ≡ true → starts.new
        ≡ over (starts_of (word 0 plant.now) ends.now) starts.old }
    ensures sorted { result ≡ true → Front (sorted_by (word 0 plant.now) ends.now
        (group_owners (plant_of plant.now) way.entry.mask)) rev.new }
{
    let count = usize::from(number(plant, 0));
    let all = ends.len() == usize::from(number(plant, 3));
    if let Some(index) = way.index {
        if all {
            begin(ends, count, starts);
            return gather(plant, index, owners, rev);
        }
        let good = is_index(plant, index);
        if !good {
            return false;
        }
    }
    sort(ends, &owners[..ends.len()], count, starts, rev);
    true
}

// Packs the links from the ends back to the groups that own them, and the labels.
fn link(plant: &[u8], way: Way, ends: &[u16], owners: &[u16], graph: &mut [u16]) -> bool
    requires { Linkable plant.now way.mask ends.now owners.now graph.old }
    ensures lent { result ≡ lent_by way.entry.index (plant_of plant.now) }
    ensures linked { result ≡ true → Linked plant.now ends.now
        (group_owners (plant_of plant.now) way.entry.mask) graph.old graph.new }
{
    let at = graph.len() - 2049;
    let (front, back) = graph.split_at_mut(at);
    let (starts, labels) = back.split_at_mut(1025);
    let (_, rev) = front.split_at_mut(at / 2);
    let good = order(plant, way, ends, owners, starts, rev);
    labels_to(plant, labels);
    good
}

// Builds the packed arrays of a plant and the moves in service, the links by an index where one is lent. Where the
// plant is refused, the bytes lent are not its index, or an array is too short for it, none is built, and nothing is
// said of what the arrays hold.
pub fn build(plant: &[u8], way: Way, table: &mut [u16], graph: &mut [u16]) -> Option<Loaded>
    ensures loaded { result ≡ pick (accepts_by way.entry.index plant.now
        && roomy_pack (plant_of plant.now) table.old graph.old)
        (Some (loaded_of (plant_of plant.now) way.entry.mask)) None }
    ensures packed { IfSome result (λ _. Packed (plant_of plant.now) way.entry.mask table.new
        graph.new) }
{
    if graph.len() < 2049 {
        return None;
    }
    let places = (graph.len() - 2049) / 2;
    let loaded = load(plant, way.mask, table, &mut graph[..places])?;
    let room = table_room(table.len());
    let count = usize::from(loaded.arrows);
    let ends = 1026 + 2 * room;
    let owners = 1026 + 3 * room;
    let good = link(
        plant,
        way,
        &table[ends..ends + count],
        &table[owners..owners + room],
        graph,
    );
    if good { Some(loaded) } else { None }
}
