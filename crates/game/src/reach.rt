// The reach to a goal within a set: its targets in line, then the walk.
ghost use Rattle.std.specs.Prelude.{◌≡◌, true, ℕ, ◌+◌, ◌<◌, ◌≤◌, length, take, replicate};
ghost use Rattle.statements.specs.Sets.{bit, is_in, filter};
ghost use Rattle.arrays.specs.Lists.{zeroed};
ghost use Rattle.game.specs.Walked.{walked_waits};
ghost use Rattle.game.specs.Packed.{groups_in, rev_in, starts_in, goal_of};
ghost use Rattle.game.specs.Cuts.{offered, Offers};
ghost use Rattle.game.specs.Playing.{Lined};

use crate::links::Links;
use arrays::{copy, mark};
use format::word::bit_at;

// How many nodes, groups and positions a game has, the first of the goals to be looked at and the end of these, how
// many nodes the set has, and whether the goal whose turn it is was reached anew.
#[derive(Clone, Copy)]
pub struct Figures {
    pub nodes: usize,
    pub groups: usize,
    pub positions: usize,
    pub first: usize,
    pub goals: usize,
    pub kept: usize,
    pub anew: bool,
}

// Bit i of a number, with no test of i: it is read for each node and goal.
// Kept: tried, and the test of i in `format::word::bit_at` makes the search for all goals 6.8 percent slower.
fn bit_in(v: u32, i: u32) -> bool
    requires { i < 32 }
    ensures { result ≡ bit i v }
{
    (v >> i) % 2 == 1
}

// What a node offers the goals, bit 1 + i for goal i: its label's bits where it is marked by 0, none where it is not, and
// all where a run is over.
#[tactic(auto, unfolding(crate::specs::Cuts::offered))]
fn offer(label: u16, out: u16) -> u16
    ensures { result ≡ offered label out }
{
    if bit_at(u32::from(label), 15) {
        return 65535;
    }
    if out < 1 {
        return label;
    }
    0
}

// Writes what each node offers. It is worked out once for a round, and each goal then looks at one bit.
pub(crate) fn offers(labels: &[u16], member: &[u16], bits: &mut [u16])
    requires { (length labels.now ≤ length member.now) × (length labels.now ≤ length bits.old) }
    ensures { Offers labels.now member.now (length labels.now)
        bits.new }
{
    for x in 0..labels.len() {
        bits[x] = offer(labels[x], member[x]);
    }
}

// Lists the nodes that offer something to a goal, at which a reach to it begins; returns how many they are.
pub(crate) fn aim(bits: &[u16], list: &[u16], goal: usize, queue: &mut [u16]) -> usize
    requires nodes { (x : ℕ) → is_in x list.now ≡ true → x < length bits.now }
    requires room { (goal < 8) × ((length list.now ≤ length queue.old) × (length list.now ≤ 1024)) }
    ensures number { result ≡ length (filter (goal_of bits.now goal) list.now) }
    ensures list { take result queue.new ≡ filter (goal_of bits.now goal) list.now }
{
    let bit = goal as u32 + 1;
    let mut tail = 0;
    for node in list {
        queue[tail] = *node;
        if bit_in(u32::from(bits[*node as usize]), bit) {
            tail += 1;
        }
    }
    tail
}

// The walk from the targets in line, where every wait is the mark: the wait of each node.
fn from_line(
    graph: &[u16],
    game: Figures,
    sizes: &[u16],
    member: &[u16],
    counts: &mut [u16],
    waits: &mut [u16],
    queue: &mut [u16],
    tail: usize,
)
    requires lined { Lined graph.now game.nodes game.groups game.positions sizes.now member.now
        counts.old queue.old tail }
    requires waits { waits.old ≡ replicate game.nodes 65535 }
    ensures { waits.new ≡ walked_waits (groups_in graph.now game.groups)
        (starts_in graph.now game.nodes) (rev_in graph.now game.positions)
        member.now (zeroed (take tail queue.old) (replicate game.nodes 65535)) }
{
    mark(&queue[..tail], waits);
    copy(&sizes[..game.groups], counts);
    Links::of(graph, game).spread(member, counts, waits, queue, tail);
}

// The reach from the targets in line: the wait of each node, from an array of waits that are all the mark.
pub(crate) fn reach(
    graph: &[u16],
    game: Figures,
    sizes: &[u16],
    member: &[u16],
    counts: &mut [u16],
    waits: &mut [u16],
    queue: &mut [u16],
    tail: usize,
)
    requires lined { Lined graph.now game.nodes game.groups game.positions sizes.now member.now
        counts.old queue.old tail }
    requires waits { length waits.old ≡ game.nodes }
    ensures { waits.new ≡ walked_waits (groups_in graph.now game.groups)
        (starts_in graph.now game.nodes) (rev_in graph.now game.positions)
        member.now (zeroed (take tail queue.old) (replicate game.nodes 65535)) }
{
    let nodes = game.nodes;
    let mut held = [65535u16; 1024];
    from_line(
        graph,
        game,
        sizes,
        member,
        counts,
        &mut held[..nodes],
        queue,
        tail,
    );
    copy(&held[..nodes], waits);
}
