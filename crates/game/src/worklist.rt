// Striking nodes out at once: a worklist of the nodes that are struck out, each of which takes with it the nodes that
// then cannot go on. A node at which a run is over stays.
ghost use Rattle.std.specs.Prelude.{◌≡◌, Bool, true, false, List, ℕ, ◌+◌, ◌<◌, ◌≤◌, length, take, set};
ghost use Rattle.statements.specs.Sets.{is_in, filter};
ghost use Rattle.game.specs.Marks.{Marked, without};
ghost use Rattle.game.specs.Packed.{groups_in, rev_in, starts_in};
ghost use Rattle.game.specs.Cuts.{waits_all};
ghost use Rattle.game.specs.Playing.{Ready};
ghost use Rattle.game.specs.Draining.{drained_in, Emptied, Once, Unmarked, Draining, Taken, Grown, Fails, remains};
ghost use Rattle.game.specs.Draining.{Ending};

use crate::reach::Figures;
use crate::strike::cut;
use crate::{Line, places};
use format::word::bit_at;

// Puts a node on the worklist: it is not marked any more.
fn push(member: &mut [u16], list: &mut [u16], tail: usize, node: u16) -> usize
    requires room { (tail < length list.old) × (node < length member.old) }
    requires once { is_in node (take tail list.old) ≡ false }
    ensures number { result ≡ tail + 1 }
    ensures list { list.new ≡ set list.old tail node }
    ensures member { member.new ≡ set member.old node 65535 }
{
    list[tail] = node;
    member[node as usize] = 65535;
    tail + 1
}

// Puts the nodes of a list on an empty worklist; returns how many they are.
fn load(gone: &[u16], member: &mut [u16], list: &mut [u16]) -> usize
    requires room { (length gone.now ≤ length list.old)
        × ((x : ℕ) → is_in x gone.now ≡ true → x < length member.old) }
    requires once { Once gone.now (length gone.now) }
    ensures number { result ≡ length gone.now }
    ensures list { take result list.new ≡ gone.now }
    ensures member { Unmarked gone.now member.old member.new }
{
    let mut tail = 0;
    for node in gone {
        tail = push(member, list, tail, *node);
    }
    tail
}

// A packed game that can be worked out.
#[derive(Clone, Copy)]
struct Game<'a> {
    graph: &'a [u16],
    figures: Figures,
    ghost ready: { Ready graph.now figures.nodes figures.groups figures.positions figures.goals },
}

impl Game<'_> {
    // A group dies, if it is not dead. Where it was the last of a node of the set, the node goes on the worklist, or, if a
    // run is over there, only loses its mark.
    fn kill(
        &self,
        member: &mut [u16],
        live: &mut [u16],
        dead: &mut [u16],
        list: &mut [u16],
        tail: usize,
        group: u16,
    ) -> usize
        requires state { (ok : ℕ → Bool) × (after : ℕ → Bool) × (set : List ℕ) × (first : List ℕ)
            × Draining self.now.graph.now self.now.figures.nodes self.now.figures.groups self.now.figures.positions ok set first member.old live.old
            dead.old list.old tail
            × Fails (starts_in self.now.graph.now self.now.figures.nodes) (rev_in self.now.graph.now self.now.figures.positions) ok after
            (without (take tail list.old) set) group }
        ensures state { (ok after : ℕ → Bool) (set first : List ℕ)
            → Draining self.now.graph.now self.now.figures.nodes self.now.figures.groups self.now.figures.positions ok set first
            member.old live.old dead.old list.old tail
            → Fails (starts_in self.now.graph.now self.now.figures.nodes) (rev_in self.now.graph.now self.now.figures.positions) ok after
            (without (take tail list.old) set) group
            → Draining self.now.graph.now self.now.figures.nodes self.now.figures.groups self.now.figures.positions after set first
            member.new live.new dead.new list.new result }
        ensures list { Grown list.old list.new tail result }
    {
        let graph = self.graph;
        let g = group as usize;
        if 0 < dead[g] {
            return tail;
        }
        dead[g] = 1;
        let node = graph[g];
        let f = node as usize;
        let left = live[f] - 1;
        live[f] = left;
        if (0 < left) | (0 < member[f]) {
            return tail;
        }
        let labels = graph.len() - 1024;
        if bit_at(graph[labels + f] as u32, 15) {
            member[f] = 65535;
            return tail;
        }
        push(member, list, tail, node)
    }

    // Takes the node at the worklist's head off it: each group with an end at it dies.
    fn take_off(
        &self,
        member: &mut [u16],
        live: &mut [u16],
        dead: &mut [u16],
        list: &mut [u16],
        line: Line,
    ) -> usize
        requires some { line.head < line.tail }
        requires state { (set : List ℕ) × (first : List ℕ)
            × Taken self.now.graph.now self.now.figures.nodes self.now.figures.groups self.now.figures.positions set first member.old live.old
            dead.old list.old line.head line.tail }
        ensures state { (set first : List ℕ)
            → Taken self.now.graph.now self.now.figures.nodes self.now.figures.groups self.now.figures.positions set first member.old
            live.old dead.old list.old line.head line.tail
            → Taken self.now.graph.now self.now.figures.nodes self.now.figures.groups self.now.figures.positions set first member.new
            live.new dead.new list.new (line.head + 1) result }
    {
        let graph = self.graph;
        let head = line.head;
        let x = list[head] as usize;
        let rev = places(graph.len());
        let starts = graph.len() - 2049;
        let lo = graph[starts + x] as usize;
        let hi = graph[starts + (x + 1)] as usize;
        let mut tail = line.tail;
        for group in &graph[rev + lo..rev + hi] {
            tail = self.kill(member, live, dead, list, tail, *group);
        }
        tail
    }

    // Runs the worklist until it is empty; returns how many nodes went on it.
    fn drain(
        &self,
        member: &mut [u16],
        live: &mut [u16],
        dead: &mut [u16],
        list: &mut [u16],
        first: usize,
    ) -> usize
        requires state { (set : List ℕ)
            × Taken self.now.graph.now self.now.figures.nodes self.now.figures.groups self.now.figures.positions set (take first list.old) member.old
            live.old dead.old list.old 0 first }
        ensures emptied { (set : List ℕ)
            → Taken self.now.graph.now self.now.figures.nodes self.now.figures.groups self.now.figures.positions set
            (take first list.old) member.old live.old dead.old
            list.old 0 first
            → Emptied set (drained_in self.now.graph.now self.now.figures.nodes self.now.figures.groups self.now.figures.positions
            (without (take first list.old) set)) list.new result }
        ensures marked { (set : List ℕ)
            → Taken self.now.graph.now self.now.figures.nodes self.now.figures.groups self.now.figures.positions set
            (take first list.old) member.old live.old dead.old
            list.old 0 first
            → Marked (groups_in self.now.graph.now self.now.figures.groups) (starts_in self.now.graph.now self.now.figures.nodes)
            (rev_in self.now.graph.now self.now.figures.positions)
            (drained_in self.now.graph.now self.now.figures.nodes self.now.figures.groups self.now.figures.positions
            (without (take first list.old) set))
            member.new live.new dead.new }
    {
        let mut head = 0;
        let mut tail = first;
        while head < tail {
            tail = self.take_off(member, live, dead, list, Line { head, tail });
            head += 1;
        }
        tail
    }
}

// Strikes out those of the first numbers of a list that fail a test: the others close up at its front, in their order.
// Hands on how many are left, one less for each that is struck out.
fn sift<F: Fn(u16) -> bool>(list: &mut [u16], count: usize, keep: F) -> usize
    requires room { count ≤ length list.old }
    requires callable { (x : ℕ) → is_in x (take count list.old) ≡ true → F.pre keep x }
    ensures number { (test : ℕ → Bool) → ((x : ℕ) (b : Bool) → F.post keep x b → b ≡ test x)
        → result ≡ length (filter test (take count list.old)) }
    ensures still { (test : ℕ → Bool) → ((x : ℕ) (b : Bool) → F.post keep x b → b ≡ test x)
        → take result list.new ≡ filter test (take count list.old) }
{
    let mut kept = count;
    for k in 0..count {
        let number = list[k];
        if keep(number) {
            list[k - (count - kept)] = number;
        } else {
            kept -= 1;
        }
    }
    kept
}

// Cuts a list down to the nodes that are marked or at which a run is over: takes the nodes held, at the front of a
// list, and their number; leaves those still held there, and hands on their number.
fn keep(labels: &[u16], member: &[u16], list: &mut [u16], count: usize) -> usize
    requires room { count ≤ length list.old }
    requires nodes { (x : ℕ) → is_in x (take count list.old) ≡ true
        → (x < length labels.now) × (x < length member.now) }
    ensures number { result ≡ length (filter (remains labels.now member.now)
        (take count list.old)) }
    ensures still { take result list.new ≡ filter (remains labels.now member.now)
        (take count list.old) }
{
    sift(list, count, |node| {
        (member[node as usize] < 1) | bit_at(u32::from(labels[node as usize]), 15)
    })
}

// Strikes out the nodes that have no wait for some goal, and those that then cannot go on. Takes the nodes of the set,
// at the front of a list; leaves those still in it there, and hands on their number.
pub(crate) fn shrink_all(
    graph: &[u16],
    game: Figures,
    waits: &[u16],
    list: &mut [u16],
    member: &mut [u16],
    live: &mut [u16],
    dead: &mut [u16],
    gone: &mut [u16],
) -> usize
    requires { Ending graph.now game.nodes game.groups game.positions game.goals game.kept
        waits.now list.old member.old live.old dead.old gone.old }
    ensures number { result ≡ length (drained_in graph.now game.nodes game.groups game.positions
        (filter (waits_all waits.now game.nodes game.goals)
        (take game.kept list.old))) }
    ensures still { take result list.new
        ≡ drained_in graph.now game.nodes game.groups game.positions
        (filter (waits_all waits.now game.nodes game.goals) (take game.kept list.old)) }
    ensures marked { Marked (groups_in graph.now game.groups)
        (starts_in graph.now game.nodes) (rev_in graph.now game.positions)
        (take result list.new) member.new live.new dead.new }
{
    let nodes = game.nodes;
    let goals = game.goals;
    let kept = game.kept;
    let left = cut(waits, nodes, goals, list, kept, gone);
    if kept <= left {
        return kept;
    }
    let mut line = [0u16; 1024];
    let first = load(&gone[..kept - left], member, &mut line);
    let ready = Game {
        graph,
        figures: game,
    };
    ready.drain(member, live, dead, &mut line, first);
    let labels = graph.len() - 1024;
    keep(&graph[labels..labels + nodes], member, list, left)
}
