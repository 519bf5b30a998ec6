// A game is played in rounds, each of which reaches every goal from the same set and then strikes out the nodes from
// which one fails, or in turns, which strike out after each goal. A goal with as many targets as when it was last
// reached is not reached again: its targets, and so its waits, are the same.
ghost use Rattle.std.specs.Prelude.{◌≡◌, Some, None, true, List, ℕ, ◌+◌, ◌*◌, ◌<◌, ◌≤◌, ltb, length, get_or, take};
ghost use Rattle.statements.specs.Sets.{numbers, every, is_in, filter, over, pick};
ghost use Rattle.sets.proofs.Members.{Sifted};
ghost use Rattle.sort.specs.Steps.{Holds};
ghost use Rattle.game.specs.Marks.{Marked, without};
ghost use Rattle.game.specs.Packed.{places_in, groups_in, rev_in, starts_in, roomy_for, sound_in, playable, held_in};
ghost use Rattle.game.specs.Packed.{waits_in};
ghost use Rattle.game.specs.Cuts.{waits_all};
ghost use Rattle.game.specs.Draining.{drained_in, Ending};
ghost use Rattle.game.specs.Playing.{Fits, Ready, Tested, Worked, Fresh, Sized, SoughtIn, Standing, Rest};
ghost use Rattle.game.specs.Playing.{Prepared, Played, last_eight};

use crate::links::Links;
use crate::reach::{Figures, aim, offers, reach};
use crate::strike::{cut, rest};
use crate::worklist::shrink_all;
use crate::{below, places, rising, tally};
use arrays::{copy, rises};

// When nodes are struck out: after a round of all goals, or after each goal's turn and, by a worklist, with those that
// then cannot go on. The answers are the same: turns save work where one node after another falls.
#[derive(Clone, Copy)]
pub enum Order {
    Rounds,
    Turns,
}

// How many nodes, groups, positions and goals a game has, and the order in which it is played.
#[derive(Clone, Copy)]
pub struct Shape {
    pub nodes: usize,
    pub groups: usize,
    pub positions: usize,
    pub goals: usize,
    pub order: Order,
}

// Each number is above 0. It goes on past a 0: a loop with no way out in the middle is compiled to vector code.
fn covered(sizes: &[u16]) -> bool
    ensures { result ≡ every (length sizes.now) 0 (λ g. ltb 0 (get_or sizes.now g 0)) }
{
    let mut good = true;
    for size in sizes {
        good &= 0 < *size;
    }
    good
}

// Marks the nodes that have a group.
fn open(live: &[u16], n: usize, member: &mut [u16])
    requires { (n ≤ length live.now) × ((n ≤ length member.old) × Holds n (λ x. 65535) member.old) }
    ensures { (x : ℕ) → x < n → ltb (get_or member.new x 0) 1 ≡ ltb 0 (get_or live.now x 0) }
{
    for (x, groups) in live[..n].iter().enumerate() {
        if *groups != 0 {
            member[x] = 0;
        }
    }
}

// Strikes the nodes of a list out of a packed game.
fn strike_in(
    graph: &[u16],
    game: Figures,
    gone: &[u16],
    member: &mut [u16],
    live: &mut [u16],
    dead: &mut [u16],
)
    requires ready { Ready graph.now game.nodes game.groups game.positions game.goals }
    requires inside { (x : ℕ) → is_in x gone.now ≡ true → x < game.nodes }
    requires marked { (set : List ℕ) × Marked (groups_in graph.now game.groups)
        (starts_in graph.now game.nodes) (rev_in graph.now game.positions) set
        member.old live.old dead.old }
    ensures { (set : List ℕ) → Marked (groups_in graph.now game.groups)
        (starts_in graph.now game.nodes) (rev_in graph.now game.positions) set
        member.old live.old dead.old
        → Marked (groups_in graph.now game.groups) (starts_in graph.now game.nodes)
        (rev_in graph.now game.positions) (without gone.now set)
        member.new live.new dead.new }
{
    Links::of(graph, game).strike(gone, member, live, dead);
}

// The set begins: all nodes but those of a list are struck out.
fn begin(
    graph: &[u16],
    game: Figures,
    start: &[u16],
    member: &mut [u16],
    live: &mut [u16],
    dead: &mut [u16],
)
    requires ready { Ready graph.now game.nodes game.groups game.positions game.goals }
    requires start { Sifted (numbers game.nodes 0) start.now }
    requires member { Fresh game.nodes 65535 member.old }
    requires live { Fresh game.nodes 0 live.old }
    requires dead { Fresh game.groups 0 dead.old }
    ensures { Marked (groups_in graph.now game.groups) (starts_in graph.now game.nodes)
        (rev_in graph.now game.positions) start.now
        member.new live.new dead.new }
{
    let nodes = game.nodes;
    let groups = game.groups;
    tally(&graph[..groups], live);
    open(live, nodes, member);
    let mut gone = [0u16; 1024];
    let count = rest(start, nodes, &mut gone);
    strike_in(graph, game, &gone[..count], member, live, dead);
}

// Strikes out the nodes that have no wait for some goal. Takes the nodes of the set, at the front of a list; leaves
// those still in it there, and hands on their number.
fn shrink(
    graph: &[u16],
    game: Figures,
    waits: &[u16],
    list: &mut [u16],
    member: &mut [u16],
    live: &mut [u16],
    dead: &mut [u16],
    gone: &mut [u16],
) -> usize
    requires ready { Ready graph.now game.nodes game.groups game.positions game.goals }
    requires set { (game.kept ≤ length list.old) × Sifted (numbers game.nodes 0) (take game.kept list.old) }
    requires room { (game.goals * game.nodes ≤ length waits.now) × (game.nodes ≤ length gone.old) }
    requires marked { Marked (groups_in graph.now game.groups) (starts_in graph.now game.nodes)
        (rev_in graph.now game.positions) (take game.kept list.old) member.old live.old dead.old }
    ensures number { result ≡ length (filter (waits_all waits.now game.nodes game.goals)
        (take game.kept list.old)) }
    ensures still { take result list.new ≡ filter (waits_all waits.now game.nodes game.goals)
        (take game.kept list.old) }
    ensures marked { Marked (groups_in graph.now game.groups)
        (starts_in graph.now game.nodes) (rev_in graph.now game.positions)
        (take result list.new) member.new live.new dead.new }
{
    let nodes = game.nodes;
    let goals = game.goals;
    let kept = game.kept;
    let left = cut(waits, nodes, goals, list, kept, gone);
    strike_in(graph, game, &gone[..kept - left], member, live, dead);
    left
}

// A goal's turn ends: where it was reached anew the nodes that have no wait for it are struck out, and those that then
// cannot go on.
fn narrow(
    graph: &[u16],
    game: Figures,
    waits: &[u16],
    list: &mut [u16],
    member: &mut [u16],
    live: &mut [u16],
    dead: &mut [u16],
    gone: &mut [u16],
) -> usize
    requires { Ending graph.now game.nodes game.groups game.positions game.goals game.kept
        waits.now list.old member.old live.old dead.old gone.old }
    ensures number { result ≡ length (take result list.new) }
    ensures still { take result list.new ≡ pick game.anew
        (drained_in graph.now game.nodes game.groups game.positions
        (filter (waits_all waits.now game.nodes game.goals) (take game.kept list.old)))
        (take game.kept list.old) }
    ensures marked { Marked (groups_in graph.now game.groups)
        (starts_in graph.now game.nodes) (rev_in graph.now game.positions)
        (take result list.new) member.new live.new dead.new }
{
    if game.anew {
        return shrink_all(graph, game, waits, list, member, live, dead, gone);
    }
    game.kept
}

// The reach to each goal that the figures name, from the same set. A goal with as many targets as when it was last
// reached has the same ones, and its waits stay. In the scratch numbers stand the counters of the groups, and in the
// last 8 how many targets each goal had.
fn seek(
    graph: &[u16],
    game: Figures,
    sizes: &[u16],
    set: &[u16],
    member: &[u16],
    scratch: &mut [u16],
    waits: &mut [u16],
    queue: &mut [u16],
)
    requires ready { Ready graph.now game.nodes game.groups game.positions game.goals }
    requires sizes { Sized graph.now game.groups game.positions sizes.now }
    requires set { Sifted (numbers game.nodes 0) set.now }
    requires member { (game.nodes ≤ length member.now)
        × Standing graph.now game.nodes game.groups game.positions set.now member.now }
    requires room { (game.groups + 8 ≤ length scratch.old) × ((game.goals * game.nodes ≤ length waits.old)
        × ((length queue.old ≡ 1024) × (game.first ≤ game.goals))) }
    ensures sought { SoughtIn graph.now game.nodes game.groups game.positions
        set.now game.first game.goals (last_eight scratch.old) waits.old
        (last_eight scratch.new) waits.new }
    ensures rest { Rest (game.goals * game.nodes) waits.old waits.new }
{
    let nodes = game.nodes;
    let labels = graph.len() - 1024;
    let last = scratch.len() - 8;
    let mut bits = [0u16; 1024];
    offers(&graph[labels..labels + nodes], member, &mut bits);
    for goal in game.first..game.goals {
        let tail = aim(&bits, set, goal, queue);
        if scratch[last + goal] as usize != tail {
            scratch[last + goal] = tail as u16;
            let from = goal * nodes;
            reach(
                graph,
                game,
                sizes,
                member,
                &mut scratch[..last],
                &mut waits[from..from + nodes],
                queue,
                tail,
            );
        }
    }
}

// Kept: rounds and turns begin alike. A struct for their arrays, filled twice, costs 9,200 instructions more a play.
// The set begins, and the rounds are played until one strikes nothing out; leaves the waits of the nodes that are left,
// and returns their number.
fn rounds(
    graph: &[u16],
    game: Figures,
    sizes: &[u16],
    start: &[u16],
    dead: &mut [u16],
    scratch: &mut [u16],
    waits: &mut [u16],
) -> usize
    requires { Prepared graph.now game.nodes game.groups game.positions game.goals sizes.now
        start.now dead.old scratch.old (length waits.old) }
    ensures { Played graph.now game.nodes game.groups game.positions game.goals
        start.now waits.old result waits.new }
{
    let mut member = [65535u16; 1024];
    let mut live = [0u16; 1024];
    begin(graph, game, start, &mut member, &mut live, dead);
    let mut queue = [0u16; 1024];
    let mut list = [0u16; 1024];
    copy(start, &mut list);
    let mut kept = start.len();
    loop {
        let all = Figures {
            first: 0,
            kept,
            ..game
        };
        seek(
            graph,
            all,
            sizes,
            &list[..kept],
            &member,
            scratch,
            waits,
            &mut queue,
        );
        let left = shrink(
            graph,
            all,
            waits,
            &mut list,
            &mut member,
            &mut live,
            dead,
            &mut queue,
        );
        if kept <= left {
            return kept;
        }
        kept = left;
    }
}

// How many targets a goal had when it was last reached.
fn noted(scratch: &[u16], goal: usize) -> u16
    requires { (8 ≤ length scratch.now) × (goal < 8) }
    ensures { result ≡ get_or (last_eight scratch.now) goal 0 }
{
    let last = scratch.len() - 8;
    scratch[last + goal]
}

// How many turns in a row have struck nothing out, after one that left so many of the nodes.
fn still_after(still: usize, kept: usize, left: usize) -> usize
    requires { still < 8 }
    ensures { result ≡ pick (ltb left kept) 0 (still + 1) }
{
    if left < kept { 0 } else { still + 1 }
}

// The goal whose turn it is after another's.
fn goal_after(goal: usize, goals: usize) -> usize
    requires { goal < 8 }
    ensures { result ≡ pick (ltb (goal + 1) goals) (goal + 1) 0 }
{
    if goal + 1 < goals { goal + 1 } else { 0 }
}

// The set begins, and one goal after the other has its turn until as many turns as there are goals have struck nothing
// out; leaves the waits of the nodes that are left, and returns their number.
fn turns(
    graph: &[u16],
    game: Figures,
    sizes: &[u16],
    start: &[u16],
    dead: &mut [u16],
    scratch: &mut [u16],
    waits: &mut [u16],
) -> usize
    requires { Prepared graph.now game.nodes game.groups game.positions game.goals sizes.now
        start.now dead.old scratch.old (length waits.old) }
    ensures { Played graph.now game.nodes game.groups game.positions game.goals
        start.now waits.old result waits.new }
{
    let nodes = game.nodes;
    let goals = game.goals;
    let mut member = [65535u16; 1024];
    let mut live = [0u16; 1024];
    begin(graph, game, start, &mut member, &mut live, dead);
    let mut queue = [0u16; 1024];
    let mut list = [0u16; 1024];
    copy(start, &mut list);
    let mut kept = start.len();
    let mut goal = 0;
    let mut still = 0;
    while still < goals {
        let was = noted(scratch, goal);
        seek(
            graph,
            Figures {
                first: goal,
                goals: goal + 1,
                kept,
                ..game
            },
            sizes,
            &list[..kept],
            &member,
            scratch,
            waits,
            &mut queue,
        );
        let from = goal * nodes;
        let anew = noted(scratch, goal) != was;
        let left = narrow(
            graph,
            Figures {
                goals: 1,
                kept,
                anew,
                ..game
            },
            &waits[from..from + nodes],
            &mut list,
            &mut member,
            &mut live,
            dead,
            &mut queue,
        );
        still = still_after(still, kept, left);
        goal = goal_after(goal, goals);
        kept = left;
    }
    kept
}

// Plays a game in the given order.
fn play(
    graph: &[u16],
    game: Figures,
    order: Order,
    sizes: &[u16],
    start: &[u16],
    dead: &mut [u16],
    scratch: &mut [u16],
    waits: &mut [u16],
) -> usize
    requires { Prepared graph.now game.nodes game.groups game.positions game.goals sizes.now
        start.now dead.old scratch.old (length waits.old) }
    ensures { Played graph.now game.nodes game.groups game.positions game.goals
        start.now waits.old result waits.new }
{
    match order {
        Order::Rounds => rounds(graph, game, sizes, start, dead, scratch, waits),
        Order::Turns => turns(graph, game, sizes, start, dead, scratch, waits),
    }
}

// The figures of a game fit, and there is room for the waits.
fn roomy(shape: Shape, graph: usize, waits: usize) -> bool
    ensures { result ≡ roomy_for shape.nodes shape.groups shape.positions shape.goals graph waits }
{
    let most = places(graph);
    let small = (shape.nodes <= 1024)
        & ((2049 <= graph)
            & ((most <= 8192)
                & ((shape.groups <= most)
                    & ((shape.positions <= most) & ((1 <= shape.goals) & (shape.goals <= 8))))));
    if !small {
        return false;
    }
    shape.goals * shape.nodes <= waits
}

// The starts are in order, all numbers are in range, and the list is a rising one of nodes.
fn sound(graph: &[u16], shape: Shape, start: &[u16]) -> bool
    requires { Fits (length graph.now) shape.nodes shape.groups shape.positions }
    ensures { result ≡ sound_in graph.now shape.nodes shape.groups shape.positions
        start.now }
{
    let nodes = shape.nodes;
    let groups = shape.groups;
    let positions = shape.positions;
    let rev = places(graph.len());
    let starts = graph.len() - 2049;
    rising(&graph[starts..starts + (nodes + 1)], positions)
        & (below(&graph[rev..rev + positions], groups as u16)
            & (below(&graph[..groups], nodes as u16) & rises(start, nodes)))
}

// The positions of each group are counted; where each group has one, the game is played.
fn within(
    graph: &[u16],
    game: Figures,
    order: Order,
    start: &[u16],
    sizes: &mut [u16],
    dead: &mut [u16],
    scratch: &mut [u16],
    waits: &mut [u16],
) -> Option<usize>
    requires tested { Tested graph.now game.nodes game.groups game.positions game.goals start.now
        (length waits.old) }
    requires sizes { Fresh game.groups 0 sizes.old }
    requires dead { Fresh game.groups 0 dead.old }
    requires scratch { Fresh (game.groups + 8) 65535 scratch.old }
    ensures { Worked graph.now game.nodes game.groups game.positions game.goals
        start.now waits.old result waits.new }
{
    let positions = game.positions;
    let groups = game.groups;
    let rev = places(graph.len());
    tally(&graph[rev..rev + positions], sizes);
    if !covered(&sizes[..groups]) {
        return None;
    }
    Some(play(graph, game, order, sizes, start, dead, scratch, waits))
}

// The arrays for a game with at most ROOM groups, whose scratch numbers are as many and 8 more.
fn in_arrays<const ROOM: usize, const SCRATCH: usize>(
    graph: &[u16],
    game: Figures,
    order: Order,
    start: &[u16],
    waits: &mut [u16],
) -> Option<usize>
    requires tested { Tested graph.now game.nodes game.groups game.positions game.goals start.now
        (length waits.old) }
    requires room { (places_in (length graph.now) ≤ ROOM) × ((ROOM ≤ 8192) × (SCRATCH ≡ ROOM + 8)) }
    ensures { Worked graph.now game.nodes game.groups game.positions game.goals
        start.now waits.old result waits.new }
{
    let mut sizes = [0u16; ROOM];
    let mut dead = [0u16; ROOM];
    let mut scratch = [65535u16; SCRATCH];
    within(
        graph,
        game,
        order,
        start,
        &mut sizes,
        &mut dead,
        &mut scratch,
        waits,
    )
}

// Works out a game: which nodes of a list are left when nodes from which some goal cannot be forced are struck out again
// and again, and in how many steps each goal is forced from them; a mark, 65535, for all other nodes. Returns how many
// are left. Where the numbers do not fit, or the arrays are not those of a hypergraph, there is none, and nothing is
// written.
pub fn work_out(graph: &[u16], shape: Shape, start: &[u16], waits: &mut [u16]) -> Option<usize>
    ensures kept { result ≡ pick (playable graph.now shape.nodes shape.groups shape.positions
        shape.goals start.now (length waits.old))
        (Some (length (held_in graph.now shape.nodes shape.groups shape.positions shape.goals
        start.now))) None }
    ensures waits { waits.new ≡ pick (playable graph.now shape.nodes shape.groups
        shape.positions shape.goals start.now (length waits.old))
        (over (waits_in graph.now shape.nodes shape.groups shape.positions shape.goals
        (held_in graph.now shape.nodes shape.groups shape.positions shape.goals
        start.now)) waits.old) waits.old }
{
    if !roomy(shape, graph.len(), waits.len()) {
        return None;
    }
    if !sound(graph, shape, start) {
        return None;
    }
    let game = Figures {
        nodes: shape.nodes,
        groups: shape.groups,
        positions: shape.positions,
        first: 0,
        goals: shape.goals,
        kept: start.len(),
        anew: false,
    };
    // Larger arrays take longer to fill than a small game takes to play.
    if places(graph.len()) <= 2048 {
        return in_arrays::<2048, 2056>(graph, game, shape.order, start, waits);
    }
    in_arrays::<8192, 8200>(graph, game, shape.order, start, waits)
}
