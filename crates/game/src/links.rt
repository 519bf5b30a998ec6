// The groups of a game by the nodes that they have an end at, and the walk along them from node to node.
ghost use Rattle.std.specs.Prelude.{◌≡◌, ℕ, ◌+◌, ◌<◌, length, get_or};
ghost use Rattle.statements.specs.Sets.{over};
ghost use Rattle.game.specs.Walked.{nodes, walked_waits};
ghost use Rattle.game.specs.Steps.{Index, Rooms, Walking};
ghost use Rattle.game.specs.Packed.{groups_in, rev_in, starts_in};
ghost use Rattle.game.specs.Playing.{Fits};

use crate::reach::Figures;
use crate::{Line, misses, most, places};

// The groups with an end at each node, one node after the other, where those of each node start, and the node of each
// group.
#[derive(Clone, Copy)]
pub(crate) struct Links<'a> {
    pub(crate) rev: &'a [u16],
    pub(crate) starts: &'a [u16],
    pub(crate) gs: &'a [u16],
    ghost index: { Index rev.now starts.now gs.now },
}

impl<'a> Links<'a> {
    // Those of a packed game.
    pub(crate) fn of(graph: &'a [u16], game: Figures) -> Links<'a>
        requires fits { Fits (length graph.now) game.nodes game.groups game.positions }
        requires index { Index (rev_in graph.now game.positions) (starts_in graph.now game.nodes)
            (groups_in graph.now game.groups) }
        ensures rev { result.rev.now ≡ rev_in graph.now game.positions }
        ensures starts { result.starts.now ≡ starts_in graph.now game.nodes }
        ensures gs { result.gs.now ≡ groups_in graph.now game.groups }
    {
        let rev = places(graph.len());
        let starts = graph.len() - 2049;
        Links {
            rev: &graph[rev..rev + game.positions],
            starts: &graph[starts..starts + (game.nodes + 1)],
            gs: &graph[..game.groups],
        }
    }

    // The groups with an end at a node.
    pub(crate) fn at(&self, node: u16) -> &'a [u16]
        requires { node < nodes self.now.starts.now }
        ensures number { get_or self.now.starts.now node 0 + length result.now
            ≡ get_or self.now.starts.now (node + 1) 0 }
        ensures groups { (k : ℕ) → k < length result.now → get_or result.now k 0
            ≡ get_or self.now.rev.now (get_or self.now.starts.now node 0 + k) 0 }
    {
        let x = node as usize;
        &self.rev[self.starts[x] as usize..self.starts[x + 1] as usize]
    }

    // Takes the node at the queue's head: the counter of a group goes down for each of the node's positions.
    fn pop(
        &self,
        member: &[u16],
        counts: &mut [u16],
        waits: &mut [u16],
        queue: &mut [u16],
        line: Line,
    ) -> usize
        requires rooms { Rooms self.now.starts.now self.now.gs.now member.now counts.old waits.old queue.old }
        requires some { line.head < line.tail }
        requires walking { Walking self.now.rev.now self.now.starts.now self.now.gs.now member.now
            waits.old counts.old waits.old queue.old line.head line.tail }
        ensures { Walking self.now.rev.now self.now.starts.now self.now.gs.now member.now
            waits.old counts.new waits.new queue.new (line.head + 1) result }
    {
        let t = queue[line.head];
        let next = waits[t as usize] + 1;
        let mut end = line.tail;
        for group in self.at(t) {
            let g = *group as usize;
            let left = counts[g] - 1;
            counts[g] = left;
            let node = self.gs[g];
            let f = node as usize;
            if misses(left, waits[f], member[f]) == 0 {
                waits[f] = next;
                queue[end] = node;
                end += 1;
            }
        }
        end
    }

    // The walk from the nodes in the queue, until it is empty or each node that can have a wait has one.
    pub(crate) fn spread(
        &self,
        member: &[u16],
        counts: &mut [u16],
        waits: &mut [u16],
        queue: &mut [u16],
        start: usize,
    )
        requires rooms { Rooms self.now.starts.now self.now.gs.now member.now counts.old waits.old queue.old }
        requires walking { Walking self.now.rev.now self.now.starts.now self.now.gs.now member.now
            waits.old counts.old waits.old queue.old 0 start }
        ensures { waits.new ≡ over (walked_waits self.now.gs.now self.now.starts.now self.now.rev.now member.now
            waits.old) waits.old }
    {
        let count = most(self.starts.len() - 1, member, waits);
        let mut head = 0;
        let mut tail = start;
        while (head < tail) & (tail < count) {
            tail = self.pop(member, counts, waits, queue, Line { head, tail });
            head += 1;
        }
    }
}
