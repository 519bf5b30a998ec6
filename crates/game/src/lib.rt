// Generalized Büchi games on a directed hypergraph in arrays: backward reachability by a worklist with counters, in
// rounds that strike nodes out. It knows nothing of plants.
#![tactic(auto)]

mod links;
pub mod play;
mod reach;
mod strike;
mod worklist;

ghost use Rattle.std.specs.Prelude.{◌≡◌, true, ℕ, ◌+◌, ◌<◌, ◌≤◌, length, get_or};
ghost use Rattle.statements.specs.Sets.{over};
ghost use Rattle.sort.specs.Steps.{Holds, count_of};
ghost use Rattle.game.specs.Walked.{ordered, all_below, walked_waits};
ghost use Rattle.game.specs.Steps.{Index, Rooms, Walking, Misses, possible};
ghost use Rattle.game.specs.Packed.{places_in};

// How many groups, and how many positions, a packed game of so many numbers has room for.
#[tactic(auto, unfolding(crate::specs::Packed::places_in))]
pub fn places(length: usize) -> usize
    ensures { result ≡ places_in length }
{
    if length < 2049 {
        return 0;
    }
    (length - 2049) / 2
}

// The starts begin with 0, never fall, and end with the number of positions. A test like this goes on past a bad number:
// a loop with no way out in the middle is compiled to vector code.
fn rising(starts: &[u16], positions: usize) -> bool
    requires { 0 < length starts.now }
    ensures { result ≡ ordered starts.now positions }
{
    let n = starts.len() - 1;
    let mut good = true;
    for t in 0..n {
        good &= starts[t] <= starts[t + 1];
    }
    good & ((starts[0] == 0) & (starts[n] as usize == positions))
}

// Each number is below the limit.
fn below(xs: &[u16], limit: u16) -> bool
    ensures { result ≡ all_below xs.now limit }
{
    let mut good = true;
    for x in xs {
        good &= *x < limit;
    }
    good
}

// Counts the positions of each group.
fn tally(rev: &[u16], counts: &mut [u16])
    requires { (length rev.now ≤ 65535)
        × ((a : ℕ) → a < length rev.now → get_or rev.now a 0 < length counts.old)
        × Holds (length counts.old) (λ t. 0) counts.old }
    ensures { Holds (length counts.old) (count_of rev.now (length rev.now))
        counts.new }
{
    for g in rev {
        counts[*g as usize] += 1;
    }
}

// How many nodes can have a wait: those of the set, and the targets.
fn most(n: usize, member: &[u16], waits: &[u16]) -> usize
    requires { (n ≤ 1024) × (n ≤ length member.now) × (n ≤ length waits.now) }
    ensures { result ≡ length (possible n member.now waits.now) }
{
    let mut count: u16 = 0;
    for x in 0..n {
        if (member[x] < 1) | (waits[x] < 1) {
            count += 1;
        }
    }
    usize::from(count)
}

// 0 where no end of the group is left, its node has the mark, and it is in the set.
#[tactic(auto, using(crate::proofs::Bits::misses_or))]
fn misses(left: u16, old: u16, out: u16) -> u16
    ensures { Misses left old out result }
{
    left | (65535 - old) | out
}

// The part of the queue that is not taken yet.
#[derive(Clone, Copy)]
struct Line {
    head: usize,
    tail: usize,
}
