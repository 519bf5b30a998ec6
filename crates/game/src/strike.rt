// Striking nodes out of a set: the groups that lead to them die, and a node with no other group cannot go on.
ghost use Rattle.std.specs.Prelude.{◌≡◌, true, ◌&&◌, not, List, [], ◌∷◌, ℕ, ◌+◌, ◌-◌, ◌*◌, ◌<◌, ◌≤◌, eqb, ltb, length, get_or, take};
ghost use Rattle.statements.specs.Sets.{is_in, numbers, filter};
ghost use Rattle.sets.proofs.Members.{Sifted};
ghost use Rattle.game.specs.Walked.{nodes};
ghost use Rattle.game.specs.Marks.{Marked, without};
ghost use Rattle.game.specs.Cuts.{others, waits_all};

use crate::links::Links;

impl Links<'_> {
    // Strikes one node out: it is not marked any more, each group with an end at it dies, and a node whose last group
    // that is is not marked any more either.
    fn strike_one(&self, member: &mut [u16], live: &mut [u16], dead: &mut [u16], node: u16)
        requires inside { node < nodes self.now.starts.now }
        requires marked { (set : List ℕ) × Marked self.now.gs.now self.now.starts.now self.now.rev.now set
            member.old live.old dead.old }
        ensures { (set : List ℕ) → Marked self.now.gs.now self.now.starts.now self.now.rev.now set
            member.old live.old dead.old
            → Marked self.now.gs.now self.now.starts.now self.now.rev.now (without (node ∷ []) set)
            member.new live.new dead.new }
    {
        member[node as usize] = 65535;
        for group in self.at(node) {
            let g = *group as usize;
            if dead[g] == 0 {
                dead[g] = 1;
                let f = self.gs[g] as usize;
                let left = live[f] - 1;
                live[f] = left;
                if left == 0 {
                    member[f] = 65535;
                }
            }
        }
    }

    // Strikes out the nodes of a list.
    pub(crate) fn strike(
        &self,
        gone: &[u16],
        member: &mut [u16],
        live: &mut [u16],
        dead: &mut [u16],
    )
        requires inside { (x : ℕ) → is_in x gone.now ≡ true → x < nodes self.now.starts.now }
        requires marked { (set : List ℕ) × Marked self.now.gs.now self.now.starts.now self.now.rev.now set
            member.old live.old dead.old }
        ensures { (set : List ℕ) → Marked self.now.gs.now self.now.starts.now self.now.rev.now set
            member.old live.old dead.old
            → Marked self.now.gs.now self.now.starts.now self.now.rev.now (without gone.now set)
            member.new live.new dead.new }
    {
        for node in gone {
            self.strike_one(member, live, dead, *node);
        }
    }
}

// Whether a number stands at a place of a list.
fn is_at(list: &[u16], place: usize, number: usize) -> bool
    ensures { result ≡ (ltb place (length list.now) && eqb (get_or list.now place 0) number) }
{
    list.get(place)
        .is_some_and(|found| usize::from(*found) == number)
}

// Lists the nodes below n that a rising list leaves out; returns how many they are.
pub(crate) fn rest(list: &[u16], n: usize, out: &mut [u16]) -> usize
    requires { Sifted (numbers n 0) list.now × ((n ≤ 1024) × (n ≤ length out.old)) }
    ensures { (take result out.new ≡ others n list.now)
        × (result ≡ length (others n list.now)) }
{
    let mut k = 0;
    let mut count = 0;
    for x in 0..n {
        if is_at(list, k, x) {
            k += 1;
        } else {
            out[count] = x as u16;
            count += 1;
        }
    }
    count
}

// Whether a node has a wait for each goal.
fn waits_all(waits: &[u16], n: usize, goals: usize, node: u16) -> bool
    requires { (node < n) × ((n ≤ 1024) × ((goals ≤ 8) × (goals * n ≤ length waits.now))) }
    ensures { result ≡ waits_all waits.now n goals node }
{
    let x = usize::from(node);
    for i in 0..goals {
        if waits[i * n + x] == 65535 {
            return false;
        }
    }
    true
}

// Cuts a list down to the nodes with a wait for each goal: takes the nodes held, at the front of a list, and their
// number; leaves those still held there, lists the others, and hands on the number of those still held.
pub(crate) fn cut(
    waits: &[u16],
    n: usize,
    goals: usize,
    list: &mut [u16],
    count: usize,
    gone: &mut [u16],
) -> usize
    requires room { (count ≤ length list.old) × (count ≤ length gone.old) }
    requires small { (n ≤ 1024) × ((goals ≤ 8) × (goals * n ≤ length waits.now)) }
    requires nodes { (x : ℕ) → is_in x (take count list.old) ≡ true → x < n }
    ensures number { result ≡ length (filter (waits_all waits.now n goals) (take count list.old)) }
    ensures still { take result list.new
        ≡ filter (waits_all waits.now n goals) (take count list.old) }
    ensures gone { take (count - result) gone.new
        ≡ filter (λ x. not (waits_all waits.now n goals x)) (take count list.old) }
{
    let mut kept = count;
    for k in 0..count {
        let node = list[k];
        if waits_all(waits, n, goals, node) {
            list[k - (count - kept)] = node;
        } else {
            gone[count - kept] = node;
            kept -= 1;
        }
    }
    kept
}
