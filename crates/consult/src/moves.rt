// Every good move: those of a book's mask that meet the rule of the entry of a state and a goal, read off the state's
// arrows in an accepted plant and the book's own rows. And whether a plant has an arrow.
ghost use Rattle.std.specs.Prelude.{◌≡◌, ◌<◌};
ghost use Rattle.statements.specs.Sets.{is_in};
ghost use Rattle.statements.specs.Plants.{plant_of, ends, moves_into, plant_fault};
ghost use Rattle.statements.specs.Books.{book_mask, good_moves};
ghost use Rattle.consult.specs.Checks.{nearer_than, leads_in, rank_in, Reaches, Begins};

use format::arrows::read;
use format::plant::rank_of;
use format::word::{bit_at, number};
use rows::{is_lost, mask, stage_at, staged, wait_at};

// The rule of an entry: where a move may lead by a book, for a goal, from a state of a stage and with a wait; or to
// earlier stages only.
#[derive(Clone, Copy)]
struct Rule<'a> {
    book: &'a [u8],
    goal: u32,
    stage: u16,
    wait: u16,
    early: bool,
}

impl Rule<'_> {
    // The end of an arrow is a state that the book keeps, of an earlier stage; or, unless only these count, of the stage
    // given and above wait 0 with a smaller wait for the goal. Without stages all are of one.
    #[tactic(auto, using(std::proofs::lemmas::Bool::Decides::nat_tests), unfolding(crate::specs::Checks::nearer_than, crate::specs::Checks::closer, statements::specs::Books::book_states))]
    fn allows(&self, end: u32) -> bool
        ensures { result ≡ nearer_than self.now.book.now self.now.stage self.now.wait self.now.goal self.now.early end }
    {
        if u32::from(number(self.book, 0)) <= end {
            return false;
        }
        let there = stage_at(self.book, end);
        let less = (self.wait == 0) | (wait_at(self.book, end, self.goal) < self.wait);
        !is_lost(self.book, end)
            & ((there < self.stage) | (!self.early & ((there == self.stage) & less)))
    }
}

// The rank of arrow k of a plant, by which arrows are compared.
fn rank_at(plant: &[u8], k: u16) -> u64
    ensures { result ≡ rank_in plant.now k }
{
    let arrow = read(plant, k);
    rank_of(arrow.from, arrow.action, arrow.to)
}

// An accepted plant: its arrows ascend.
#[derive(Clone, Copy)]
struct Accepted<'a> {
    plant: &'a [u8],
    ghost fine: { plant_fault plant.now ≡ 0 },
}

impl Accepted<'_> {
    // The first arrow of a rank or above it, by bisection.
    // Kept: the new form is no plainer. The library searches slices, and the arrows would first be cut out as chunks.
    fn first_at(&self, rank: u64) -> u16
        ensures { Reaches self.now.plant.now rank result }
    {
        let mut low: u16 = 0;
        let mut high = number(self.plant, 3);
        while low < high {
            let mid = low + (high - low) / 2;
            if rank_at(self.plant, mid) < rank {
                low = mid + 1;
            } else {
                high = mid;
            }
        }
        low
    }

    // The first arrow that starts in a state or past it.
    fn first_from(&self, state: u32) -> u16
        ensures { Begins self.now.plant.now state result }
    {
        self.first_at(4294967296 * u64::from(state))
    }

    // The moves of the book's mask with an arrow in a state, all of whose arrows end in earlier stages, or where the
    // rule of the entry allows, as a mask. The state's arrows stand together.
    fn moves_into(&self, book: &[u8], state: u32, goal: u32, early: bool) -> u32
        requires { state < (plant_of self.now.plant.now).states }
        ensures { result ≡ moves_into (plant_of self.now.plant.now) (book_mask book.now)
            (leads_in book.now early state goal) state }
    {
        let stage = stage_at(book, state);
        let in_service = mask(book);
        let moves = number(self.plant, 1);
        let wait = wait_at(book, state, goal);
        let rule = Rule {
            book,
            goal,
            stage,
            wait,
            early,
        };
        let first = self.first_from(state);
        let last = self.first_from(state + 1);
        let mut seen: u32 = 0;
        let mut bad: u32 = 0;
        for k in first..last {
            let arrow = read(self.plant, k);
            let action = u32::from(arrow.action);
            if !((arrow.action < moves) & bit_at(in_service, action)) {
                continue;
            }
            let one: u32 = 1 << action;
            seen |= one;
            if rule.allows(u32::from(arrow.to)) {
                continue;
            }
            bad |= one;
        }
        seen - (seen & bad)
    }
}

// Whether a move made in a state of an accepted plant may lead to another: whether the plant has that arrow.
pub(crate) fn leads(plant: &[u8], state: u32, action: u16, end: u32) -> bool
    requires fine { plant_fault plant.now ≡ 0 }
    requires from_low { state < (plant_of plant.now).states }
    requires end_low { end < (plant_of plant.now).states }
    ensures { result ≡ is_in end (ends (plant_of plant.now) state action) }
{
    let accepted = Accepted { plant };
    let rank = rank_of(state as u16, action, end as u16);
    let k = accepted.first_at(rank);
    if number(plant, 3) <= k {
        return false;
    }
    rank_at(plant, k) == rank
}

// All moves that meet the rule of an entry, as a mask: those of the book's mask with an arrow in the state, all of
// whose arrows end in states that the book keeps, of earlier stages if there is such a move; otherwise of no later one,
// above wait 0 of an earlier stage or with a smaller wait. 0 for a lost state.
#[tactic(auto, using(crate::proofs::Rule::good_lost, crate::proofs::Rule::good_plain, crate::proofs::Rule::good_early, crate::proofs::Rule::good_onward))]
pub(crate) fn good(plant: &[u8], book: &[u8], state: u32, goal: u32) -> u32
    requires fine { plant_fault plant.now ≡ 0 }
    requires within { state < (plant_of plant.now).states }
    ensures { result ≡ good_moves (plant_of plant.now) book.now state goal }
{
    let accepted = Accepted { plant };
    if is_lost(book, state) {
        return 0;
    }
    if staged(book) {
        let earlier = accepted.moves_into(book, state, goal, true);
        if earlier != 0 {
            return earlier;
        }
    }
    accepted.moves_into(book, state, goal, false)
}
