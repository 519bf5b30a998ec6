// The goal arrived at in a state, and the advice for a kept state.
ghost use Rattle.std.specs.Prelude.{◌≡◌, false, ◌<◌, Some, Ok};
ghost use Rattle.statements.specs.Books.{book_goals, is_lost, goal_after, arrive};
ghost use Rattle.statements.specs.Calls.{consult_fault};
ghost use Rattle.promises.specs.Answers.{advice_of};
ghost use Rattle.promises.specs.Says.{ConsultSays};

use format::word::number;
use promises::NextMove;
use rows::{is_lost, move_at, wait_at};

// The next goal in turn: after the last the first.
#[tactic(auto, using(crate::proofs::Arriving::next_first, crate::proofs::Arriving::next_on))]
fn next_goal(goals: u32, goal: u32) -> u32
    requires { goal < goals }
    ensures { result ≡ goal_after goals goal 1 }
{
    if goal + 1 == goals { 0 } else { goal + 1 }
}

// The goal arrived at in a state: every goal that the state serves is passed, from the sought one onward in turn, until
// one that it does not serve. When all are passed it is the sought one again.
#[tactic(auto, using(crate::proofs::Arriving::pass_below, crate::proofs::Arriving::pass_stop, crate::proofs::Arriving::pass_end))]
pub(crate) fn arrive(book: &[u8], state: u32, goal: u32) -> u32
    requires { goal < book_goals book.now }
    ensures { result ≡ arrive book.now state goal }
{
    let goals = u32::from(number(book, 2));
    let mut at = goal;
    for _passed in 0..goals {
        if wait_at(book, state, at) != 0 {
            return at;
        }
        at = next_goal(goals, at);
    }
    at
}

// What to do in a kept state: move and wait of the goal arrived at, and that goal.
pub(crate) fn advise(book: &[u8], state: u32, goal: u32) -> NextMove
    requires fine { consult_fault book.now state goal ≡ 0 }
    requires kept { is_lost book.now state ≡ false }
    ensures { ConsultSays book.now state goal (advice_of (Ok (Some result))) }
{
    let at = arrive(book, state, goal);
    NextMove {
        action: move_at(book, state, at),
        wait: wait_at(book, state, at),
        seek: at as u16,
    }
}

// What to do in a state of an accepted book, for an accepted goal: nothing where it is lost.
pub(crate) fn answer(book: &[u8], state: u32, goal: u32) -> Option<NextMove>
    requires { consult_fault book.now state goal ≡ 0 }
    ensures { ConsultSays book.now state goal (advice_of (Ok result)) }
{
    if is_lost(book, state) {
        return None;
    }
    Some(advise(book, state, goal))
}
