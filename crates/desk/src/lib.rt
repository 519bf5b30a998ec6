// The mill desk: follows a book from state to state. It knows the planner by what consult's calls promise, and by
// nothing else. What it holds, a state and a goal, its caller keeps for it.
#![tactic(auto)]

ghost use Rattle.std.specs.Prelude.{◌≡◌, Ok};
ghost use Rattle.statements.specs.Sets.{pick};
ghost use Rattle.promises.specs.Answers.{advice_of};
ghost use Rattle.desk.specs.Desk.{desk_of, StartSays, ReportSays, Answering};
ghost use Rattle.desk.specs.Followed.{Following};

use consult::{consult_plant, consult_step};
use promises::{Advised, NextMove};
use refusal::Refusal;

// What start and report answer: the advice for the state that the desk is in now, and what it holds from then on.
#[derive(Clone, Copy)]
pub struct AtDesk {
    pub advice: Advised,
    pub state: u32,
    pub goal: u32,
}

// The goal held: in a lost state the one sought, otherwise the one arrived at.
fn held(given: Option<NextMove>, before: u32) -> u32
    ensures { result ≡ pick (advice_of (Ok given)).lost before (advice_of (Ok given)).seek }
{
    match given {
        Some(next) => u32::from(next.seek),
        None => before,
    }
}

// The goal that an advice tells to seek; 0 where it gives no move.
fn sought(advised: Advised) -> u32
    ensures { result ≡ (advice_of advised).seek }
{
    match advised {
        Ok(Some(next)) => u32::from(next.seek),
        _ => 0,
    }
}

// Starts in a state: goal 0 is sought.
pub fn start_desk(plant: &[u8], book: &[u8], state: u32) -> AtDesk
    ensures start_says { StartSays plant.now book.now state (desk_of result) }
    ensures start_answering { Answering }
    ensures start_following { Following }
{
    let advice = consult_plant(plant, book, state, 0);
    match advice {
        Err(_) => AtDesk {
            advice,
            state: 0,
            goal: 0,
        },
        Ok(given) => AtDesk {
            advice,
            state,
            goal: held(given, 0),
        },
    }
}

// Is told which state followed the move given in the state held.
pub fn report_state(plant: &[u8], book: &[u8], state: u32, goal: u32, reported: u32) -> AtDesk
    ensures report_says { ReportSays plant.now book.now state goal reported (desk_of result) }
    ensures report_answering { Answering }
    ensures report_following { Following }
{
    let step = consult_step(plant, book, state, goal, reported);
    let advice = step.next;
    let given = match advice {
        Err(_) => return AtDesk {
            advice,
            state,
            goal,
        },
        Ok(given) => given,
    };
    let leads = step.leads;
    if !leads {
        return AtDesk {
            advice: Err(Refusal::Report),
            state,
            goal,
        };
    }
    AtDesk {
        advice,
        state: reported,
        goal: held(given, sought(step.here)),
    }
}
