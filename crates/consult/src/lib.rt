// The public calls that read a book: consult it for a move, for a step or for all good moves, hand back a state's row.
#![tactic(auto)]

mod goals;
mod moves;

ghost use Rattle.statements.specs.Demands.{Arriving};
ghost use Rattle.promises.specs.Answers.{advice_of, stepped_of, mask_of};
ghost use Rattle.promises.specs.Says.{ConsultSays, ConsultPlantSays, StepSays, MovesSays, RowSays, Determined};
ghost use Rattle.promises.specs.Rows.{Rows};
ghost use Rattle.promises.specs.Steps.{Steps};
ghost use Rattle.promises.specs.Walks.{Walks};

use format::word::number;
use promises::{Advised, Step};
use refusal::Refusal;

// Takes a book, a state and the goal sought. Answers lost, or the goal arrived at, where every goal that the state
// serves is passed from the sought one onward in turn, with its move and its wait.
pub fn consult_book(book: &[u8], state: u32, goal: u32) -> Advised
    ensures consult_says { ConsultSays book.now state goal (advice_of result) }
    ensures consult_arriving { Arriving }
    ensures consult_walks { Walks }
    ensures consult_determined { Determined }
{
    refusals::consult(book, state, goal)?;
    Ok(goals::answer(book, state, goal))
}

// Consults a book with the plant lent too: both are checked as in a withdrawal. The advice is consult's.
pub fn consult_plant(plant: &[u8], book: &[u8], state: u32, goal: u32) -> Advised
    ensures consult_plant_says { ConsultPlantSays plant.now book.now state goal (advice_of result) }
    ensures plant_arriving { Arriving }
    ensures plant_steps { Steps }
    ensures plant_determined { Determined }
{
    refusals::moves(plant, book, state, goal)?;
    Ok(goals::answer(book, state, goal))
}

// Consults a step, with the plant lent and one check of plant and book: the advice for a state and the goal sought;
// whether the move advised may lead to the state that followed; and the advice for that one, where the goal advised is
// sought.
pub fn consult_step(plant: &[u8], book: &[u8], state: u32, goal: u32, end: u32) -> Step
    ensures step_says { StepSays plant.now book.now state goal end (stepped_of result) }
    ensures step_arriving { Arriving }
    ensures step_steps { Steps }
    ensures step_determined { Determined }
{
    let here = consult_plant(plant, book, state, goal);
    let advised = match here {
        Err(_) => return Step {
            here,
            leads: false,
            next: here,
        },
        Ok(advised) => advised,
    };
    if u32::from(number(book, 0)) <= end {
        return Step {
            here,
            leads: false,
            next: Err(Refusal::Number),
        };
    }
    match advised {
        None => Step {
            here,
            leads: false,
            next: Ok(goals::answer(book, end, 0)),
        },
        Some(given) => Step {
            here,
            leads: moves::leads(plant, state, given.action, end),
            next: Ok(goals::answer(book, end, u32::from(given.seek))),
        },
    }
}

// Takes a plant, a book, a state and the goal sought. Answers all moves that meet the rule of the entry of the goal
// arrived at, as a mask; 0 for a lost state.
pub fn good_moves(plant: &[u8], book: &[u8], state: u32, goal: u32) -> Result<u32, Refusal>
    ensures moves_says { MovesSays plant.now book.now state goal (mask_of result) }
    ensures moves_arriving { Arriving }
    ensures moves_walks { Walks }
    ensures moves_determined { Determined }
{
    refusals::moves(plant, book, state, goal)?;
    let at = goals::arrive(book, state, goal);
    Ok(moves::good(plant, book, state, at))
}

// Takes a book and a state and hands back that state's row as the part of the book lent; an empty part when refused.
pub fn state_row<'a>(book: &'a [u8], state: u32) -> &'a [u8]
    ensures row_says { RowSays book.now state book.entry.ref_ptr result.now result.ref_ptr }
    ensures row_reads { Rows }
    ensures row_determined { Determined }
{
    if refusals::consult(book, state, 0).is_err() {
        return &book[..0];
    }
    let start = rows::row_place(book, state);
    let end = start + rows::row_long(book);
    &book[start..end]
}
