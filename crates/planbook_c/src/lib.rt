// The calls for C and Rust: a lent slice is a pointer and a length, an answer is a struct of 32-bit numbers.
// include/planbook.h says the same in C.
#![tactic(auto)]

ghost use Rattle.std.specs.Prelude.{◌≡◌};
ghost use Rattle.promises.specs.Answers.{answer_of, cost_of, advice_of, mask_of};
ghost use Rattle.promises.specs.Says.{MakeSays, WithdrawSays, WithdrawListSays, ReturnSays, IndexSays, PreviewSays};
ghost use Rattle.promises.specs.Says.{MakeIndexedSays, WithdrawIndexedSays, MovesSays};
ghost use Rattle.gauge.specs.Bands.{place_of};
ghost use Rattle.desk.specs.Desk.{desk_of};
ghost use Rattle.planbook_c.specs.Flat.{plain, plain_cost, plain_mask, FlatAdvice, FlatPlace, Flattens};
ghost use Rattle.planbook_c.specs.Flat.{AdviceSays, PartSays, PlaceIs, StartIs, ReportIs};

use desk::AtDesk;
use promises::{Advised, Preview, Wrote};
use refusal::Refusal;

// What make, withdraw, a list of withdrawals, return and index answer: a refusal's number or 0, the length of the book
// or index, the number of states listed, which a return has gained and the others have dropped.
#[repr(C)]
#[derive(Clone, Copy, Default)]
pub struct Answer {
    pub number: u32,
    pub length: u32,
    pub drops: u32,
}

// What preview answers: a refusal's number or 0, the number of states that the withdrawal would drop and that of the
// states it would keep.
#[repr(C)]
#[derive(Clone, Copy, Default)]
pub struct Cost {
    pub number: u32,
    pub drops: u32,
    pub kept: u32,
}

// What consult answers: a refusal's number or 0, 1 for a lost state, or the move and the wait of the goal arrived at,
// and that goal, to be sought from here on.
#[repr(C)]
#[derive(Clone, Copy, Default)]
pub struct Advice {
    pub number: u32,
    pub lost: u32,
    pub action: u32,
    pub wait: u32,
    pub seek: u32,
}

// What the call for all good moves answers: a refusal's number or 0, and the moves, bit u for move u.
#[repr(C)]
#[derive(Clone, Copy, Default)]
pub struct Mask {
    pub number: u32,
    pub mask: u32,
}

// What row answers: a refusal's number or 0, and where in the book lent the row starts and how long it is.
#[repr(C)]
#[derive(Clone, Copy)]
pub struct Part {
    pub number: u32,
    pub start: u32,
    pub length: u32,
}

// What the gauge call answers: a refusal's number or 0, 1 if a band holds the deviation, and that band's state.
#[repr(C)]
#[derive(Clone, Copy, Default)]
pub struct Place {
    pub number: u32,
    pub found: u32,
    pub state: u32,
}

// What start and report answer: a refusal's number or 0, 1 for a lost state, or the move and the wait of the goal arrived
// at, and that goal; and the state and the goal that the desk holds from then on.
#[repr(C)]
#[derive(Clone, Copy)]
pub struct Desk {
    pub number: u32,
    pub lost: u32,
    pub action: u32,
    pub wait: u32,
    pub seek: u32,
    pub state: u32,
    pub goal: u32,
}

impl From<Result<Wrote, Refusal>> for Answer {
    ghost from_gives = { λ r a. plain a ≡ answer_of r };

    fn from(r: Result<Wrote, Refusal>) -> Self {
        match r {
            Ok(written) => Answer {
                number: 0,
                length: written.length,
                drops: written.drops,
            },
            Err(why) => Answer {
                number: u32::from(why.number()),
                ..Self::default()
            },
        }
    }
}

impl From<Result<Preview, Refusal>> for Cost {
    ghost from_gives = { λ r a. plain_cost a ≡ cost_of r };

    fn from(r: Result<Preview, Refusal>) -> Self {
        match r {
            Ok(preview) => Cost {
                number: 0,
                drops: preview.drops,
                kept: preview.kept,
            },
            Err(why) => Cost {
                number: u32::from(why.number()),
                ..Self::default()
            },
        }
    }
}

impl From<Advised> for Advice {
    ghost from_gives = { λ r a. FlatAdvice (advice_of r) a };

    fn from(r: Advised) -> Self {
        match r {
            Ok(Some(next)) => Advice {
                action: u32::from(next.action),
                wait: u32::from(next.wait),
                seek: u32::from(next.seek),
                ..Self::default()
            },
            Ok(None) => Advice {
                lost: 1,
                ..Self::default()
            },
            Err(why) => Advice {
                number: u32::from(why.number()),
                ..Self::default()
            },
        }
    }
}

impl From<Result<u32, Refusal>> for Mask {
    ghost from_gives = { λ r a. plain_mask a ≡ mask_of r };

    fn from(r: Result<u32, Refusal>) -> Self {
        match r {
            Ok(mask) => Mask { number: 0, mask },
            Err(why) => Mask {
                number: u32::from(why.number()),
                ..Self::default()
            },
        }
    }
}

impl From<Result<Option<u32>, Refusal>> for Place {
    ghost from_gives = { λ r a. FlatPlace (place_of r) a };

    fn from(r: Result<Option<u32>, Refusal>) -> Self {
        match r {
            Ok(Some(state)) => Place {
                number: 0,
                found: 1,
                state,
            },
            Ok(None) => Self::default(),
            Err(why) => Place {
                number: u32::from(why.number()),
                ..Self::default()
            },
        }
    }
}

impl From<AtDesk> for Desk {
    ghost from_gives = { λ r a. Flattens (desk_of r) a };

    fn from(r: AtDesk) -> Self {
        let shown = Advice::from(r.advice);
        Desk {
            number: shown.number,
            lost: shown.lost,
            action: shown.action,
            wait: shown.wait,
            seek: shown.seek,
            state: r.state,
            goal: r.goal,
        }
    }
}

// Takes a plant, a mask and a book buffer. Writes the book and returns its length.
#[unsafe(no_mangle)]
pub extern "C" fn planbook_make(plant: &[u8], mask: u32, book: &mut [u8]) -> Answer
    ensures { MakeSays plant.now mask book.old book.new (plain result) }
{
    Answer::from(books::make_book(plant, mask, book))
}

// Takes a plant, a book, a mask of moves to withdraw, a book buffer and a drop buffer. Writes the book and, by rising
// number, the states kept before and lost now; returns the book's length and how many they are.
#[unsafe(no_mangle)]
pub extern "C" fn planbook_withdraw(
    plant: &[u8],
    book: &[u8],
    mask: u32,
    out: &mut [u8],
    drops: &mut [u8],
) -> Answer
    ensures { WithdrawSays plant.now book.now mask
        out.old out.new drops.old drops.new (plain result) }
{
    Answer::from(books::withdraw_moves(plant, book, mask, out, drops))
}

// Takes a plant, a book, a list of up to 16 masks of moves to withdraw, four bytes each, a book buffer and a drop
// buffer. Writes the book that the single withdrawals in turn come to and, by rising number, the states kept at the
// start and lost at the end; returns the book's length and how many they are.
#[unsafe(no_mangle)]
pub extern "C" fn planbook_withdraw_list(
    plant: &[u8],
    book: &[u8],
    masks: &[u8],
    out: &mut [u8],
    drops: &mut [u8],
) -> Answer
    ensures { WithdrawListSays plant.now book.now masks.now
        out.old out.new drops.old drops.new (plain result) }
{
    Answer::from(books::withdraw_list(plant, book, masks, out, drops))
}

// Takes a plant, a book, a mask of moves to return, a book buffer and a drop buffer. Writes the book of a make with the
// moves of that book and those returned and, by rising number, the states kept now and not before; returns the book's
// length and how many they are.
#[unsafe(no_mangle)]
pub extern "C" fn planbook_return(
    plant: &[u8],
    book: &[u8],
    mask: u32,
    out: &mut [u8],
    gained: &mut [u8],
) -> Answer
    ensures { ReturnSays plant.now book.now mask
        out.old out.new gained.old gained.new (plain result) }
{
    Answer::from(books::return_moves(plant, book, mask, out, gained))
}

// Takes a plant and a buffer. Writes the plant's index and returns its length.
#[unsafe(no_mangle)]
pub extern "C" fn planbook_index(plant: &[u8], index: &mut [u8]) -> Answer
    ensures { IndexSays plant.now index.old index.new (plain result) }
{
    Answer::from(books::index_plant(plant, index))
}

// Takes a plant, its index, a mask and a book buffer. Writes the very book that planbook_make writes and returns its
// length.
#[unsafe(no_mangle)]
pub extern "C" fn planbook_make_indexed(
    plant: &[u8],
    index: &[u8],
    mask: u32,
    book: &mut [u8],
) -> Answer
    ensures { MakeIndexedSays plant.now index.now mask
        book.old book.new (plain result) }
{
    Answer::from(books::make_indexed(plant, index, mask, book))
}

// Takes a plant, its index, a book, a mask of moves to withdraw, a book buffer and a drop buffer. Writes the very book
// that planbook_withdraw writes, and the same states; returns the book's length and how many they are.
#[unsafe(no_mangle)]
pub extern "C" fn planbook_withdraw_indexed(
    plant: &[u8],
    index: &[u8],
    book: &[u8],
    mask: u32,
    out: &mut [u8],
    drops: &mut [u8],
) -> Answer
    ensures { WithdrawIndexedSays plant.now index.now book.now mask
        out.old out.new drops.old drops.new (plain result) }
{
    Answer::from(books::withdraw_indexed(plant, index, book, mask, out, drops))
}

// Takes a plant, a book, a mask of moves to withdraw and a drop buffer. Writes, by rising number, the states that the
// withdrawal would drop; returns how many they are and how many it would keep.
#[unsafe(no_mangle)]
pub extern "C" fn planbook_preview(plant: &[u8], book: &[u8], mask: u32, drops: &mut [u8]) -> Cost
    ensures { PreviewSays plant.now book.now mask
        drops.old drops.new (plain_cost result) }
{
    Cost::from(books::preview_withdrawal(plant, book, mask, drops))
}

// Takes a book, a state and the goal sought. Answers lost, or the goal arrived at, where every goal that the state
// serves is passed from the sought one onward in turn, with its move and its wait.
#[unsafe(no_mangle)]
pub extern "C" fn planbook_consult(book: &[u8], state: u32, goal: u32) -> Advice
    ensures { AdviceSays book.now state goal result }
{
    Advice::from(consult::consult_book(book, state, goal))
}

// Takes a plant, a book, a state and the goal sought. Answers all moves that meet the rule of the entry of the goal
// arrived at, as a mask.
#[unsafe(no_mangle)]
pub extern "C" fn planbook_moves(plant: &[u8], book: &[u8], state: u32, goal: u32) -> Mask
    ensures { MovesSays plant.now book.now state goal (plain_mask result) }
{
    Mask::from(consult::good_moves(plant, book, state, goal))
}

// Takes a book and a state and tells where in the book that state's row stands.
#[unsafe(no_mangle)]
pub extern "C" fn planbook_row(book: &[u8], state: u32) -> Part
    ensures { PartSays book.now state result }
{
    let row = consult::state_row(book, state);
    if row.len() == 0 {
        return Part {
            number: Advice::from(consult::consult_book(book, state, 0)).number,
            start: 0,
            length: 0,
        };
    }
    Part {
        number: 0,
        start: rows::row_place(book, state) as u32,
        length: row.len() as u32,
    }
}

// Takes a table of bands as three lists, with two kinds, 0 for open and 1 for at, and two ends for each band, the lower
// first, and its state; the number of states; and what the gauge shows and should show. Answers the state of the band
// that holds the deviation.
#[unsafe(no_mangle)]
pub extern "C" fn planbook_gauge(
    kinds: &[u8],
    ends: &[f64],
    band_states: &[u32],
    states: u32,
    reading: f64,
    aim: f64,
) -> Place
    ensures { PlaceIs kinds.now ends.now band_states.now states
        reading aim result }
{
    let shown = gauge::Gauge { reading, aim };
    Place::from(gauge::find_place(kinds, ends, band_states, states, shown))
}

// Takes a plant, a book and a state. The desk starts there, seeking goal 0: answers what consult does, and what the
// desk holds.
#[unsafe(no_mangle)]
pub extern "C" fn planbook_start(plant: &[u8], book: &[u8], state: u32) -> Desk
    ensures { StartIs plant.now book.now state result }
{
    Desk::from(desk::start_desk(plant, book, state))
}

// Takes a plant, a book, the state and the goal that the desk holds, and the state that followed. Answers what consult
// does there, and what the desk holds from then on; refused, it holds what it held.
#[unsafe(no_mangle)]
pub extern "C" fn planbook_report(
    plant: &[u8],
    book: &[u8],
    held_state: u32,
    held_goal: u32,
    reported: u32,
) -> Desk
    ensures { ReportIs plant.now book.now held_state held_goal reported result }
{
    Desk::from(desk::report_state(plant, book, held_state, held_goal, reported))
}
