// Why a call is refused: by the first check that fails. What is said of it is its number, 0 for an accepted call.
#![tactic(auto)]

ghost use Rattle.std.specs.Prelude.{◌≡◌};
ghost use Rattle.refusal.specs.Numbers.{fault_of};
ghost use Rattle.statements.specs.Plants.{first_of, plant_of, plant_fault};
ghost use Rattle.statements.specs.Index.{index_fault};
ghost use Rattle.statements.specs.Calls.{mask_fault, whole_masks, book_room, drop_room, room_fault, make_fault, alike};
ghost use Rattle.statements.specs.Calls.{lent_fault, withdraw_fault, withdraw_list_fault, number_fault, consult_fault};
ghost use Rattle.statements.specs.Calls.{moves_fault, by_index, indexing_fault};
ghost use Rattle.refusals.specs.Ahead.{make_ahead, withdraw_ahead, list_ahead};

use format::check_plant;
use format::plant::{book_long, head_ok};
use format::word::{mask_ok, number, union};
use index::is_index;
use refusal::Refusal;
use rows::check_book;

// A book buffer is long enough for a plant's book.
fn book_room(plant: &[u8], room: usize) -> bool
    ensures { result ≡ book_room (plant_of plant.now) room }
{
    book_long(plant) <= room
}

// What make returns for a book buffer's length: 1, 2, 3, 6, 7, or 0 when it is accepted.
pub fn make(plant: &[u8], mask: u32, room: usize) -> Result<(), Refusal>
    ensures { fault_of result ≡ make_fault plant.now mask room }
{
    check_plant(plant)?;
    if !mask_ok(number(plant, 1) as u32, mask) {
        return Err(Refusal::Mask);
    }
    if !book_room(plant, room) {
        return Err(Refusal::Room);
    }
    Ok(())
}

// What the call that builds an index returns for a buffer's length: 1, 2, 3, 7, or 0 when it is accepted.
pub fn indexing(plant: &[u8], room: usize) -> Result<(), Refusal>
    ensures { fault_of result ≡ indexing_fault plant.now room }
{
    check_plant(plant)?;
    if !(8 + 2 * (number(plant, 3) as usize) <= room) {
        return Err(Refusal::Room);
    }
    Ok(())
}

// What a call that is lent a plant and an index returns for these: 1, 2, 3, 10, or 0 when they are accepted.
fn lent_index(plant: &[u8], index: &[u8]) -> Result<(), Refusal>
    ensures { fault_of result ≡ first_of (plant_fault plant.now)
        (index_fault (plant_of plant.now) index.now) }
{
    check_plant(plant)?;
    if !is_index(plant, index) {
        return Err(Refusal::Index);
    }
    Ok(())
}

// What make by an index returns: 1, 2, 3, 10, 6, 7, or 0 when it is accepted.
#[tactic(auto, using(crate::proofs::Refusals::by_given, crate::proofs::Refusals::by_passed))]
pub fn make_by(plant: &[u8], index: &[u8], mask: u32, room: usize) -> Result<(), Refusal>
    ensures { fault_of result ≡ by_index plant.now index.now
        (make_fault plant.now mask room) }
{
    lent_index(plant, index).and_then(|()| make(plant, mask, room))
}

// Make passes the checks ahead of loading: all but those of the plant's labels and arrows.
pub fn make_ahead(plant: &[u8], mask: u32, room: usize) -> bool
    ensures { result ≡ make_ahead plant.now mask room }
{
    head_ok(plant) & (mask_ok(number(plant, 1) as u32, mask) & book_room(plant, room))
}

// A book is for as many states, moves and goals as a plant has, and of its sort: as long as its books are.
fn alike(plant: &[u8], book: &[u8]) -> bool
    ensures { result ≡ alike (plant_of plant.now) book.now }
{
    (number(book, 0) == number(plant, 0))
        & ((number(book, 1) == number(plant, 1))
            & ((number(book, 2) == number(plant, 2))
                & ((number(book, 7) as usize) == book_long(plant))))
}

// What a call that is lent a plant and a book returns for these: 1 to 5, or 0 when they are accepted.
fn lent(plant: &[u8], book: &[u8]) -> Result<(), Refusal>
    ensures { fault_of result ≡ lent_fault plant.now book.now }
{
    check_plant(plant)?;
    let fits = rows::head_ok(book) & alike(plant, book);
    if !fits {
        return Err(Refusal::Book);
    }
    check_book(book)
}

// A drop buffer is long enough for every state of a plant.
fn drop_room(plant: &[u8], drops: usize) -> bool
    ensures { result ≡ drop_room (plant_of plant.now) drops }
{
    2 * (number(plant, 0) as usize) <= drops
}

// What a withdrawal of moves returns for these and for the lengths of a book buffer and a drop buffer: 6, 7, or 0.
fn given(plant: &[u8], gone: u32, room: usize, drops: usize) -> Result<(), Refusal>
    ensures { fault_of result ≡ first_of (mask_fault (plant_of plant.now) gone)
        (room_fault (plant_of plant.now) room drops) }
{
    if !mask_ok(number(plant, 1) as u32, gone) {
        return Err(Refusal::Mask);
    }
    if !(book_room(plant, room) & drop_room(plant, drops)) {
        return Err(Refusal::Room);
    }
    Ok(())
}

// What withdraw returns: 1 to 7, or 0 when it is accepted.
pub fn withdraw(
    plant: &[u8],
    book: &[u8],
    gone: u32,
    room: usize,
    drops: usize,
) -> Result<(), Refusal>
    ensures { fault_of result ≡ withdraw_fault plant.now book.now gone room drops }
{
    lent(plant, book)?;
    given(plant, gone, room, drops)
}

// What withdraw by an index returns: 1, 2, 3, 10, 4 to 7, or 0 when it is accepted.
#[tactic(auto, using(crate::proofs::Refusals::by_given, crate::proofs::Refusals::by_passed))]
pub fn withdraw_by(
    plant: &[u8],
    index: &[u8],
    book: &[u8],
    gone: u32,
    room: usize,
    drops: usize,
) -> Result<(), Refusal>
    ensures { fault_of result ≡ by_index plant.now index.now
        (withdraw_fault plant.now book.now gone room drops) }
{
    lent_index(plant, index)?;
    withdraw(plant, book, gone, room, drops)
}

// A withdrawal or a return passes the checks ahead of loading.
pub fn withdraw_ahead(plant: &[u8], book: &[u8], gone: u32, room: usize, drops: usize) -> bool
    ensures { result ≡ withdraw_ahead plant.now book.now gone room drops }
{
    if !(make_ahead(plant, gone, room) & drop_room(plant, drops)) {
        return false;
    }
    alike(plant, book) & check_book(book).is_ok()
}

// The bytes of up to 16 masks, none of them cut.
fn whole_masks(masks: &[u8]) -> bool
    ensures { result ≡ whole_masks masks.now }
{
    (masks.len() % 4 == 0) & (masks.len() <= 64)
}

// What a list of withdrawals returns: 1 to 5, 9, 6, 7, or 0 when it is accepted. One of its masks has a bit at U or
// above just when all of them joined have one.
pub fn withdraw_list(
    plant: &[u8],
    book: &[u8],
    masks: &[u8],
    room: usize,
    drops: usize,
) -> Result<(), Refusal>
    ensures { fault_of result
        ≡ withdraw_list_fault plant.now book.now masks.now room drops }
{
    lent(plant, book)?;
    if !whole_masks(masks) {
        return Err(Refusal::Masks);
    }
    given(plant, union(masks), room, drops)
}

// A list of withdrawals passes the checks ahead of loading.
pub fn withdraw_list_ahead(
    plant: &[u8],
    book: &[u8],
    masks: &[u8],
    room: usize,
    drops: usize,
) -> bool
    ensures { result ≡ list_ahead plant.now book.now masks.now room drops }
{
    whole_masks(masks) & withdraw_ahead(plant, book, union(masks), room, drops)
}

// What a call on a book returns for a state and a goal: 8, or 0.
fn asked(book: &[u8], state: u32, goal: u32) -> Result<(), Refusal>
    ensures { fault_of result ≡ number_fault book.now state goal }
{
    let states = number(book, 0) as u32;
    let goals = number(book, 2) as u32;
    if (states <= state) | (goals <= goal) {
        return Err(Refusal::Number);
    }
    Ok(())
}

// What consult returns: 4, 5, 8, or 0 when it is accepted.
pub fn consult(book: &[u8], state: u32, goal: u32) -> Result<(), Refusal>
    ensures { fault_of result ≡ consult_fault book.now state goal }
{
    check_book(book)?;
    asked(book, state, goal)
}

// What the call for all good moves returns: 1 to 5, 8, or 0 when it is accepted.
pub fn moves(plant: &[u8], book: &[u8], state: u32, goal: u32) -> Result<(), Refusal>
    ensures { fault_of result ≡ moves_fault plant.now book.now state goal }
{
    lent(plant, book)?;
    asked(book, state, goal)
}
