// The book of a making, by an index or without one.
ghost use Rattle.std.specs.Prelude.{◌≡◌, true, [], length, Some, None, is_some};
ghost use Rattle.statements.specs.Sets.{pick, over};
ghost use Rattle.statements.specs.Plants.{plant_of, head_ok};
ghost use Rattle.statements.specs.Books.{made_book};
ghost use Rattle.statements.specs.Calls.{book_room, make_fault};
ghost use Rattle.refusal.specs.Numbers.{fault_of};
ghost use Rattle.promises.specs.Answers.{answer_of};
ghost use Rattle.promises.specs.Says.{Says};
ghost use Rattle.refusals.specs.Ahead.{make_ahead};
ghost use Rattle.graph.specs.Packed.{lent_bytes, accepts_by};
ghost use Rattle.books.specs.Ways.{number_by, make_ask};

use crate::{refused, start};
use graph::Way;
use promises::Wrote;
use refusal::Refusal;

// Writes the book within all allowed states to a buffer with room for it, for a plant with a good header; returns its
// length. Where a label or an arrow is out of range, an arrow out of order, or what is lent as index not the plant's,
// it returns None and writes nothing.
pub(crate) fn book(plant: &[u8], way: Way, out: &mut [u8]) -> Option<u32>
    requires head { head_ok plant.now ≡ true }
    requires room { book_room (plant_of plant.now) (length out.old) ≡ true }
    ensures long { result ≡ pick (accepts_by way.entry.index plant.now)
        (Some (length (made_book (plant_of plant.now) way.entry.mask))) None }
    ensures bytes { out.new ≡ pick (accepts_by way.entry.index plant.now)
        (over (made_book (plant_of plant.now) way.entry.mask) out.old) out.old }
{
    let mut list = [0u16; 1024];
    let all = start::states(plant, &mut list);
    let kept = start::allowed(plant, &mut list, all);
    writing::book(plant, way, &list[..kept], out)
}

// The checks of a make, by an index or without one.
fn check(plant: &[u8], way: Way, room: usize) -> Result<(), Refusal>
    ensures { fault_of result ≡ number_by (is_some way.entry.index) (lent_bytes way.entry.index)
        plant.now (make_fault plant.now way.entry.mask room) }
{
    if let Some(index) = way.index {
        return refusals::make_by(plant, index, way.mask, room);
    }
    refusals::make(plant, way.mask, room)
}

// A make that passes the checks ahead of loading. Without a book a label or an arrow is bad, or what is lent as index
// is not the plant's, and it is refused.
pub(crate) fn carry_out(plant: &[u8], way: Way, out: &mut [u8]) -> Result<Wrote, Refusal>
    requires { make_ahead plant.now way.mask (length out.old) ≡ true }
    ensures { Says plant.now [] (make_ask (is_some way.entry.index) (lent_bytes way.entry.index) way.entry.mask)
        out.old out.new [] [] (answer_of result) }
{
    let room = out.len();
    let Some(length) = book(plant, way, out) else {
        return refused(check(plant, way, room));
    };
    Ok(Wrote { length, drops: 0 })
}
