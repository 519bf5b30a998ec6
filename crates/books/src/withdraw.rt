// A withdrawal that passes the checks ahead of loading, by an index or without one.
ghost use Rattle.std.specs.Prelude.{◌≡◌, true, length, is_some};
ghost use Rattle.statements.specs.Calls.{withdraw_fault};
ghost use Rattle.refusal.specs.Numbers.{fault_of};
ghost use Rattle.promises.specs.Answers.{answer_of};
ghost use Rattle.promises.specs.Says.{Says};
ghost use Rattle.refusals.specs.Ahead.{withdraw_ahead};
ghost use Rattle.graph.specs.Packed.{lent_bytes};
ghost use Rattle.books.specs.Ways.{number_by, withdraw_ask};

use crate::{refused, start};
use graph::Way;
use promises::Wrote;
use refusal::Refusal;

// The checks of a withdrawal, by an index or without one.
fn check(
    plant: &[u8],
    index: Option<&[u8]>,
    book: &[u8],
    gone: u32,
    room: usize,
    drops: usize,
) -> Result<(), Refusal>
    ensures { fault_of result ≡ number_by (is_some index.entry) (lent_bytes index.entry) plant.now
        (withdraw_fault plant.now book.now gone room drops) }
{
    if let Some(index) = index {
        return refusals::withdraw_by(plant, index, book, gone, room, drops);
    }
    refusals::withdraw(plant, book, gone, room, drops)
}

// Writes the book within the allowed states that the old book keeps, for its moves less those withdrawn, and the states
// that it drops; returns the book's length and how many they are. Without a book a label or an arrow is bad, or what is
// lent as index is not the plant's, and the withdrawal is refused.
pub(crate) fn carry_out(
    plant: &[u8],
    index: Option<&[u8]>,
    book: &[u8],
    gone: u32,
    out: &mut [u8],
    drops: &mut [u8],
) -> Result<Wrote, Refusal>
    requires { withdraw_ahead plant.now book.now gone (length out.old) (length drops.old) ≡ true }
    ensures { Says plant.now book.now (withdraw_ask (is_some index.entry) (lent_bytes index.entry) gone)
        out.old out.new drops.old drops.new (answer_of result) }
{
    let mut list = [0u16; 1024];
    let before = start::kept(book, &mut list);
    let kept = start::allowed(plant, &mut list, before);
    let old = rows::mask(book);
    let room = out.len();
    let left = old - (old & gone);
    let way = Way { index, mask: left };
    let Some(length) = writing::book(plant, way, &list[..kept], out) else {
        return refused(check(plant, index, book, gone, room, drops.len()));
    };
    let count = writing::dropped(book, &out[..length as usize], drops);
    Ok(Wrote {
        length,
        drops: count,
    })
}
