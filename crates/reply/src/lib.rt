// What `planbook` answers: from the bytes of a plant and its masks to the text that is printed.
#![tactic(auto)]

ghost use Rattle.std.specs.Prelude.{◌≡◌, true, length};
ghost use Rattle.promises.specs.Answers.{answer_of};
ghost use Rattle.statements.specs.Plants.{head_ok};
ghost use Rattle.listing.specs.Buffers.{placed, placed_long};
ghost use Rattle.reply.specs.Reply.{masks_ok, reply_to};
ghost use Rattle.reply.specs.Laws.{FirstDecide, FewBytes, ListsAfresh};
ghost use Rattle.reply.specs.Steps.{Parted, Ready, outcome_of, bad_text, came_to, Told};

use books::make_book;
use format::check_plant;
use format::plant::{book_long, head_ok};
use format::word::{mask_at, mask_ok, number, union};
use listing::{bad_masks_text, list_book, refused_text};
use promises::Wrote;
use refusal::Refusal;

// The bytes of 1 to 16 masks, none of them cut.
#[tactic(auto, unfolding(crate::specs::Reply::masks_ok))]
fn masks_ok(masks: &[u8]) -> bool
    ensures { result ≡ masks_ok masks.now }
{
    (4..=64).contains(&masks.len()) && masks.len() % 4 == 0
}

// The masks in turn, the first of which makes and the others withdraw. The book that they come to is the one made
// afresh with the moves then in service, so it is made once. A making with all moves of bad masks is refused as they
// are.
#[tactic(auto, using(crate::proofs::Turns::masks_few))]
fn in_turn(plant: &[u8], masks: &[u8], book: &mut [u8]) -> Result<Wrote, Refusal>
    requires good { masks_ok masks.now ≡ true }
    requires ready { Ready plant.now book.old }
    ensures { outcome_of plant.now masks.now ≡ came_to (answer_of result).number book.new }
{
    let all = union(masks);
    if !mask_ok(u32::from(number(plant, 1)), all) {
        return make_book(plant, all, book);
    }
    let first = mask_at(masks, 0);
    let gone = union(&masks[4..]);
    make_book(plant, first - (first & gone), book)
}

// Writes what good masks with a plant come to, in a buffer of just the book's length.
fn reply_in(plant: &[u8], masks: &[u8], book: &mut [u8], out: &mut [u8]) -> u32
    requires good { masks_ok masks.now ≡ true }
    requires ready { Ready plant.now book.old }
    ensures { Told plant.now masks.now out.old result out.new }
{
    match in_turn(plant, masks, book) {
        Ok(_) => list_book(book, out),
        Err(why) => refused_text(why.number(), out),
    }
}

// Room for the longest book.
// Kept: tried in place, and the proof did not close, since an array in a local has no clause that says its length.
fn book_buffer() -> [u8; 34832]
    ensures { 34832 ≡ length result }
{
    [0; 34832]
}

// Writes what good masks with a plant come to.
#[tactic(auto, using(crate::proofs::Parts::head_long))]
fn reply_masks(plant: &[u8], masks: &[u8], out: &mut [u8]) -> u32
    requires head { head_ok plant.now ≡ true }
    requires good { masks_ok masks.now ≡ true }
    ensures { Told plant.now masks.now out.old result out.new }
{
    let mut book = book_buffer();
    let long = book_long(plant);
    reply_in(plant, masks, &mut book[..long], out)
}

// Writes the number of a plant that is refused, and otherwise that the masks are bad.
fn reply_bad(plant: &[u8], out: &mut [u8]) -> u32
    ensures long { result ≡ placed_long (bad_text plant.now) out.old }
    ensures bytes { out.new ≡ placed (bad_text plant.now) out.old }
{
    match check_plant(plant) {
        Ok(()) => bad_masks_text(out),
        Err(why) => refused_text(why.number(), out),
    }
}

// Where the plant ends, and the masks begin.
#[tactic(auto, using(crate::proofs::Parts::parted))]
fn plant_end(input: &[u8]) -> usize
    ensures { Parted input.now result }
{
    usize::from(number(input, 6)).min(input.len())
}

// Takes a plant with the masks after it, and writes the answer from the buffer's first byte on, if it fits; returns
// its length. Otherwise it writes nothing and returns 0.
pub fn reply(input: &[u8], out: &mut [u8]) -> u32
    ensures long { result ≡ placed_long (reply_to input.now) out.old }
    ensures bytes { out.new ≡ placed (reply_to input.now) out.old }
    ensures first { FirstDecide }
    ensures most { FewBytes }
    ensures afresh { ListsAfresh }
{
    let end = plant_end(input);
    let plant = &input[..end];
    let masks = &input[end..];
    if head_ok(plant) && masks_ok(masks) {
        return reply_masks(plant, masks, out);
    }
    reply_bad(plant, out)
}
