// The public calls that write a book: make one, withdraw moves from it, once or by a list, or see what that would cost,
// return moves to it; and the one that writes the index of a plant.
#![tactic(auto, using(demands::proofs::Demand2::demand_2, demands::proofs::Demand3::demand_3, demands::proofs::InTurn::in_turn_lem, demands::proofs::Returning::returning, demands::proofs::ByIndex::by_index_lem, demands::proofs::Elsewhere::elsewhere, promises::proofs::Written::demand_2_written, promises::proofs::Traces::demand_3_traced, promises::proofs::InTurn::in_turn_traced, promises::proofs::Returning::returning_traced, promises::proofs::Indexed::indexed, promises::proofs::Elsewhere::elsewhere_traced, promises::proofs::Previewed::previewed, promises::proofs::Determined::determined, crate::proofs::Answered::drops_listed))]

mod make;
mod start;
mod withdraw;

ghost use Rattle.std.specs.Prelude.{◌≡◌};
ghost use Rattle.statements.specs.Demands.{Demand2, Demand3, InTurn, Returning};
ghost use Rattle.statements.specs.ByIndex.{ByIndex};
ghost use Rattle.statements.specs.Elsewhere.{Elsewhere};
ghost use Rattle.refusal.specs.Numbers.{fault_of};
ghost use Rattle.promises.specs.Answers.{answer_of, cost_of};
ghost use Rattle.promises.specs.Says.{MakeSays, WithdrawSays, WithdrawListSays, ReturnSays, IndexSays, PreviewSays};
ghost use Rattle.promises.specs.Says.{MakeIndexedSays, WithdrawIndexedSays, Listed, Determined};
ghost use Rattle.promises.specs.Written.{Demand2Written};
ghost use Rattle.promises.specs.Previews.{Previews};
ghost use Rattle.promises.specs.Traces.{Demand3Traced};
ghost use Rattle.promises.specs.InTurn.{InTurnTraced};
ghost use Rattle.promises.specs.Returning.{ReturningTraced};
ghost use Rattle.promises.specs.Indexed.{Indexed};
ghost use Rattle.promises.specs.Elsewhere.{ElsewhereTraced};

use graph::Way;
use promises::{Preview, Wrote};
use refusal::Refusal;

// What a call answers that writes nothing, by what its checks say.
fn refused(checked: Result<(), Refusal>) -> Result<Wrote, Refusal>
    ensures { answer_of result ≡ record { number = fault_of checked; length = 0; drops = 0 } }
{
    checked?;
    Ok(Wrote {
        length: 0,
        drops: 0,
    })
}

// Takes a plant, a mask and a book buffer. Writes the book and returns its length.
pub fn make_book(plant: &[u8], mask: u32, out: &mut [u8]) -> Result<Wrote, Refusal>
    ensures make_says { MakeSays plant.now mask out.old out.new (answer_of result) }
    ensures make_right { Demand2 }
    ensures make_written { Demand2Written }
    ensures make_afresh { Demand3 }
    ensures make_traced { Demand3Traced }
    ensures make_elsewhere { Elsewhere }
    ensures make_elsewhere_traced { ElsewhereTraced }
    ensures make_determined { Determined }
{
    let room = out.len();
    if !refusals::make_ahead(plant, mask, room) {
        return refused(refusals::make(plant, mask, room));
    }
    let way = Way { index: None, mask };
    make::carry_out(plant, way, out)
}

// Takes a plant, its index, a mask and a book buffer. Writes the very book that is made without the index and returns
// its length.
pub fn make_indexed(plant: &[u8], index: &[u8], mask: u32, out: &mut [u8]) -> Result<Wrote, Refusal>
    ensures make_indexed_says { MakeIndexedSays plant.now index.now mask
        out.old out.new (answer_of result) }
    ensures make_indexed_right { Demand2 }
    ensures make_indexed_written { Demand2Written }
    ensures make_indexed_afresh { Demand3 }
    ensures make_indexed_traced { Demand3Traced }
    ensures make_indexed_ways { ByIndex }
    ensures make_indexed_against_plain { Indexed }
    ensures make_indexed_elsewhere { Elsewhere }
    ensures make_indexed_elsewhere_traced { ElsewhereTraced }
    ensures make_indexed_determined { Determined }
{
    let room = out.len();
    if !refusals::make_ahead(plant, mask, room) {
        return refused(refusals::make_by(plant, index, mask, room));
    }
    let way = Way {
        index: Some(index),
        mask,
    };
    make::carry_out(plant, way, out)
}

// Takes a plant, a book, a mask of moves to withdraw, a book buffer and a drop buffer. Writes the book and, by rising
// number, the states kept before and lost now; returns the book's length and how many they are. It is inlined, so that a
// preview, which has the deepest path, takes a frame less of stack.
#[inline(always)]
pub fn withdraw_moves(
    plant: &[u8],
    book: &[u8],
    mask: u32,
    out: &mut [u8],
    drops: &mut [u8],
) -> Result<Wrote, Refusal>
    ensures withdraw_says { WithdrawSays plant.now book.now mask
        out.old out.new drops.old drops.new (answer_of result) }
    ensures withdraw_right { Demand2 }
    ensures withdraw_written { Demand2Written }
    ensures withdraw_afresh { Demand3 }
    ensures withdraw_traced { Demand3Traced }
    ensures withdraw_listed { Listed }
    ensures withdraw_determined { Determined }
{
    if !refusals::withdraw_ahead(plant, book, mask, out.len(), drops.len()) {
        return refused(refusals::withdraw(plant, book, mask, out.len(), drops.len()));
    }
    withdraw::carry_out(plant, None, book, mask, out, drops)
}

// Takes a plant, its index, a book, a mask of moves to withdraw, a book buffer and a drop buffer. Writes the very book
// that is left without the index, and the same states; returns the book's length and how many they are.
pub fn withdraw_indexed(
    plant: &[u8],
    index: &[u8],
    book: &[u8],
    mask: u32,
    out: &mut [u8],
    drops: &mut [u8],
) -> Result<Wrote, Refusal>
    ensures withdraw_indexed_says { WithdrawIndexedSays plant.now index.now book.now mask
        out.old out.new drops.old drops.new (answer_of result) }
    ensures withdraw_indexed_right { Demand2 }
    ensures withdraw_indexed_written { Demand2Written }
    ensures withdraw_indexed_afresh { Demand3 }
    ensures withdraw_indexed_traced { Demand3Traced }
    ensures withdraw_indexed_listed { Listed }
    ensures withdraw_indexed_ways { ByIndex }
    ensures withdraw_indexed_against_plain { Indexed }
    ensures withdraw_indexed_determined { Determined }
{
    if !refusals::withdraw_ahead(plant, book, mask, out.len(), drops.len()) {
        return refused(refusals::withdraw_by(plant, index, book, mask, out.len(), drops.len()));
    }
    withdraw::carry_out(plant, Some(index), book, mask, out, drops)
}

// Takes a plant, a book, a list of up to 16 masks of moves to withdraw, four bytes each, a book buffer and a drop
// buffer. Writes the book that the single withdrawals in turn come to, which is that of one withdrawal of all moves
// that they name, and, by rising number, the states kept at the start and lost at the end; returns the book's length
// and how many they are. An empty list acts as one mask of 0.
pub fn withdraw_list(
    plant: &[u8],
    book: &[u8],
    masks: &[u8],
    out: &mut [u8],
    drops: &mut [u8],
) -> Result<Wrote, Refusal>
    ensures withdraw_list_says { WithdrawListSays plant.now book.now masks.now
        out.old out.new drops.old drops.new (answer_of result) }
    ensures list_written { Demand2Written }
    ensures list_afresh { Demand3 }
    ensures list_traced { Demand3Traced }
    ensures list_in_turn { InTurn }
    ensures list_in_turn_traced { InTurnTraced }
    ensures list_determined { Determined }
{
    if !refusals::withdraw_list_ahead(plant, book, masks, out.len(), drops.len()) {
        return refused(refusals::withdraw_list(plant, book, masks, out.len(), drops.len()));
    }
    let gone = format::word::union(masks);
    withdraw::carry_out(plant, None, book, gone, out, drops)
}

// Takes a plant, a book, a mask of moves to return, a book buffer and a drop buffer. Writes the book of a make with the
// moves of that book and those returned and, by rising number, the states kept now and not before; returns the book's
// length and how many they are.
pub fn return_moves(
    plant: &[u8],
    book: &[u8],
    mask: u32,
    out: &mut [u8],
    gained: &mut [u8],
) -> Result<Wrote, Refusal>
    ensures return_says { ReturnSays plant.now book.now mask
        out.old out.new gained.old gained.new (answer_of result) }
    ensures return_written { Demand2Written }
    ensures return_afresh { Demand3 }
    ensures return_traced { Demand3Traced }
    ensures return_back { Returning }
    ensures return_back_traced { ReturningTraced }
    ensures return_determined { Determined }
{
    let room = out.len();
    if !refusals::withdraw_ahead(plant, book, mask, room, gained.len()) {
        return refused(refusals::withdraw(plant, book, mask, room, gained.len()));
    }
    let old = rows::mask(book);
    let way = Way {
        index: None,
        mask: old | mask,
    };
    let Some(length) = make::book(plant, way, out) else {
        return refused(refusals::withdraw(plant, book, mask, room, gained.len()));
    };
    let count = writing::dropped(&out[..length as usize], book, gained);
    Ok(Wrote {
        length,
        drops: count,
    })
}

// Takes a plant and a buffer. Writes the plant's index and returns its length.
pub fn index_plant(plant: &[u8], out: &mut [u8]) -> Result<Wrote, Refusal>
    ensures index_says { IndexSays plant.now out.old out.new (answer_of result) }
    ensures index_ways { ByIndex }
    ensures index_against_plain { Indexed }
    ensures index_determined { Determined }
{
    let room = out.len();
    if !index::write(plant, out) {
        return refused(refusals::indexing(plant, room));
    }
    let long = 8 + 2 * u32::from(format::word::number(plant, 3));
    Ok(Wrote {
        length: long,
        drops: 0,
    })
}

// Takes a plant, a book, a mask of moves to withdraw and a drop buffer. Writes, by rising number, the states that the
// withdrawal would drop; returns how many they are and how many it would keep. The withdrawal is made in memory of the
// call's own, which has room for the longest book.
pub fn preview_withdrawal(
    plant: &[u8],
    book: &[u8],
    mask: u32,
    drops: &mut [u8],
) -> Result<Preview, Refusal>
    ensures preview_says { PreviewSays plant.now book.now mask
        drops.old drops.new (cost_of result) }
    ensures preview_agrees { Previews }
    ensures preview_determined { Determined }
{
    let mut next = [0u8; 34832];
    let written = withdraw_moves(plant, book, mask, &mut next, drops)?;
    Ok(Preview {
        drops: written.drops,
        kept: u32::from(format::word::number(&next, 3)),
    })
}
