// The texts that `planbook` prints: a book's listing, a refusal, `bad masks`. Each is written whole or not at all.
#![tactic(auto)]

mod text;

ghost use Rattle.std.specs.Prelude.{◌≡◌};
ghost use Rattle.listing.specs.Text.{listing, refused_text, bad_masks_text};
ghost use Rattle.listing.specs.Buffers.{placed, placed_long};

// Kept: these return the length of what was written, 0 where nothing was, and `reply` says so too (`placed_long`).

// Writes an accepted book's listing from the buffer's first byte on, and returns its length. For a refused book, or
// where the buffer is too short, it writes nothing and returns 0.
pub fn list_book(book: &[u8], out: &mut [u8]) -> u32
    ensures long { result ≡ placed_long (listing book.now) out.old }
    ensures bytes { out.new ≡ placed (listing book.now) out.old }
{
    if rows::check_book(book).is_err() {
        return 0;
    }
    let long = text::put_book(&mut out[..0], book);
    if out.len() < long {
        return 0;
    }
    text::put_book(out, book) as u32
}

// Writes `refused` and its number, if they fit, and returns their length; otherwise writes nothing and returns 0.
#[tactic(auto, using(crate::proofs::Digits::figure_few), unfolding(crate::specs::Text::refused_text, crate::specs::Text::newline))]
pub fn refused_text(number: u8, out: &mut [u8]) -> u32
    ensures long { result ≡ placed_long (refused_text number) out.old }
    ensures bytes { out.new ≡ placed (refused_text number) out.old }
{
    let long = text::put_refused(&mut out[..0], number);
    if out.len() < long {
        return 0;
    }
    text::put_refused(out, number) as u32
}

// Writes `bad masks`, if it fits, and returns its length; otherwise writes nothing and returns 0.
pub fn bad_masks_text(out: &mut [u8]) -> u32
    ensures long { result ≡ placed_long bad_masks_text out.old }
    ensures bytes { out.new ≡ placed bad_masks_text out.old }
{
    if out.len() < 10 {
        return 0;
    }
    text::put_text(out, b"bad masks\n") as u32
}
