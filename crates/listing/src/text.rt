// Texts put into a buffer, byte after byte. What would stand past the buffer's end is not put, so with an empty buffer a
// text is only counted.
ghost use Rattle.std.specs.Prelude.{◌≡◌, ◌+◌, ◌^◌, ◌<◌, ◌∷◌, [], length};
ghost use Rattle.listing.specs.Text.{digits, figure};
ghost use Rattle.listing.specs.Text.{head_text, line_text, state_text, book_text, refused_text};
ghost use Rattle.listing.specs.Buffers.{Wrote};

use format::word::number;
use rows::{is_lost, mask, move_at, wait_at};

// A buffer, and the place in it that the text has come to, which must be a usize.
#[derive(Drop)]
struct Printer<'a> {
    out: &'a mut [u8],
    at: usize,
}

impl<'a> Printer<'a> {
    // Puts a byte.
    fn byte(&mut self, byte: u8)
        requires { self.old.at + 1 < 2 ^ 64 }
        ensures same { self.new.out.ghost_name ≡ self.old.out.ghost_name }
        ensures wrote { Wrote self.old.out.now self.old.at (byte ∷ []) self.new.at self.new.out.now }
    {
        if self.at < self.out.len() {
            self.out[self.at] = byte;
        }
        self.at += 1;
    }

    // Puts a constant text.
    #[tactic(auto, using(crate::proofs::Writing::text_room, crate::proofs::Writing::wrote_none))]
    fn text(&mut self, text: &[u8])
        requires { self.old.at + length text.now < 2 ^ 64 }
        ensures same { self.new.out.ghost_name ≡ self.old.out.ghost_name }
        ensures wrote { Wrote self.old.out.now self.old.at text.now self.new.at self.new.out.now }
    {
        for byte in text {
            self.byte(*byte);
        }
    }

    // Puts the decimal digits of a number.
    #[tactic(auto, using(crate::proofs::Digits::one_long, crate::proofs::Digits::more_long))]
    fn digits(&mut self, v: u32)
        requires { self.old.at + length (digits v) < 2 ^ 64 }
        ensures same { self.new.out.ghost_name ≡ self.old.out.ghost_name }
        ensures wrote { Wrote self.old.out.now self.old.at (digits v) self.new.at self.new.out.now }
    {
        if 10 <= v {
            self.digits(v / 10);
        }
        self.byte(48 + (v % 10) as u8);
    }

    // Puts a number and the text that follows it.
    #[tactic(auto, unfolding(crate::specs::Text::figure))]
    fn figure(&mut self, v: u32, text: &[u8])
        requires { self.old.at + length (figure v text.now) < 2 ^ 64 }
        ensures same { self.new.out.ghost_name ≡ self.old.out.ghost_name }
        ensures wrote { Wrote self.old.out.now self.old.at (figure v text.now) self.new.at self.new.out.now }
    {
        self.digits(v);
        self.text(text);
    }

    // Puts the line of a state and a goal.
    #[tactic(auto, using(crate::proofs::Texts::line_long), unfolding(crate::specs::Text::space, crate::specs::Text::newline))]
    fn line(&mut self, book: &[u8], state: u32, goal: u32)
        requires { self.old.at + length (line_text book.now state goal) < 2 ^ 64 }
        ensures same { self.new.out.ghost_name ≡ self.old.out.ghost_name }
        ensures wrote { Wrote self.old.out.now self.old.at (line_text book.now state goal) self.new.at self.new.out.now }
    {
        let wait = u32::from(wait_at(book, state, goal));
        let action = u32::from(move_at(book, state, goal));
        self.figure(state, b" ");
        self.figure(goal, b" ");
        self.figure(wait, b" ");
        self.figure(action, b"\n");
    }

    // Puts the lines of a state: one for each goal, or one that says it is lost.
    #[tactic(auto, using(crate::proofs::Texts::state_lost), unfolding(crate::specs::Text::lost_text))]
    fn state(&mut self, book: &[u8], state: u32)
        requires { self.old.at + length (state_text book.now state) < 2 ^ 64 }
        ensures same { self.new.out.ghost_name ≡ self.old.out.ghost_name }
        ensures wrote { Wrote self.old.out.now self.old.at (state_text book.now state) self.new.at self.new.out.now }
    {
        if is_lost(book, state) {
            self.figure(state, b" lost\n");
            return;
        }
        for goal in 0..u32::from(number(book, 2)) {
            self.line(book, state, goal);
        }
    }

    // Puts the first line: kept states, states, and moves in service.
    #[tactic(auto, using(crate::proofs::Texts::head_long), unfolding(crate::specs::Text::of_text, crate::specs::Text::kept_text, crate::specs::Text::moves_text, statements::specs::Books::book_states, statements::specs::Books::book_count))]
    fn head(&mut self, book: &[u8])
        requires { self.old.at + length (head_text book.now) < 2 ^ 64 }
        ensures same { self.new.out.ghost_name ≡ self.old.out.ghost_name }
        ensures wrote { Wrote self.old.out.now self.old.at (head_text book.now) self.new.at self.new.out.now }
    {
        let kept = u32::from(number(book, 3));
        let states = u32::from(number(book, 0));
        let served = mask(book).count_ones();
        self.figure(kept, b" of ");
        self.figure(states, b" kept, ");
        self.figure(served, b" moves in service\n");
    }
}

// Puts a book's listing from the first byte on, and returns its length.
#[tactic(auto, using(crate::proofs::Writing::wrote_same, crate::proofs::Texts::book_long_lem), unfolding(crate::specs::Text::book_text, statements::specs::Books::book_states))]
pub(crate) fn put_book(out: &mut [u8], book: &[u8]) -> usize
    requires { length (book_text book.now) < 2 ^ 64 }
    ensures { Wrote out.old 0 (book_text book.now) result out.new }
{
    let mut printer = Printer { out, at: 0 };
    printer.head(book);
    for state in 0..u32::from(number(book, 0)) {
        printer.state(book, state);
    }
    printer.at
}

// Puts the text of a refusal from the first byte on, and returns its length.
#[tactic(auto, using(crate::proofs::Writing::wrote_then, crate::proofs::Writing::wrote_same, crate::proofs::Digits::figure_few), unfolding(crate::specs::Text::refused_text, crate::specs::Text::newline))]
pub(crate) fn put_refused(out: &mut [u8], number: u8) -> usize
    ensures { Wrote out.old 0 (refused_text number) result out.new }
{
    let mut printer = Printer { out, at: 0 };
    printer.text(b"refused ");
    printer.figure(u32::from(number), b"\n");
    printer.at
}

// Puts a constant text from the first byte on, and returns its length.
#[tactic(auto, using(crate::proofs::Writing::wrote_same))]
pub(crate) fn put_text(out: &mut [u8], text: &[u8]) -> usize
    ensures { Wrote out.old 0 text.now result out.new }
{
    let mut printer = Printer { out, at: 0 };
    printer.text(text);
    printer.at
}
