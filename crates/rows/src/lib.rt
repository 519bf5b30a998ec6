// Books as bytes: the check of one, document 01's answers 4 and 5, and the readers of its header and rows. Nothing here
// trusts a lent byte: each function has an answer for any slice and any number.
#![tactic(auto)]

ghost use Rattle.std.specs.Prelude.{◌≡◌, true, ◌+◌, ◌^◌, ◌<◌, length, drop};
ghost use Rattle.refusal.specs.Numbers.{fault_of};
ghost use Rattle.rows.specs.Checks.{lost_at, entry_in, entries_lost, lost_in, entries_held, held_in};
ghost use Rattle.statements.specs.Plants.{word};
ghost use Rattle.statements.specs.Books.{book_states, book_mask, staged, row_place, row_long, entry_place};
ghost use Rattle.statements.specs.Books.{wait_at, move_at, stage_at};
ghost use Rattle.statements.specs.Books.{is_lost, book_head_ok, rows_ok, book_fault};

use format::word::{mask_at, mask_ok, number, pair, word_at};
use refusal::Refusal;

// The moves in service: bit u is move u.
#[tactic(auto, unfolding(statements::specs::Books::book_mask, statements::specs::Books::mask_at))]
pub fn mask(book: &[u8]) -> u32
    ensures { result ≡ book_mask book.now }
{
    mask_at(book, 2)
}

// The book has stages: its length says so.
#[tactic(auto, using(crate::proofs::Rows::words_product), unfolding(statements::specs::Books::staged, statements::specs::Books::book_total, statements::specs::Books::book_states, statements::specs::Books::book_goals, statements::specs::Books::book_long))]
pub fn staged(book: &[u8]) -> bool
    ensures { result ≡ staged book.now }
{
    let s = usize::from(number(book, 0));
    let n = usize::from(number(book, 2));
    usize::from(number(book, 7)) == 16 + (2 * s + 4 * (s * n))
}

// The place of the row of a state.
#[tactic(auto, using(crate::proofs::Rows::state_product), unfolding(statements::specs::Books::row_place, statements::specs::Books::book_goals))]
pub fn row_place(book: &[u8], state: u32) -> usize
    ensures { result ≡ row_place book.now state }
{
    let x = state as usize;
    let entries = 4 * (x * usize::from(number(book, 2)));
    if staged(book) {
        return 16 + (2 * x + entries);
    }
    16 + entries
}

// The length of a row.
#[tactic(auto, unfolding(statements::specs::Books::row_long, statements::specs::Books::book_goals))]
pub fn row_long(book: &[u8]) -> usize
    ensures { result ≡ row_long book.now }
{
    let entries = 4 * usize::from(number(book, 2));
    if staged(book) {
        return 2 + entries;
    }
    entries
}

// The place of the entry of a state and a goal.
#[tactic(auto, using(crate::proofs::Rows::entry_known))]
pub fn entry_place(book: &[u8], state: u32, goal: u32) -> usize
    ensures place { result ≡ entry_place book.now state goal }
    ensures small { result < 2 ^ 58 }
{
    let rows = BookRows {
        book,
        stages: staged(book),
    };
    rows.entry(state, goal)
}

// The stage of a state; 1 in a book without stages.
#[tactic(auto, unfolding(statements::specs::Books::stage_at))]
pub fn stage_at(book: &[u8], state: u32) -> u16
    ensures { result ≡ stage_at book.now state }
{
    if staged(book) {
        return word_at(book, row_place(book, state));
    }
    1
}

// The wait of a state for a goal.
#[tactic(auto, unfolding(statements::specs::Books::wait_at))]
pub fn wait_at(book: &[u8], state: u32, goal: u32) -> u16
    ensures { result ≡ wait_at book.now state goal }
{
    word_at(book, entry_place(book, state, goal))
}

// The move listed for a state and a goal.
#[tactic(auto, using(crate::proofs::Rows::move_place))]
pub fn move_at(book: &[u8], state: u32, goal: u32) -> u16
    ensures { result ≡ move_at book.now state goal }
{
    word_at(book, entry_place(book, state, goal) + 2)
}

// A state is lost, in a book that is known to have stages or not: both places of every entry of its row and its stage,
// if there are stages, have the mark. For loops, which need ask only once whether there are.
pub fn lost_in(book: &[u8], stages: bool, state: u32) -> bool
    ensures { result ≡ lost_in stages book.now state }
{
    let rows = BookRows { book, stages };
    rows.lost(state)
}

// A state is lost.
#[tactic(auto, using(crate::proofs::Rows::lost_known))]
pub fn is_lost(book: &[u8], state: u32) -> bool
    ensures { result ≡ is_lost book.now state }
{
    lost_in(book, staged(book), state)
}

// The entry at a place has the mark of a lost state in both places.
#[tactic(auto, using(crate::proofs::Rows::lost_cut, format::proofs::Words::word_further), unfolding(crate::specs::Checks::lost_at))]
fn entry_lost(book: &[u8], at: usize) -> bool
    requires { at < 2 ^ 60 }
    ensures { result ≡ lost_at book.now at }
{
    if book.len() < at + 4 {
        return false;
    }
    (word_at(book, at) == 65535) & (word_at(book, at + 2) == 65535)
}

// The two-byte number that starts at a place within the book.
#[tactic(auto, using(format::proofs::Words::word_here))]
fn word_in(book: &[u8], at: usize) -> u16
    requires { at + 1 < length book.now }
    ensures { result ≡ word 0 (drop at book.now) }
{
    pair(book[at], book[at + 1])
}

// The rows of a book that is read as one with stages or as one without.
#[derive(Clone, Copy)]
struct BookRows<'a> {
    book: &'a [u8],
    stages: bool,
}

impl<'a> BookRows<'a> {
    // The place of the entry of a state and a goal.
    #[tactic(auto, using(crate::proofs::Rows::state_product), unfolding(crate::specs::Checks::entry_in, statements::specs::Books::book_goals))]
    fn entry(&self, state: u32, goal: u32) -> usize
        ensures place { result ≡ entry_in self.now.stages self.now.book.now state goal }
        ensures small { result < 2 ^ 58 }
    {
        let x = state as usize;
        let entries = 4 * (x * usize::from(number(self.book, 2)) + goal as usize);
        if self.stages {
            return 16 + (2 * (x + 1) + entries);
        }
        16 + entries
    }

    // Both places of every entry of a state's row have the mark.
    #[tactic(auto, using(crate::proofs::Rows::entry_next, crate::proofs::Rows::lost_all, crate::proofs::Rows::lost_none))]
    fn entries_lost(&self, state: u32) -> bool
        ensures { result ≡ entries_lost self.now.stages self.now.book.now state }
    {
        let start = self.entry(state, 0);
        for goal in 0..usize::from(number(self.book, 2)) {
            if !entry_lost(self.book, start + 4 * goal) {
                return false;
            }
        }
        true
    }

    // A state is lost: both places of every entry of its row and its stage, if there are stages, have the mark.
    #[tactic(auto, using(crate::proofs::Rows::and_yes, sets::proofs::Tests::and_none), unfolding(crate::specs::Checks::lost_in))]
    fn lost(&self, state: u32) -> bool
        ensures { result ≡ lost_in self.now.stages self.now.book.now state }
    {
        self.entries_lost(state) && (!self.stages || stage_at(self.book, state) == 65535)
    }
}

// The rows of a book with a good header.
#[derive(Clone, Copy)]
struct GoodRows<'a> {
    rows: BookRows<'a>,
    ghost head: { book_head_ok rows.book.now ≡ true },
    ghost sort: { rows.stages ≡ staged rows.book.now },
}

impl<'a> GoodRows<'a> {
    // A state's row has every wait at most 1,023 and every move in the book's mask. Joined bit by bit, the waits are at
    // most 1,023 just when each is, and the moves at most 31 likewise; the set of the moves is within the mask just when
    // each is in it.
    fn entries_held(&self, state: u32) -> bool
        requires { state < book_states self.now.rows.book.now }
        ensures { result ≡ entries_held self.now.rows.stages self.now.rows.book.now state }
    {
        let book = self.rows.book;
        let mask = mask(book);
        let start = self.rows.entry(state, 0);
        let mut waits: u16 = 0;
        let mut moves: u16 = 0;
        let mut set: u32 = 0;
        for goal in 0..usize::from(number(book, 2)) {
            let at = start + 4 * goal;
            let action = word_in(book, at + 2);
            waits |= word_in(book, at);
            moves |= action;
            set |= 1 << u32::from(action % 32);
        }
        (waits <= 1023) & (moves <= 31) & ((set | mask) == mask)
    }

    // A state's row has such entries and, if there are stages, one from 1 to S.
    #[tactic(auto, using(crate::proofs::Rows::and_yes, sets::proofs::Tests::and_none), unfolding(crate::specs::Checks::held_in, statements::specs::Books::book_states))]
    fn held(&self, state: u32) -> bool
        requires { state < book_states self.now.rows.book.now }
        ensures { result ≡ held_in self.now.rows.stages self.now.rows.book.now state }
    {
        self.entries_held(state)
            && (!self.rows.stages
                || (1..=number(self.rows.book, 0)).contains(&stage_at(self.rows.book, state)))
    }
}

// Every row is wholly lost or held, and as many rows are not lost as the header counts; in a book with a good header.
#[tactic(auto, using(crate::proofs::Rows::rows_few, crate::proofs::Rows::rows_end))]
fn rows_ok(book: &[u8]) -> bool
    requires { book_head_ok book.now ≡ true }
    ensures { result ≡ rows_ok book.now }
{
    let good = GoodRows {
        rows: BookRows {
            book,
            stages: staged(book),
        },
    };
    let mut kept: u32 = 0;
    for state in 0..u32::from(number(book, 0)) {
        if !good.rows.lost(state) {
            if !good.held(state) {
                return false;
            }
            kept += 1;
        }
    }
    u32::from(number(book, 3)) == kept
}

// The header is as document 01 says, with the length of a book without stages or with them, and the slice is as long as
// the header says. The `|` makes no branch: so LLVM knows at the loops over a row that there are at most 8 goals.
#[tactic(auto, using(crate::proofs::Rows::words_product), unfolding(statements::specs::Books::book_head_ok, statements::specs::Books::book_states, statements::specs::Books::book_moves, statements::specs::Books::book_goals, statements::specs::Books::book_total, statements::specs::Books::book_long))]
pub fn head_ok(book: &[u8]) -> bool
    ensures { result ≡ book_head_ok book.now }
{
    if book.len() < 16 {
        return false;
    }
    let s = usize::from(number(book, 0));
    let u = u32::from(number(book, 1));
    let n = usize::from(number(book, 2));
    let rows = number(book, 6);
    let total = usize::from(number(book, 7));
    (1..=1024).contains(&s)
        && (1..=32).contains(&u)
        && (1..=8).contains(&n)
        && rows == 16
        && ((total == 16 + 4 * (s * n)) | staged(book))
        && mask_ok(u, mask(book))
        && book.len() == total
}

// Accepts a book, or says what is wrong with it: its header, or a row or the count of kept states.
#[tactic(auto, using(crate::proofs::Faults::fault_4, crate::proofs::Faults::fault_5, crate::proofs::Faults::no_book_fault))]
pub fn check_book(book: &[u8]) -> Result<(), Refusal>
    ensures { fault_of result ≡ book_fault book.now }
{
    if !head_ok(book) {
        return Err(Refusal::Book);
    }
    if !rows_ok(book) {
        return Err(Refusal::Row);
    }
    Ok(())
}
