// Two-byte numbers in a byte slice, the low byte first, masks of four bytes, and the bits of a number.
ghost use Rattle.std.specs.Prelude.{◌≡◌, ◌+◌, ◌*◌, ◌<◌, ◌≤◌, leb, length, drop};
ghost use Rattle.std.proofs.lemmas.List.Edits.{sets};
ghost use Rattle.statements.specs.Sets.{bit, pick, over};
ghost use Rattle.statements.specs.Plants.{word};
ghost use Rattle.statements.specs.Books.{two, bytes_of, mask_at, mask_ok, masks_of, union_of};

// The number of a low and a high byte.
pub fn pair(low: u8, high: u8) -> u16
    ensures { result ≡ low + 256 * high }
{
    u16::from(low) + 256 * u16::from(high)
}

// The two-byte number that starts at a place within the slice.
#[tactic(auto, using(crate::proofs::Words::word_here))]
pub(crate) fn word_in(s: &[u8], at: usize) -> u16
    requires { at + 1 < length s.now }
    ensures { result ≡ word 0 (drop at s.now) }
{
    pair(s[at], s[at + 1])
}

// The two-byte number that starts at a place; bytes past the end count as 0.
#[tactic(auto, using(crate::proofs::Words::word_past, crate::proofs::Words::word_last))]
pub fn word_at(s: &[u8], at: usize) -> u16
    ensures { result ≡ word 0 (drop at s.now) }
{
    if s.len() <= at {
        return 0;
    }
    if s.len() - at == 1 {
        return pair(s[at], 0);
    }
    word_in(s, at)
}

// Number i of a slice read as two-byte numbers. The first four of a plant or a book are S, U, N, and E or K.
#[tactic(auto, using(crate::proofs::Words::word_number))]
pub fn number(s: &[u8], i: u8) -> u16
    ensures { result ≡ word i s.now }
{
    word_at(s, 2 * usize::from(i))
}

// A two-byte number at a place where it fits, the low byte first.
fn store(out: &mut [u8], at: usize, v: u16)
    requires { at + 2 ≤ length out.old }
    ensures { out.new ≡ sets out.old at (two v) }
{
    out[at..at + 2].copy_from_slice(&v.to_le_bytes());
}

// Writes a two-byte number at a place. Where its two bytes do not fit, nothing is written.
pub fn put(out: &mut [u8], at: usize, v: u16)
    ensures { out.new ≡ pick (leb (at + 2) (length out.old)) (sets out.old at (two v)) out.old }
{
    let room = out.len().saturating_sub(at);
    if room < 2 {
        return;
    }
    store(out, at, v);
}

// Writes two-byte numbers over the front of a buffer, one after the other. Where they do not all fit, nothing is written.
pub fn put_all(numbers: &[u16], out: &mut [u8])
    ensures { out.new ≡ pick (leb (2 * length numbers.now) (length out.old))
        (over (bytes_of numbers.now) out.old) out.old }
{
    if out.len() / 2 < numbers.len() {
        return;
    }
    for (k, &v) in numbers.iter().enumerate() {
        store(out, 2 * k, v);
    }
}

// Mask k of a slice read as four-byte masks.
#[tactic(auto, using(crate::proofs::Words::mask_halves))]
pub fn mask_at(masks: &[u8], k: u8) -> u32
    ensures { result ≡ mask_at masks.now k }
{
    let at = 4 * usize::from(k);
    u32::from(word_at(masks, at)) + 65536 * u32::from(word_at(masks, at + 2))
}

// All moves that a mask of a list of them names. Bytes past the last whole mask are left aside.
pub fn union(masks: &[u8]) -> u32
    ensures { result ≡ union_of (masks_of masks.now) }
{
    let mut all = 0;
    for mask in masks.chunks_exact(4) {
        all |= mask_at(mask, 0);
    }
    all
}

// A mask has no bit at the number of moves or above.
#[tactic(auto, using(crate::proofs::Words::power), unfolding(statements::specs::Books::mask_ok))]
pub fn mask_ok(moves: u32, mask: u32) -> bool
    ensures { result ≡ mask_ok moves mask }
{
    if 32 <= moves {
        return true;
    }
    mask < (1 << moves)
}

// Bit i of a number.
#[tactic(auto, unfolding(statements::specs::Sets::bit))]
pub fn bit_at(v: u32, i: u32) -> bool
    ensures { result ≡ bit i v }
{
    if 32 <= i {
        return false;
    }
    (v >> i) % 2 == 1
}
