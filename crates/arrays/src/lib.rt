// Loops over slices of 16-bit numbers. Each is total: where something does not fit it writes nothing.
#![tactic(auto)]

ghost use Rattle.std.specs.Prelude.{◌≡◌};
ghost use Rattle.statements.specs.Sets.{over};
ghost use Rattle.arrays.specs.Lists.{fitting, zeroed, rising};

// Copies a list over the front of another.
// Kept: a loop, since `copy_from_slice` has the archive for C ask for `memmove` from outside, as nothing else does.
pub fn copy(from: &[u16], to: &mut [u16])
    ensures { to.new ≡ over (fitting from.now to.old) to.old }
{
    if from.len() > to.len() {
        return;
    }
    for (k, &v) in from.iter().enumerate() {
        to[k] = v;
    }
}

// Puts 0 at each listed place; a place beyond the end is passed over.
#[tactic(auto, using(crate::proofs::Marks::mark_none, crate::proofs::Marks::mark_yes, crate::proofs::Marks::mark_no))]
pub fn mark(listed: &[u16], to: &mut [u16])
    ensures { to.new ≡ zeroed listed.now to.old }
{
    for &x in listed {
        let place = usize::from(x);
        if place < to.len() {
            to[place] = 0;
        }
    }
}

// Whether the numbers of a list strictly rise and are below a limit: the last is the largest. It goes on past a bad
// number: a loop with no way out in the middle is compiled to vector code.
pub fn rises(list: &[u16], limit: usize) -> bool
    ensures { result ≡ rising 0 limit list.now }
{
    if list.is_empty() {
        return true;
    }
    let n = list.len() - 1;
    let mut good = true;
    for k in 0..n {
        good &= list[k] < list[k + 1];
    }
    good & (usize::from(list[n]) < limit)
}
