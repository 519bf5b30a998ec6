// The array of first groups: the groups of each state are counted in it, and summed up afterwards.
ghost use Rattle.std.specs.Prelude.{◌≡◌, suc, ◌<◌, length, take};
ghost use Rattle.layout.specs.Layout.{total, bounds};

// Turns the first numbers, the lengths of some parts, into where these begin, with one more, where the last one stops.
pub(crate) fn bound(first: &mut [u16], count: u16)
    requires room { count < length first.old }
    requires small { total (take count first.old) < 65536 }
    ensures { take (suc count) first.new ≡ bounds (take count first.old) }
{
    let last = usize::from(count);
    let mut sum: u16 = 0;
    for x in 0..last {
        let size = first[x];
        first[x] = sum;
        sum += size;
    }
    first[last] = sum;
}
