// From the gauge to a state: a table of bands, each with a lower end, an upper end and a state.
#![tactic(auto)]

ghost use Rattle.std.specs.Prelude.{◌≡◌, true, false, ◌&&◌, ◌*◌, ◌<◌, ◌≤◌, length, get_or, MatchOption};
ghost use Rattle.std.specs.Float.Ieee.{lt};
ghost use Rattle.statements.specs.Sets.{every};
ghost use Rattle.gauge.specs.Numbers.{is_finite};
ghost use Rattle.gauge.specs.Bands.{end_of, end_ok, not_empty, follows, from_lower, under_upper};
ghost use Rattle.gauge.specs.Bands.{band_of, band_ok, step_ok, lists_fit, table_ok, deviation_of, holds};
ghost use Rattle.gauge.specs.Bands.{kinds_ok, reading_ok, band_at, place_of, PlaceSays};
ghost use Rattle.gauge.specs.Placed.{Placed, Compared, Rounded};

use refusal::Refusal;

// A band's end: open without limit, or at a number of millimetres.
#[derive(Clone, Copy)]
pub enum End {
    Open,
    At(f64),
}

// A band: the lower end is included, the upper one is not.
#[derive(Clone, Copy)]
pub struct Band {
    pub lower: End,
    pub upper: End,
    pub state: u32,
}

// What the gauge shows, and what it should.
#[derive(Clone, Copy)]
pub struct Gauge {
    pub reading: f64,
    pub aim: f64,
}

// A table lent as three lists that fit one another: for each band two kinds and two ends, the lower one first, and a
// state.
#[derive(Clone, Copy)]
struct Bands<'a> {
    kinds: &'a [u8],
    ends: &'a [f64],
    states: &'a [u32],
    ghost kinds_long: { length kinds.now ≡ 2 * length states.now },
    ghost ends_long: { length ends.now ≡ 2 * length states.now },
    ghost few: { length states.now < 65 },
}

// Whether x is neither undefined nor infinite.
fn finite(x: f64) -> bool
    ensures { result ≡ is_finite x }
{
    f64::NEG_INFINITY < x && x < f64::INFINITY
}

// Whether x is below y and both are finite.
fn rises(x: f64, y: f64) -> bool
    ensures { result ≡ (is_finite x && (is_finite y && lt x y)) }
{
    x < y && f64::NEG_INFINITY < x && y < f64::INFINITY
}

impl Gauge {
    // The reading less the aim, rounded once.
    #[tactic(auto, unfolding(crate::specs::Bands::deviation_of))]
    fn deviation(self) -> f64
        ensures { result ≡ deviation_of self.reading self.aim }
    {
        self.reading - self.aim
    }

    // Whether reading, aim and deviation are finite.
    #[tactic(auto, unfolding(crate::specs::Bands::reading_ok))]
    fn is_readable(self) -> bool
        ensures { result ≡ reading_ok self.reading self.aim }
    {
        finite(self.reading) & (finite(self.aim) & finite(self.deviation()))
    }
}

impl End {
    // An end by its kind, 0 for open and 1 for at.
    fn of_kind(kind: u8, at: f64) -> End
        ensures { result ≡ end_of kind at }
    {
        match kind {
            0 => End::Open,
            _ => End::At(at),
        }
    }

    // Whether an end is open or a finite number.
    fn is_ok(self) -> bool
        ensures { result ≡ end_ok self }
    {
        match self {
            End::Open => true,
            End::At(x) => finite(x),
        }
    }

    // Whether a band that ends here may come before one that begins at the next end.
    fn is_followed_by(self, next: End) -> bool
        ensures { result ≡ follows self next }
    {
        match (self, next) {
            (End::At(x), End::At(y)) => x <= y,
            _ => false,
        }
    }

    // Whether d is not below a lower end, which is included.
    fn is_lower_of(self, d: f64) -> bool
        ensures { result ≡ from_lower self d }
    {
        match self {
            End::Open => true,
            End::At(x) => x <= d,
        }
    }

    // Whether d is below an upper end, which is not included.
    fn is_upper_of(self, d: f64) -> bool
        ensures { result ≡ under_upper self d }
    {
        match self {
            End::Open => true,
            End::At(x) => d < x,
        }
    }
}

impl Band {
    // Whether both ends are open or finite, and something lies between them.
    fn has_ends(self) -> bool
        ensures { result ≡ (end_ok self.lower && (end_ok self.upper && not_empty self.lower self.upper)) }
    {
        match (self.lower, self.upper) {
            (End::At(x), End::At(y)) => rises(x, y),
            (End::At(x), End::Open) => finite(x),
            (End::Open, upper) => upper.is_ok(),
        }
    }

    // Whether a band is right by itself.
    #[tactic(auto, unfolding(crate::specs::Bands::band_ok))]
    fn is_ok(self, limit: u32) -> bool
        ensures { result ≡ band_ok limit self }
    {
        self.state < limit && self.has_ends()
    }

    // Whether a band holds a deviation.
    #[tactic(auto, unfolding(crate::specs::Bands::holds))]
    fn holds(self, d: f64) -> bool
        ensures { result ≡ holds d self }
    {
        self.upper.is_upper_of(d) && self.lower.is_lower_of(d)
    }
}

impl<'a> Bands<'a> {
    // The table of three lists, if there are 1 to 64 bands, with two kinds and two ends for each.
    #[tactic(auto, using(std::proofs::lemmas::Bool::Decides::nat_tests), unfolding(crate::specs::Bands::lists_fit))]
    fn new(kinds: &'a [u8], ends: &'a [f64], states: &'a [u32]) -> Option<Bands<'a>>
        ensures { MatchOption result (lists_fit kinds.now ends.now states.now ≡ false) (λ b.
            (lists_fit kinds.now ends.now states.now ≡ true) × (b.kinds.now ≡ kinds.now)
            × (b.ends.now ≡ ends.now) × (b.states.now ≡ states.now)) }
    {
        let n = states.len();
        if n < 1 || 64 < n || kinds.len() != 2 * n || ends.len() != 2 * n {
            return None;
        }
        Some(Bands {
            kinds,
            ends,
            states,
        })
    }

    // The same, if the table is in order.
    #[tactic(auto, unfolding(crate::specs::Bands::table_ok))]
    fn in_order(
        kinds: &'a [u8],
        ends: &'a [f64],
        states: &'a [u32],
        limit: u32,
    ) -> Option<Bands<'a>>
        ensures { MatchOption result (table_ok kinds.now ends.now states.now limit ≡ false) (λ b.
            (table_ok kinds.now ends.now states.now limit ≡ true) × (b.kinds.now ≡ kinds.now)
            × (b.ends.now ≡ ends.now) × (b.states.now ≡ states.now)) }
    {
        let bands = Bands::new(kinds, ends, states)?;
        if bands.kinds_ok() && bands.steps_ok(limit) {
            return Some(bands);
        }
        None
    }

    // Band i of the table.
    #[tactic(auto, unfolding(crate::specs::Bands::band_of))]
    fn band(&self, i: usize) -> Band
        requires { i < length self.now.states.now }
        ensures { result ≡ band_of self.now.kinds.now self.now.ends.now self.now.states.now i }
    {
        let at = 2 * i;
        Band {
            lower: End::of_kind(self.kinds[at], self.ends[at]),
            upper: End::of_kind(self.kinds[at + 1], self.ends[at + 1]),
            state: self.states[i],
        }
    }

    // Whether each kind is 0 or 1.
    #[tactic(auto, using(crate::proofs::Loops::every_start, sets::proofs::Numbers::every_more), unfolding(crate::specs::Bands::kinds_ok))]
    fn kinds_ok(&self) -> bool
        ensures { result ≡ kinds_ok self.now.kinds.now }
    {
        let mut ok = true;
        for kind in self.kinds {
            ok &= *kind <= 1;
        }
        ok
    }

    // Whether band i is right, and begins where the one before it ends, or later.
    #[tactic(auto, unfolding(crate::specs::Bands::step_ok))]
    fn step_ok(&self, limit: u32, i: usize) -> bool
        requires { i < length self.now.states.now }
        ensures { result ≡ step_ok (band_of self.now.kinds.now self.now.ends.now self.now.states.now) limit i }
    {
        let band = self.band(i);
        band.is_ok(limit) && (i == 0 || self.band(i - 1).upper.is_followed_by(band.lower))
    }

    // Whether every band is right and begins where the one before it ends, or later.
    #[tactic(auto, using(crate::proofs::Loops::every_passed))]
    fn steps_ok(&self, limit: u32) -> bool
        ensures { result ≡ every (length self.now.states.now) 0
            (step_ok (band_of self.now.kinds.now self.now.ends.now self.now.states.now) limit) }
    {
        for i in 0..self.states.len() {
            if !self.step_ok(limit, i) {
                return false;
            }
        }
        true
    }

    // The state of the first band that holds a deviation.
    #[tactic(auto, using(crate::proofs::Loops::first_past), unfolding(crate::specs::Bands::band_at))]
    fn state_at(&self, d: f64) -> Option<u32>
        ensures { MatchOption result
            (length self.now.states.now ≤ band_at self.now.kinds.now self.now.ends.now self.now.states.now d) (λ state.
            (band_at self.now.kinds.now self.now.ends.now self.now.states.now d < length self.now.states.now)
            × (state ≡ get_or self.now.states.now (band_at self.now.kinds.now self.now.ends.now self.now.states.now d) 0)) }
    {
        for (i, state) in self.states.iter().enumerate() {
            if self.band(i).holds(d) {
                return Some(*state);
            }
        }
        None
    }
}

// Takes a table of bands as three lists, S, and what the gauge shows. Answers the state of the band that holds the
// deviation, or none where no band does.
#[tactic(auto, using(crate::proofs::Reals::compared, crate::proofs::Placed::placed, crate::proofs::Rounded::rounded, std::proofs::lemmas::Bool::Decides::nat_tests), unfolding(crate::specs::Bands::gauge_fault))]
pub fn find_place(
    kinds: &[u8],
    ends: &[f64],
    states: &[u32],
    limit: u32,
    g: Gauge,
) -> Result<Option<u32>, Refusal>
    ensures place_says { PlaceSays kinds.now ends.now states.now limit
        g.reading g.aim (place_of result) }
    ensures gauge_placed { Placed }
    ensures gauge_compared { Compared }
    ensures gauge_rounded { Rounded }
{
    let Some(bands) = Bands::in_order(kinds, ends, states, limit) else {
        return Err(Refusal::Bands);
    };
    if !g.is_readable() {
        return Err(Refusal::Reading);
    }
    match bands.state_at(g.deviation()) {
        Some(state) => Ok(Some(state)),
        None => Ok(None),
    }
}
