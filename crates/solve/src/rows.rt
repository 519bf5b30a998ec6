// The rows of a book, straight into its bytes: waits from columns, moves by the search.
ghost use Rattle.std.specs.Prelude.{◌≡◌, List, [], ℕ, ◌+◌, ◌*◌, ◌<◌, ◌≤◌, length, get_or};
ghost use Rattle.std.proofs.lemmas.List.Edits.{sets};
ghost use Rattle.statements.specs.Plants.{Plant, plant_of, move_into};
ghost use Rattle.statements.specs.Books.{two, bytes_of};
ghost use Rattle.solve.specs.Given.{below};
ghost use Rattle.solve.specs.Rows.{rows_long, Rowed, own_move, entries_of, row_of, Placed};

use crate::moves::Moves;

// A two-byte number at a place, the low byte first.
// Kept: the twin of format's `put`, whose test of the place cost 3.7 percent of the instructions of a making.
fn put(out: &mut [u8], at: usize, v: u16)
    requires { at + 2 ≤ length out.old }
    ensures { out.new ≡ sets out.old at (two v) }
{
    out[at..at + 2].copy_from_slice(&v.to_le_bytes());
}

// Writes marks over all rows.
pub(crate) fn blank(plant: &[u8], count: usize, out: &mut [u8])
    requires count { count ≡ rows_long (plant_of plant.now) }
    requires room { 16 + 2 * rows_long (plant_of plant.now) ≤ length out.old }
    ensures { (mask : ℕ) (kept : List ℕ) →
        Rowed (plant_of plant.now) mask kept [] out.old out.new }
{
    out[16..16 + 2 * count].fill(255);
}

impl Moves<'_> {
    // The move of an entry: at wait 0 the state's own, otherwise the lowest into smaller waits.
    fn listed(&self, column: &[u16], own: u16, state: u16) -> u16
        requires long { (plant_of self.now.plant.now).states ≤ length column.now }
        requires in_range { state < (plant_of self.now.plant.now).states }
        ensures zero { get_or column.now state 0 ≡ 0 → result ≡ own }
        ensures more { let p = plant_of self.now.plant.now in
            0 < get_or column.now state 0 → result ≡ move_into p self.now.frame.mask
            (below column.now (get_or column.now state 0) p.states) state }
    {
        let wait = column[state as usize];
        if wait == 0 {
            return own;
        }
        self.search(column, wait, state).unwrap_or(self.frame.none)
    }

    // A state's own move: that by which it leaves, or the lowest into the states with a wait.
    fn own_move(&self, waits: &[u16], leave: &[u16], state: u16) -> u16
        requires long { let p = plant_of self.now.plant.now in
            (p.states ≤ length leave.now) × (p.goals * p.states ≤ length waits.now) }
        requires in_range { state < (plant_of self.now.plant.now).states }
        ensures { result ≡ own_move (plant_of self.now.plant.now) self.now.frame.mask leave.now waits.now state }
    {
        let away = leave[state as usize];
        if away < self.frame.none {
            return away;
        }
        self.search(waits, 65535, state).unwrap_or(self.frame.none)
    }

    // Writes the entries of a state's row from a place on: wait and move of each goal.
    fn put_entries(&self, waits: &[u16], own: u16, state: u16, at: usize, out: &mut [u8])
        requires long { let p = plant_of self.now.plant.now in p.goals * p.states ≤ length waits.now }
        requires in_range { state < (plant_of self.now.plant.now).states }
        requires room { at + 4 * (plant_of self.now.plant.now).goals ≤ length out.old }
        ensures { out.new ≡ sets out.old at (bytes_of (entries_of (plant_of self.now.plant.now)
            self.now.frame.mask own waits.now state)) }
    {
        let states = self.frame.states;
        let x = state as usize;
        for i in 0..self.frame.goals {
            let from = i * states;
            let column = &waits[from..from + states];
            let action = self.listed(column, own, state);
            put(out, at + 4 * i, column[x]);
            put(out, at + 4 * i + 2, action);
        }
    }

    // Writes a state's row to its place: the number for its stage where the plant settles, then its entries.
    fn put_row(&self, waits: &[u16], leave: &[u16], number: u16, state: u16, out: &mut [u8])
        requires long { let p = plant_of self.now.plant.now in
            (p.states ≤ length leave.now) × (p.goals * p.states ≤ length waits.now) }
        requires in_range { state < (plant_of self.now.plant.now).states }
        requires room { 16 + 2 * rows_long (plant_of self.now.plant.now) ≤ length out.old }
        ensures { out.new ≡ sets out.old (16 + 2 * (state * self.now.frame.size))
            (bytes_of (row_of (plant_of self.now.plant.now) self.now.frame.mask leave.now waits.now number state)) }
    {
        let mut at = 16 + 2 * (state as usize * self.frame.size);
        if 2 * self.frame.goals < self.frame.size {
            put(out, at, number);
            at += 2;
        }
        let own = self.own_move(waits, leave, state);
        self.put_entries(waits, own, state, at, out);
    }

    // Gives the states with a wait that have no stage yet the number for their stage, and writes their rows. The copy of
    // the figures stays in registers while these are written.
    pub(crate) fn place(
        &self,
        waits: &[u16],
        leave: &[u16],
        number: u16,
        stage: &mut [u16],
        out: &mut [u8],
    )
        requires long { let p = plant_of self.now.plant.now in (p.goals * p.states ≤ length waits.now)
            × (p.states ≤ length leave.now) × (p.states ≤ length stage.old) }
        requires room { 16 + 2 * rows_long (plant_of self.now.plant.now) ≤ length out.old }
        ensures { Placed (plant_of self.now.plant.now) self.now.frame.mask leave.now waits.now number
            stage.old out.old stage.new out.new }
    {
        let moves = *self;
        for x in 0..moves.frame.states {
            if (waits[x] != 65535) & (stage[x] == 65535) {
                stage[x] = number;
                moves.put_row(waits, leave, number, x as u16, out);
            }
        }
    }
}
