// The search of the table of moves in service, for the lowest move of a state into the states below a limit.
ghost use Rattle.std.specs.Prelude.{◌≡◌, ◌<◌, ◌≤◌, length, is_some, unwrap_or};
ghost use Rattle.statements.specs.Sets.{lowest};
ghost use Rattle.statements.specs.Plants.{plant_of, move_into, moves_into, can};
ghost use Rattle.solve.specs.Given.{below};

use crate::moves::Moves;

impl Moves<'_> {
    // The lowest move of a state all of whose ends have a wait below the limit, if there is one. It stops at the first,
    // which is the lowest of all such moves.
    pub(crate) fn search(&self, waits: &[u16], limit: u16, state: u16) -> Option<u16>
        requires waits_long { (plant_of self.now.plant.now).states ≤ length waits.now }
        requires in_range { state < (plant_of self.now.plant.now).states }
        ensures first { let p = plant_of self.now.plant.now in
            unwrap_or result p.moves ≡ move_into p self.now.frame.mask (below waits.now limit p.states) state }
        ensures found { let p = plant_of self.now.plant.now in
            is_some result ≡ can p self.now.frame.mask (below waits.now limit p.states) state }
        ensures lowest { let p = plant_of self.now.plant.now in
            unwrap_or result p.moves ≡ lowest p.moves
            (moves_into p self.now.frame.mask (below waits.now limit p.states) state) }
    {
        let room = (self.table.len() - 1026) / 4;
        let moves = 1026 + room;
        let ends = 1026 + 2 * room;
        let x = state as usize;
        let first = self.table[x] as usize;
        let last = self.table[x + 1] as usize;
        'moves: {
            'groups: for g in first..last {
                let at = self.table[1025 + g] as usize;
                let stop = self.table[1026 + g] as usize;
                for end in &self.table[ends + at..ends + stop] {
                    let end = *end as usize;
                    if limit <= waits[end] {
                        continue 'groups;
                    }
                }
                break 'moves Some(self.table[moves + g]);
            }
            None
        }
    }
}
