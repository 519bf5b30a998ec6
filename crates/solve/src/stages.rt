// Stages of a plant that settles, each worked out as a game with the states that can leave for earlier ones, and the one
// game of a plant that does not settle.
ghost use Rattle.std.specs.Prelude.{◌≡◌, true, false, List, [], ℕ, ◌+◌, ◌*◌, ◌%◌, ◌<◌, ◌≤◌, length, get_or, replicate};
ghost use Rattle.statements.specs.Sets.{pick, numbers};
ghost use Rattle.statements.specs.Plants.{plant_of};
ghost use Rattle.statements.specs.Kept.{kept_within, stages_to};
ghost use Rattle.arrays.specs.Lists.{among};
ghost use Rattle.sets.proofs.Members.{Sifted};
ghost use Rattle.game.specs.declared.play.Order.TheVariants.{Rounds, Turns};
ghost use Rattle.solve.specs.Given.{below};
ghost use Rattle.solve.specs.Graphed.{Graphed, Exits};
ghost use Rattle.solve.specs.Rows.{rows_long, Columns, kept_from, Rowed};
ghost use Rattle.solve.specs.Stages.{Opened, Staged, Calm};

use crate::moves::{Frame, Moves};
use format::plant::is_settled;
use game::play::{Order, Shape, work_out};

// A label whose bit 15 says whether the state leaves.
fn marked(label: u16, leaves: bool) -> u16
    ensures { result ≡ label % 32768 + pick leaves 32768 0 }
{
    let plain = label % 32768;
    if leaves {
        return plain + 32768;
    }
    plain
}

// How many nodes, groups, positions and goals the game of a plant has, and in which order it is played.
fn shape(frame: Frame) -> Shape
    ensures { result ≡ record {
      nodes = frame.states;
      groups = frame.groups;
      positions = frame.positions;
      goals = frame.goals;
      order = pick frame.eager Turns Rounds;
    } }
{
    Shape {
        nodes: frame.states,
        groups: frame.groups,
        positions: frame.positions,
        goals: frame.goals,
        order: if frame.eager {
            Order::Turns
        } else {
            Order::Rounds
        },
    }
}

impl Moves<'_> {
    // The moves of the states of a start into those that have a stage, marked in their labels, and the states that the
    // next stage may pass: those with such a move, and the settled ones. Returns their number.
    fn admit(
        &self,
        start: &[u16],
        stage: &[u16],
        leave: &mut [u16],
        all: &mut [u16],
        graph: &mut [u16],
    ) -> usize
        requires set { Sifted (numbers (plant_of self.now.plant.now).states 0) start.now }
        requires room { let p = plant_of self.now.plant.now in (p.states ≤ length stage.now)
            × (p.states ≤ length leave.old) × (length start.now ≤ length all.old) }
        requires graphed { Graphed (plant_of self.now.plant.now) self.now.frame.mask
            self.now.frame.groups self.now.frame.positions graph.old }
        ensures opened { let p = plant_of self.now.plant.now in
            Opened p self.now.frame.mask start.now (below stage.now 65535 p.states) leave.new all.new result }
        ensures graphed { Graphed (plant_of self.now.plant.now) self.now.frame.mask
            self.now.frame.groups self.now.frame.positions graph.new }
        ensures exits { Exits (plant_of self.now.plant.now) leave.new start.now graph.new }
    {
        let moves = *self;
        let labels = graph.len() - 1024;
        let mut count = 0;
        for state in start {
            let x = *state as usize;
            let away = moves.search(stage, 65535, *state);
            let goes = away.is_some();
            leave[x] = away.unwrap_or(moves.frame.none);
            graph[labels + x] = marked(graph[labels + x], goes);
            if is_settled(moves.plant, *state as u32) | goes {
                all[count] = *state;
                count += 1;
            }
        }
        count
    }

    // Some state of a start that is not settled and has no stage yet has a move into those that have one: only then does
    // the next stage add a state to one or more stages.
    fn grows(&self, start: &[u16], stage: &[u16]) -> bool
        requires set { Sifted (numbers (plant_of self.now.plant.now).states 0) start.now }
        requires room { (plant_of self.now.plant.now).states ≤ length stage.now }
        ensures { result ≡ false → Calm (plant_of self.now.plant.now) self.now.frame.mask start.now stage.now }
    {
        for state in start {
            if (stage[*state as usize] == 65535) & !is_settled(self.plant, *state as u32) {
                if self.search(stage, 65535, *state).is_some() {
                    return true;
                }
            }
        }
        false
    }

    // Plays the game of the plant from some of its states: writes the waits of those that are kept, and returns how many
    // they are.
    fn play(&self, graph: &[u16], first: &[u16], waits: &mut [u16]) -> usize
        requires graphed { Graphed (plant_of self.now.plant.now) self.now.frame.mask
            self.now.frame.groups self.now.frame.positions graph.now }
        requires set { Sifted (numbers (plant_of self.now.plant.now).states 0) first.now }
        requires exits { (leave : List ℕ) × Exits (plant_of self.now.plant.now) leave first.now graph.now }
        requires room { 8192 ≤ length waits.old }
        ensures { (leave : List ℕ) → Exits (plant_of self.now.plant.now) leave first.now graph.now
            → let kept = kept_from (plant_of self.now.plant.now) self.now.frame.mask leave first.now in
            (result ≡ length kept) × Columns (plant_of self.now.plant.now) self.now.frame.mask leave kept waits.new }
    {
        work_out(graph, shape(self.frame), first, waits).unwrap()
    }

    // One stage more: works out which states the stages then have, gives the new ones their stage and writes their rows.
    // Returns how many states the stages have.
    fn advance(
        &self,
        graph: &mut [u16],
        start: &[u16],
        done: u16,
        stage: &mut [u16],
        out: &mut [u8],
    ) -> usize
        requires settling { (plant_of self.now.plant.now).settles ≡ true }
        requires graphed { Graphed (plant_of self.now.plant.now) self.now.frame.mask
            self.now.frame.groups self.now.frame.positions graph.old }
        requires set { Sifted (numbers (plant_of self.now.plant.now).states 0) start.now }
        requires room { (16 + 2 * rows_long (plant_of self.now.plant.now) ≤ length out.old)
            × ((plant_of self.now.plant.now).states ≤ length stage.old) × (done < 65534) }
        ensures graphed { Graphed (plant_of self.now.plant.now) self.now.frame.mask
            self.now.frame.groups self.now.frame.positions graph.new }
        ensures staged { (old : List ℕ) →
            Staged (plant_of self.now.plant.now) self.now.frame.mask start.now done stage.old old out.old
            → Staged (plant_of self.now.plant.now) self.now.frame.mask start.now (done + 1) stage.new old out.new }
        ensures count { (old : List ℕ) →
            Staged (plant_of self.now.plant.now) self.now.frame.mask start.now done stage.old old out.old
            → result ≡ length (stages_to (done + 1) (plant_of self.now.plant.now) self.now.frame.mask
            (among start.now)) }
    {
        let mut leave = [65535u16; 1024];
        let mut all = [0u16; 1024];
        let count = self.admit(start, stage, &mut leave, &mut all, graph);
        let mut waits = [0u16; 8192];
        let kept = self.play(graph, &all[..count], &mut waits);
        self.place(&waits, &leave, done + 1, stage, out);
        kept
    }

    // The rows of a plant that settles, over marks, stage by stage until one adds no state; returns the number of states
    // kept.
    pub(crate) fn by_stages(&self, graph: &mut [u16], start: &[u16], out: &mut [u8]) -> usize
        requires settling { (plant_of self.now.plant.now).settles ≡ true }
        requires graphed { Graphed (plant_of self.now.plant.now) self.now.frame.mask
            self.now.frame.groups self.now.frame.positions graph.old }
        requires set { Sifted (numbers (plant_of self.now.plant.now).states 0) start.now }
        requires room { 16 + 2 * rows_long (plant_of self.now.plant.now) ≤ length out.old }
        requires marks { (old : List ℕ) × Rowed (plant_of self.now.plant.now) self.now.frame.mask
            (kept_within (plant_of self.now.plant.now) self.now.frame.mask (among start.now)) [] old out.old }
        ensures count { result ≡ length (kept_within (plant_of self.now.plant.now) self.now.frame.mask
            (among start.now)) }
        ensures rows { (old : List ℕ) →
            let p = plant_of self.now.plant.now in
            let kept = kept_within p self.now.frame.mask (among start.now) in
            Rowed p self.now.frame.mask kept [] old out.old → Rowed p self.now.frame.mask kept kept old out.new }
    {
        let mut stage = [65535u16; 1024];
        let mut done: u16 = 0;
        let mut kept = 0;
        loop {
            if (0 < done) & !self.grows(start, &stage) {
                return kept;
            }
            let more = self.advance(graph, start, done, &mut stage, out);
            if more <= kept {
                return kept;
            }
            kept = more;
            done += 1;
        }
    }

    // The rows of a plant that does not settle, over marks: one game from the start, no state leaving. Returns the number
    // of states kept.
    pub(crate) fn at_once(&self, graph: &[u16], start: &[u16], out: &mut [u8]) -> usize
        requires plain { (plant_of self.now.plant.now).settles ≡ false }
        requires graphed { Graphed (plant_of self.now.plant.now) self.now.frame.mask
            self.now.frame.groups self.now.frame.positions graph.now
            × Exits (plant_of self.now.plant.now) (replicate 1024 65535) start.now graph.now }
        requires set { Sifted (numbers (plant_of self.now.plant.now).states 0) start.now }
        requires room { 16 + 2 * rows_long (plant_of self.now.plant.now) ≤ length out.old }
        ensures count { result ≡ length (kept_within (plant_of self.now.plant.now) self.now.frame.mask
            (among start.now)) }
        ensures rows { (old : List ℕ) →
            let p = plant_of self.now.plant.now in
            let kept = kept_within p self.now.frame.mask (among start.now) in
            Rowed p self.now.frame.mask kept [] old out.old → Rowed p self.now.frame.mask kept kept old out.new }
    {
        let mut waits = [0u16; 8192];
        let kept = self.play(graph, start, &mut waits);
        let leave = [65535u16; 1024];
        let mut stage = [65535u16; 1024];
        self.place(&waits, &leave, 1, &mut stage, out);
        kept
    }
}
