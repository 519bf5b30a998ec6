// A plant with its table of the moves in service, and its figures.
ghost use Rattle.std.specs.Prelude.{◌≡◌};
ghost use Rattle.statements.specs.Plants.{plant_of};
ghost use Rattle.solve.specs.Given.{Given};
ghost use Rattle.solve.specs.Rows.{row_size};

// The figures of a plant that the solver's functions take: moves in service, number of moves, states, goals, how many
// numbers a row has, how many groups the moves in service have and how many ends these, and whether states are struck out
// by a worklist.
#[derive(Clone, Copy)]
pub(crate) struct Frame {
    pub(crate) mask: u32,
    pub(crate) none: u16,
    pub(crate) states: usize,
    pub(crate) goals: usize,
    pub(crate) size: usize,
    pub(crate) groups: usize,
    pub(crate) positions: usize,
    pub(crate) eager: bool,
}

// An accepted plant, its table for the moves in service, and its figures.
#[derive(Clone, Copy)]
pub(crate) struct Moves<'a> {
    pub(crate) plant: &'a [u8],
    pub(crate) table: &'a [u16],
    pub(crate) frame: Frame,
    ghost given: { Given plant.now frame.mask table.now frame.none },
    ghost states_is: { frame.states ≡ (plant_of plant.now).states },
    ghost goals_is: { frame.goals ≡ (plant_of plant.now).goals },
    ghost size_is: { frame.size ≡ row_size (plant_of plant.now) },
}
