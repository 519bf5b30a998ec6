// Why a call is refused, and the number that stands for it.
#![tactic(auto)]

ghost use Rattle.std.specs.Prelude.{◌≡◌};
ghost use Rattle.refusal.specs.Numbers.{number_of};

// What is wrong with what a call was lent or asked for. Documents 01 and 02 number these from 1, in this order.
#[derive(Clone, Copy, Debug, PartialEq, Eq)]
pub enum Refusal {
    // The plant's header, or its length.
    Plant = 1,
    // A label of the plant is out of range.
    Label,
    // An arrow of the plant is out of range or out of order.
    Arrow,
    // The book's header or length, or it is not a book for this plant.
    Book,
    // A row of the book, or its count of kept states.
    Row,
    // A mask names a move that the plant does not have.
    Mask,
    // A buffer is too short.
    Room,
    // A state or a goal is out of range.
    Number,
    // A list of masks is cut or too long.
    Masks,
    // The bytes lent are not the plant's index.
    Index,
    // The table of bands is not in order.
    Bands,
    // The reading, the aim or the deviation is not finite.
    Reading,
    // The move given does not lead to the state reported.
    Report,
}

impl Refusal {
    // Its number in documents 01 and 02, which C and the program show.
    pub fn number(self) -> u8
        ensures { result ≡ number_of self }
    {
        self as u8
    }
}
