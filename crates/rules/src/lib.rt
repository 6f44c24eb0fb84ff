// The vocabulary of the port: the bounds of document 01 and the types of its calls. What they mean stands in specs/.
#![tactic(auto)]

ghost use Rattle.std.specs.Prelude.{◌≡◌};
ghost use Rattle.rules.specs.Number.{number};

// Document 01, "Bounds".
pub const MAX_COLOURS: u32 = 30;

pub const MAX_SAMPLE_SIDE: usize = 32;

pub const MAX_BOARD_SIDE: usize = 64;

pub const TILE_CELLS: usize = 9;

pub const MAX_TILES: usize = 7_200;

pub const MIN_COORDINATE: i32 = -1_000_000;

pub const MAX_COORDINATE: i32 = 1_000_000;

pub const MIN_OFFSET: i32 = -999_937;

pub const MAX_OFFSET: i32 = 1_000_000;

pub const MAX_RADIUS: usize = 63;

pub const MAX_INFLUENCE_SIDE: usize = 127;

pub const MAX_WEIGHT: u32 = 4_000_000_000;

pub const QUEUE_ROOM: usize = 64;

pub const ADDED_ROOM: usize = 8;

// Document 02, request 2.
pub const MAX_BUDGET: usize = 4_096;

pub const BARE_PIECE: u32 = 1;

// Document 01, "Refusal numbers": why a call is refused. As a number it is 01's.
#[derive(Clone, Copy, Debug, PartialEq, Eq)]
pub enum Refusal {
    Shape = 1,
    Length = 2,
    Count = 3,
    Cell = 4,
    Number = 5,
    Place = 6,
    Type = 7,
    Taken = 8,
    Bare = 9,
    Room = 10,
}

impl From<Refusal> for u8 {
    ghost from_gives = { λ refusal n. n ≡ number refusal };

    fn from(refusal: Refusal) -> u8 {
        refusal as u8
    }
}

// A wall coordinate, counted from the job's origin: row, then column.
#[derive(Clone, Copy, Debug, PartialEq, Eq)]
pub struct World(pub i32, pub i32);

// A cell index, counted from the grid's corner: row, then column.
#[derive(Clone, Copy, Debug, PartialEq, Eq)]
pub struct Cell(pub usize, pub usize);

// What leads from the one to the other: index = coordinate + offset.
#[derive(Clone, Copy, Debug, PartialEq, Eq)]
pub struct Offset(pub i32, pub i32);

// The indices from the first number up to, not including, the second.
#[derive(Clone, Copy, Debug, PartialEq, Eq)]
pub struct Span(pub usize, pub usize);

// Both corners belong to the box; one with min above max contains nothing.
#[derive(Clone, Copy, Debug, PartialEq, Eq)]
pub struct BoundingBox {
    pub min: World,
    pub max: World,
}

// How many cells are added: left and right to the rows (the first coordinate), top and bottom to the columns.
#[derive(Clone, Copy, Debug, PartialEq, Eq)]
pub struct Pads {
    pub left: usize,
    pub right: usize,
    pub top: usize,
    pub bottom: usize,
}

#[derive(Clone, Copy, Debug, PartialEq, Eq)]
pub struct ExtensionInfo {
    pub pads: Pads,
    pub offset: Offset,
    pub needed: bool,
}

// A set of the colours 1 to size: colour t is in it where bit t-1 of bits is set.
#[derive(Clone, Copy, Debug, PartialEq, Eq)]
pub struct TileBitset {
    pub bits: u32,
    pub size: u32,
}

// A place and a colour: in the answer of forced neighbours the one that fits there; in a queue it is not checked.
#[derive(Clone, Copy, Debug, PartialEq, Eq)]
pub struct ForcedPosition {
    pub coordinates: World,
    pub colour: u32,
}

// Arrays with a length beside them, here, in the queue and in a list of colours: memory is fixed, nothing is allocated, and document 01 hands a queue in and
// back whole.

// Forced places in order, as forced neighbours answers them and the queue takes them. Entries past the length are 0 in the answer and
// are not read by the queue.
#[derive(Clone, Copy)]
pub struct ForcedPositions {
    pub entries: [ForcedPosition; ADDED_ROOM],
    pub len: usize,
}

// The queue: entries stand from entry 0, next out first.
#[derive(Clone, Copy)]
pub struct ForcedPipeline {
    pub entries: [ForcedPosition; QUEUE_ROOM],
    pub len: usize,
}

// What some calls answer where they are not refused. A refused call answers its `Refusal` alone.

// The spans of a radius round a place: of rows and of columns.
#[derive(Clone, Copy, Debug, PartialEq, Eq)]
pub struct Spans {
    pub rows: Span,
    pub cols: Span,
}

// How a forced run ended: with no entry left, with its budget spent, or with more places than its queue has room for.
#[derive(Clone, Copy, Debug, PartialEq, Eq)]
pub enum RunEnd {
    Done = 0,
    Spent = 1,
    Full = 2,
}

// A forced run: how it ended, how many entries were taken and how many of them laid.
#[derive(Clone, Copy, Debug, PartialEq, Eq)]
pub struct RanOut {
    pub end: RunEnd,
    pub taken: usize,
    pub laid: usize,
}

// Colours ascending; entries past the length are 0.
#[derive(Clone, Copy)]
pub struct ColourList {
    pub colours: [u8; MAX_COLOURS as usize],
    pub len: usize,
}

// What taking answers, and the queue that is handed back.
#[derive(Clone, Copy)]
pub struct Taken {
    pub next: Result<Option<ForcedPosition>, Refusal>,
    pub queue: ForcedPipeline,
}

// What adding answers, and the queue that is handed back.
#[derive(Clone, Copy)]
pub struct Grown {
    pub answer: Result<(), Refusal>,
    pub queue: ForcedPipeline,
}
