//! Where things stand in a picture.

ghost use Rattle.std.specs.Prelude.{◌≡◌, ◌+◌, ◌<◌, ◌^◌};
ghost use Rattle.sab_svg.specs.Shape.{lane_x, label_x, change_x, rows_end, width, height};
ghost use Rattle.sab_svg.specs.Shape as shapes;

/// How high a row is.
pub(crate) const ROW_HEIGHT: u64 = 20;

/// Where the first row begins.
pub(crate) const ROWS_TOP: u64 = 56;

/// The middle of the first lane.
const LANES_LEFT: u64 = 68;

/// From the middle of a lane to its texts.
const LABEL_SHIFT: u64 = 14;

/// From the upper edge of a row to its middle.
const MIDDLE_SHIFT: u64 = 10;

/// From the upper edge of a row to the line that its texts stand on.
const TEXT_SHIFT: u64 = 15;

/// How many rows there are below those of moves and blocks: the agents', the legend's, and room.
const MORE_ROWS: u64 = 5;

/// The least width of a picture: the longest line of a block, of 93 characters, and the legend have room.
const MIN_WIDTH: u64 = 800;

/// The measures of a picture: widths in pixels, and how many agents, blocks and rows it has.
#[derive(Clone, Copy)]
pub(crate) struct Shape {
    /// The width of an agent's lane.
    pub(crate) lane: u32,
    /// The width of the changes at the right.
    pub(crate) change: u32,
    /// How many agents there are.
    pub(crate) agents: u32,
    /// How many blocks there are.
    pub(crate) blocks: u32,
    /// How many rows there are: one for each move.
    pub(crate) rows: u32,
}

impl Shape {
    /// The middle of an agent's lane.
    pub(crate) fn lane_x(self, a: u32) -> u64
        ensures x { result ≡ lane_x self a }
        ensures room { result + 2 ^ 32 < 2 ^ 64 }
    {
        LANES_LEFT + u64::from(self.lane) * u64::from(a)
    }

    /// Where the texts in an agent's lane begin.
    pub(crate) fn label_x(self, a: u32) -> u64
        ensures x { result ≡ label_x self a }
        ensures room { result + 2 ^ 32 < 2 ^ 64 }
    {
        self.lane_x(a) + LABEL_SHIFT
    }

    /// Where changes begin.
    pub(crate) fn change_x(self) -> u64
        ensures x { result ≡ change_x self }
        ensures room { result + 2 ^ 32 < 2 ^ 64 }
    {
        self.lane_x(self.agents)
    }

    /// The lower edge of the last row.
    pub(crate) fn rows_end(self) -> u64
        ensures { result ≡ rows_end self }
    {
        row_top(self.rows.into())
    }

    /// How wide the picture is.
    pub(crate) fn width(self) -> u64
        ensures { result ≡ width self }
    {
        (self.change_x() + u64::from(self.change)).max(MIN_WIDTH)
    }

    /// How high the picture is.
    pub(crate) fn height(self) -> u64
        ensures { result ≡ height self }
    {
        let rows = u64::from(self.rows) + u64::from(self.blocks) + MORE_ROWS;
        row_top(rows)
    }
}

/// The upper edge of row k.
pub(crate) fn row_top(k: u64) -> u64
    requires { k < 2 ^ 59 }
    ensures top { result ≡ shapes.row_top k }
    ensures low { result + 2 ^ 32 < 2 ^ 64 }
{
    ROWS_TOP + ROW_HEIGHT * k
}

/// The middle of row k.
pub(crate) fn row_middle(k: u64) -> u64
    requires { k < 2 ^ 59 }
    ensures { result ≡ shapes.row_middle k }
{
    row_top(k) + MIDDLE_SHIFT
}

/// The line that the texts of row k stand on.
pub(crate) fn row_text(k: u64) -> u64
    requires { k < 2 ^ 59 }
    ensures { result ≡ shapes.row_text k }
{
    row_top(k) + TEXT_SHIFT
}
