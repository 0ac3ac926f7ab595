//! The sheet of a closing.
use metering::LICENSEE_COUNT;
use methodology::Shape;
use rates::HEADS;

/// A head's line: the rates, grains per kW or per kWh, and the account as it then stands, in grains.
#[derive(Clone, Copy, Default)]
pub struct HeadLine {
    pub actual: u64,
    pub published: u64,
    pub balance: i64,
    pub carry: u64,
}

/// A licensee's line: the bill in cents, and the fraction: the grains that are left for the next one, less than a cent.
#[derive(Clone, Copy)]
pub struct Billed {
    pub bill: u64,
    pub fraction: u64,
}

/// What a closing writes: the month, 1 to 12, the lines of the heads, head 1 first, and of the licensees, licensee 1 first.
/// A closing leaves zeros past the last head of the shape. The text of a sheet does not show these lines, whatever they hold.
#[derive(Clone, Copy)]
pub struct Sheet {
    pub month: u8,
    pub shape: Shape,
    pub heads: [HeadLine; HEADS],
    pub licensees: [Option<Billed>; LICENSEE_COUNT],
    /// What the intervals keep back of their unit costs, summed, in grains.
    pub margin: i64,
}

impl Sheet {
    ghost use Rattle.accounts.specs.Sheets.{Unfilled};

    /// A sheet to lend to a closing: month 0, a line of zeros for each head of the shape, no licensee, and margin 0.
    pub fn empty(shape: Shape) -> Sheet
        ensures { Unfilled shape result }
    {
        Sheet {
            month: 0,
            shape,
            heads: [HeadLine::default(); HEADS],
            licensees: [None; LICENSEE_COUNT],
            margin: 0,
        }
    }
}
