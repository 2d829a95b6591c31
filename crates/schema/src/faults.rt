// Why a sheet is sent back, or a call refuses; and the number of each reason.
ghost use Rattle.std.specs.Prelude.{◌≡◌};
ghost use Rattle.schema.specs.Faults.{number_of};

// Why a sheet is sent back for what it says by itself (1 to 11), and why a call refuses (12 to 19).
#[derive(Clone, Copy, Debug, PartialEq, Eq)]
pub enum Fault {
    // bits that end too early
    Cut,
    // more than filling bits behind the last field
    Tail,
    // a count beyond its limit
    Count,
    // a node or an edge that does not exist, or a path that does not join up
    Stray,
    // edges that form a loop
    Ring,
    // too many paths
    Crowd,
    // an image that does not exist or does not fit
    Misfit,
    // an equation whose sides have unequal images
    BrokenRule,
    // a link to a row that does not exist
    Dangling,
    // a value out of its kind's range
    OffScale,
    // a row that the sides of an equation lead to two rows
    BentRow,
    // a mapping that is not even
    Uneven,
    // an attribute mapping that is no bijection
    Unpaired,
    // a table of Pi with too many components
    Wide,
    // a migrated instance with too many rows
    Overfull,
    // a tray with too few bytes for the result
    SmallTray,
    // a list that is not a matching
    NoMatch,
    // a table or a row that does not exist
    Absent,
    // a row to which another row links
    Held,
}

impl Fault {
    // The number by which a fault is told.
    pub fn number(self) -> u8
        ensures { result ≡ number_of self }
    {
        match self {
            Fault::Cut => 1,
            Fault::Tail => 2,
            Fault::Count => 3,
            Fault::Stray => 4,
            Fault::Ring => 5,
            Fault::Crowd => 6,
            Fault::Misfit => 7,
            Fault::BrokenRule => 8,
            Fault::Dangling => 9,
            Fault::OffScale => 10,
            Fault::BentRow => 11,
            Fault::Uneven => 12,
            Fault::Unpaired => 13,
            Fault::Wide => 14,
            Fault::Overfull => 15,
            Fault::SmallTray => 16,
            Fault::NoMatch => 17,
            Fault::Absent => 18,
            Fault::Held => 19,
        }
    }
}
