// The kinds of values and their ranges.
ghost use Rattle.std.specs.Prelude.{◌≡◌, get_or};
ghost use Rattle.meaning.specs.Formats as formats;
ghost use Rattle.instance.specs.Ranges.{range_of, kinds_of};

// The smallest and the largest value of a kind.
#[derive(Clone, Copy)]
pub struct Range(pub u32, pub u32);

impl Range {
    // A list of kinds has the range of each: the kind of an attribute is a field of 4 bits.
    pub const KINDS: usize = 16;
}

// Kept: a kind stays a number: it is a field of 4 bits in a schema sheet, and all that is asked of it is its place in a list of ranges, which a caller may give.
const BUILT_IN: [Range; Range::KINDS] = [
    Range(0, 4294967295), // 0 plain
    Range(0, 4294967295), // 1 station in mm
    Range(1, 720), // 2 clock in minutes, twelve o'clock is 720
    Range(0, 1000), // 3 depth in thousandths of wall
    Range(0, 20000), // 4 length mm
    Range(0, 5000), // 5 width mm
    Range(0, 5000), // 6 wall in 0.01 mm
    Range(0, 1600), // 7 diameter mm
    Range(0, 25000), // 8 pressure kPa
    Range(0, 4000), // 9 temperature 0.1 K
    Range(0, 65535), // 10 day
    Range(0, 86399), // 11 second of day
    Range(0, 10000), // 12 speed mm/s
    Range(0, 4294967295), // 13 identifier
    Range(0, 1), // 14 flag
    Range(0, 0), // 15 unused
];

// The built-in list of kinds.
pub fn kinds() -> [Range; Range::KINDS]
    ensures { kinds_of result ≡ formats.kinds }
{
    BUILT_IN
}

// The range of a kind, by a list of kinds; beyond its end, from 0 to 0.
pub fn range_of(kinds: [Range; Range::KINDS], kind: usize) -> Range
    ensures { range_of result ≡ get_or (kinds_of kinds) kind (formats.from_to 0 0) }
{
    kinds.get(kind).copied().unwrap_or(Range(0, 0))
}

// Whether a value is within a range.
pub fn within(range: Range, value: u32) -> bool
    ensures { result ≡ formats.within (range_of range) value }
{
    range.0 <= value && value <= range.1
}
