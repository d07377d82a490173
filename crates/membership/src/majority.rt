// More than half of N nodes: the least count for each N, as the printed sheet has it (docs/sheet.md).
ghost use Rattle.std.specs.Prelude.{◌≡◌};
ghost use Rattle.membership.specs.majority.Majority.{least_count, majority, minority};

// The least count that is more than half of n nodes, by n; off the sheet 33, which no set reaches.
// Kept: a line for each entry of the printed sheet, against which it is read, and no formula.
pub fn least_count(n: u32) -> u32
    ensures { result ≡ least_count n }
{
    match n {
        1 => 1,
        2 => 2,
        3 => 2,
        4 => 3,
        5 => 3,
        6 => 4,
        7 => 4,
        8 => 5,
        9 => 5,
        10 => 6,
        11 => 6,
        12 => 7,
        13 => 7,
        14 => 8,
        15 => 8,
        16 => 9,
        17 => 9,
        18 => 10,
        19 => 10,
        20 => 11,
        21 => 11,
        22 => 12,
        23 => 12,
        24 => 13,
        25 => 13,
        26 => 14,
        27 => 14,
        28 => 15,
        29 => 15,
        30 => 16,
        31 => 16,
        32 => 17,
        _ => 33,
    }
}

// Whether a set counts more than half of n nodes. Off the sheet none does. The entry 33 alone says so of a word of 32 bits;
// the test of n is the definition's, in which a set may be any number.
pub fn is_majority(n: u32, w: u32) -> bool
    ensures { result ≡ majority n w }
{
    n <= 32 && least_count(n) <= words::count(w)
}

// Whether it counts half of them or fewer.
pub fn is_minority(n: u32, w: u32) -> bool
    ensures { result ≡ minority n w }
{
    !is_majority(n, w)
}
