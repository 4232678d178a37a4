//! What reading and writing have to do with each other: each law is what a function without a body ensures.
ghost use Rattle.cov_bytes.specs.Laws.{NumbersAreRead, NumbersAreSpelled, NumbersAreApart, WrittenIsShortest, FixedAreRead, TablesAreRead};

/// A ULEB128 number is read from each of its spellings and from nothing else, and what is written is the shortest.
pub fn numbers()
    ensures read { NumbersAreRead }
    ensures spelled { NumbersAreSpelled }
    ensures apart { NumbersAreApart }
    ensures written { WrittenIsShortest }
{}

/// A number of 4 or of 8 bytes is read as it was written.
pub fn fixed()
    ensures { FixedAreRead }
{}

/// A table whose texts keep the limits is read as it was written.
pub fn tables()
    ensures { TablesAreRead }
{}
