// Sets of heads.
use job::sets::Set;

// A set of some of the heads 1 to 8; a number that is no head is in none.
pub type HeadSet = Set<1>;
