// Sets of setups.
use job::sets::Set;

// A set of some of the setups 0 to 7; every other number is in none.
pub type SetupSet = Set<0>;
