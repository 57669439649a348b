// Where costs lie: 64 places for each pair of heads, in the order (1,2), (1,3) to (7,8), and there by setups.
ghost use Rattle.std.specs.Prelude.{◌≡◌, ◌<◌, ◌≤◌, length, replicate};
ghost use Rattle.problem.specs.Costs.{pair as pair_number, pair_of, place as place_number, place_of};

// how many places a table of costs has: 28 pairs of 8 heads, 8 setups by 8
pub const PLACES: usize = 1792;

// how many pairs come before those of a head with the heads after it; looked up, since each cost that is read asks for it
const BEFORE: [usize; 8] = [0, 7, 13, 18, 22, 25, 27, 28];

fn pair_number(a: u8, b: u8) -> usize
    requires { (1 ≤ a) × ((a < b) × (b ≤ 8)) }
    ensures value { result ≡ pair_number a b }
    ensures within { result < 28 }
{
    BEFORE[a as usize - 1] + (b as usize - a as usize - 1)
}

// Puts a value into each of some places. Not by the slice's own `fill`, which clones: no law of a scale says what a clone of a cost is.
pub fn fill<T: Copy>(places: &mut [T], value: T)
    ensures { places.new ≡ replicate (length places.old) value }
{
    for place in places.iter_mut() {
        *place = value;
    }
}

// The place of a cost, where the pair and the setups are known to be in range.
pub(crate) fn place_known(a: u8, i: u8, b: u8, j: u8) -> usize
    requires pair { (1 ≤ a) × ((a < b) × (b ≤ 8)) }
    requires setups { (i < 8) × (j < 8) }
    ensures value { result ≡ place_number a i b j }
    ensures within { result < 1792 }
{
    64 * pair_number(a, b) + 8 * i as usize + j as usize
}

// The number of a pair of heads a < b, from 0; `None` where they are no such pair.
pub fn pair(a: u8, b: u8) -> Option<usize>
    ensures { result ≡ pair_of a b }
{
    if a < 1 || a >= b || b > 8 {
        return None;
    }
    Some(pair_number(a, b))
}

// Where the cost of setup i of head a with setup j of head b lies, for a < b; `None` where there is no such place.
pub fn place(a: u8, i: u8, b: u8, j: u8) -> Option<usize>
    ensures { result ≡ place_of a i b j }
{
    if a < 1 || a >= b || b > 8 || i >= 8 || j >= 8 {
        return None;
    }
    Some(place_known(a, i, b, j))
}
