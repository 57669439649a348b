// Jobs.
ghost use Rattle.std.specs.Prelude.{◌≡◌, ℕ, ◌<◌, ◌≤◌, slice_index};

// 1 to 8 heads, each with 1 to 8 setups: head h has `setups[h - 1]` of them, and there are none past the last head. No job
// outside these ranges can exist. A job is a plain value without a heap, so the setups are an array with the number of heads beside.
#[derive(Clone, Copy)]
pub struct Job {
    heads: u8,
    setups: [u8; 8],
    ghost one: { 1 ≤ heads },
    ghost eight: { heads ≤ 8 },
    ghost some: { ((k : ℕ) → k < heads → 1 ≤ slice_index setups k) },
    ghost few: { ((k : ℕ) → slice_index setups k ≤ 8) },
    ghost rest: { ((k : ℕ) → heads ≤ k → slice_index setups k ≡ 0) },
}

pub mod reading;
