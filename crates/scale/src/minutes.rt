// Minutes of rethreading.
ghost use Rattle.std.specs.Prelude.{◌≤◌};

// 0 to 1,000,000,000 minutes; the last is never. Fewer are cheaper.
#[derive(Clone, Copy, Debug, PartialEq, Eq, PartialOrd, Ord)]
pub struct Minutes {
    value: u32,
    ghost ok: { value ≤ 1000000000 },
}

pub mod numbers;
pub mod operations;
pub mod words;
