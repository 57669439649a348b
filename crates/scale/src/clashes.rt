// Clashes of thread before minutes of rethreading.
ghost use Rattle.std.specs.Prelude.{◌≡◌, ◌<◌, ◌≤◌};

// 0 to 999 clashes, each with 0 to 1,000,000,000 minutes; or never, which is 1,000 clashes with 1,000,000,000 minutes. Fewer clashes
// are cheaper, then fewer minutes.
#[derive(Clone, Copy, Debug, PartialEq, Eq, PartialOrd, Ord)]
pub struct Clashes {
    clashes: u16,
    minutes: u32,
    ghost few: { clashes ≤ 1000 },
    ghost short: { minutes ≤ 1000000000 },
    ghost full: { (999 < clashes → minutes ≡ 1000000000) },
}

pub mod numbers;
pub mod operations;
pub mod words;
