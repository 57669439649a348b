// Reads a sheet from standard input, and writes a cheapest plan with its cost and the number of messages that finding it took; or the
// refusal of the sheet.
#![tactic(auto)]

mod planning;

use planning::plan;
use scale::clashes::Clashes;
use scale::minutes::Minutes;
use sheet::opening::{ScaleName, scale_named};
use sheet::read::MOST_BYTES;
use std::io;
use std::io::Read;

// One byte more than a sheet may have, so that a longer one is seen to be too long.
const BYTES_READ: u64 = MOST_BYTES as u64 + 1;

fn main(rt: HostRuntime) -> io::Result<()> {
    let heap = rt.alloc();
    let mut bytes = Vec::new(heap);
    rt.stdin().take(BYTES_READ).read_to_end(&mut bytes)?;
    let sheet = bytes.as_slice();
    let mut out = [0; 64];
    // a match, since no closure is generic in a type
    let length = match scale_named(sheet) {
        ScaleName::Minutes => plan::<Minutes>(heap, sheet, &mut out)?,
        ScaleName::Clashes => plan::<Clashes>(heap, sheet, &mut out)?,
    };
    rt.write_all(&out[..length.min(64)])
}
