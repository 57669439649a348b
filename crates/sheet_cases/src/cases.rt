// What reading a sheet answers, in a short text.
use problem::place::PLACES;
use scale::clashes::Clashes;
use scale::minutes::Minutes;
use scale::scale::Scale;
use sheet::breach::{Breach, SheetRefusal};
use sheet::opening::{ScaleName, scale_named};
use sheet::read::{Contents, read};
use std::alloc::Global;

// Reads with the scale that the sheet names.
pub(crate) fn answered(heap: Global, sheet: &[u8]) -> anyhow::Result<String> {
    // a match, since no closure is generic in a type
    match scale_named(sheet) {
        ScaleName::Minutes => answered_in::<Minutes>(heap, sheet),
        ScaleName::Clashes => answered_in::<Clashes>(heap, sheet),
    }
}

fn answered_in<S: Scale + Clone>(heap: Global, sheet: &[u8]) -> anyhow::Result<String> {
    let mut costs: Vec<S> = vec![in heap; S::nothing(); PLACES]?;
    match read(sheet, costs.as_mut_slice()) {
        Ok(contents) => granted(heap, contents),
        Err(refusal) => refused(heap, refusal),
    }
}

fn refused(heap: Global, refusal: SheetRefusal) -> anyhow::Result<String> {
    let line = refusal.line;
    let number = refusal.breach.refusal().number();
    let text = match refusal.breach {
        Breach::BadEntry { row, column } => format!(in heap; "{number}@{line}:{row},{column}")?,
        _ => format!(in heap; "{number}@{line}")?,
    };
    Ok(text)
}

fn granted(heap: Global, contents: Contents) -> anyhow::Result<String> {
    let mut text = String::from_str(heap, "ok")?;
    let mut mark = ':';
    for head in 1..=contents.job.heads() {
        let setups = contents.job.setups(head);
        write!(text, "{mark}{setups}")?;
        mark = ',';
    }
    mark = ':';
    // all numbers of heads are asked, also where they are no pair
    for a in 1..=8 {
        for b in 1..=8 {
            if contents.has_table(a, b) {
                write!(text, "{mark}{a}-{b}")?;
                mark = ',';
            }
        }
    }
    Ok(text)
}
