// The tables of a sheet and their entries.
ghost use Rattle.std.specs.Prelude.{◌≡◌, ◌*◌, ◌<◌, ◌≤◌, length, ◌+◌};
ghost use Rattle.sheet.specs.Hex.{bytes as bytes_of};
ghost use Rattle.sheet.specs.Tables.{entered, entry as entry_of, first_unlawful as unlawful, table_laid};
ghost use Rattle.scale.specs.Coding.{reading};

use crate::hex::byte;
use scale::scale::Scale;
use std::marker::PhantomData;

// A table's pair, by its number, and how many rows and columns it has.
#[derive(Clone, Copy, Debug, PartialEq, Eq)]
pub struct Shape {
    pub pair: usize,
    pub rows: u8,
    pub columns: u8,
}

// A table of a sheet in a scale: its shape, and the digits of its entries, row by row.
#[derive(Drop)]
pub(crate) struct Table<'a, S: Scale> {
    pub(crate) shape: Shape,
    pub(crate) digits: &'a [u8],
    pub(crate) scale: PhantomData<S>,
    ghost small: { (shape.pair < 28) × ((shape.rows ≤ 8) × (shape.columns ≤ 8)) },
    ghost size: { length digits.now ≡ 2 * S.Scale.coding.width * (shape.columns * shape.rows) },
}

// The bytes that digits write, two digits a byte.
fn write_bytes(digits: &[u8], bytes: &mut [u8])
    requires { length digits.now ≡ 2 * length bytes.old }
    ensures { bytes.new ≡ bytes_of digits.now }
{
    let (pairs, _) = digits.as_chunks::<2>();
    // by index: of what a zip with `iter_mut` writes a proof learns nothing
    for (i, pair) in pairs.iter().enumerate() {
        bytes[i] = byte(pair[0], pair[1]);
    }
}

// The cost that a table's entry writes; `None` where a sheet may not have it.
fn cost_of<S: Scale>(digits: &[u8]) -> Option<S>
    requires { length digits.now ≡ 2 * S.Scale.coding.width }
    ensures { result ≡ entered S.Scale.coding.enterable (reading S.Scale.coding (bytes_of digits.now)) }
{
    let mut buffer = [0; 6];
    let bytes = &mut buffer[..S::WIDTH];
    write_bytes(digits, bytes);
    S::read(bytes).filter(|cost| cost.is_enterable())
}

impl<'a, S: Scale> Table<'a, S> {
    // The entry of a row and a column, from 0; `None` where a sheet may not have it.
    fn entry(&self, row: u8, column: u8) -> Option<S>
        requires row { row < self.now.shape.rows }
        requires column { column < self.now.shape.columns }
        ensures { result ≡ entry_of S.Scale.coding self.now.digits.now (self.now.shape.columns * row + column) }
    {
        let width = 2 * S::WIDTH;
        let at = width * (self.shape.columns as usize * row as usize + column as usize);
        cost_of(&self.digits[at..at + width])
    }

    // Where the first entry stands that a sheet may not have: its row and column, from 0. The loops over rows and columns have a
    // label and are left from inside, a rule of the project.
    pub(crate) fn first_unlawful(&self) -> Option<(u8, u8)>
        ensures { result ≡ unlawful (entry_of S.Scale.coding self.now.digits.now) self.now.shape.rows self.now.shape.columns }
    {
        let mut found = None;
        'rows: for row in 0..self.shape.rows {
            for column in 0..self.shape.columns {
                if self.entry(row, column).is_none() {
                    found = Some((row, column));
                    break 'rows;
                }
            }
        }
        found
    }

    // Lays the entries out at the places of the pair; by index, since of what is written through `chunks_mut` a proof learns nothing.
    pub(crate) fn lay(&self, costs: &mut [S])
        requires { 1792 ≤ length costs.old }
        ensures { costs.new ≡ table_laid (entry_of S.Scale.coding self.now.digits.now) self.now.shape.columns self.now.shape.pair self.now.shape.rows costs.old }
    {
        for row in 0..self.shape.rows {
            for column in 0..self.shape.columns {
                if let Some(cost) = self.entry(row, column) {
                    costs[64 * self.shape.pair + 8 * row as usize + column as usize] = cost;
                }
            }
        }
    }
}
