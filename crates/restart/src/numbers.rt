//! The rows of nodes, by the nodes' numbers.

ghost use Rattle.std.specs.Prelude.{◌<◌, ◌^◌, length, IfOk};
ghost use Rattle.restart.specs.Numbers.{IsNumbered};

use server_trait::ConfEntry;
use std::alloc::{AllocError, Global};
use std::collections::BTreeMap;

/// The row of each number that the node of a live object has.
pub fn rows_by_number(alloc: Global, rows: &[ConfEntry]) -> Result<BTreeMap<u64, u32>, AllocError>
    requires { length rows.now < 2 ^ 32 }
    ensures { IfOk result (λ m. IsNumbered rows.now m) }
{
    let mut numbers = BTreeMap::new(alloc);
    for i in 0..rows.len() {
        if rows[i].handle.is_some() {
            numbers.insert(rows[i].number, i as u32)?;
        }
    }
    Ok(numbers)
}
