//! Rows of a directory: one put in, one taken out.

ghost use Rattle.std.specs.List.{position_or_len};
ghost use Rattle.std.specs.Prelude.{◌≡◌, ◌≤◌, length, IfOk};
ghost use Rattle.abs_model.specs.Objects.{name_lt, placed, without};

use abs_model::NameRow;
use abs_queries::names::name_lt;
use std::alloc::{AllocError, Global};

/// The rows with one more, in the order of the names.
pub fn placed(alloc: Global, row: NameRow, rows: &[NameRow]) -> Result<Vec<NameRow>, AllocError>
    ensures { IfOk result (λ v. v.items ≡ placed row rows.now) }
{
    let at = place_of(row.name.as_slice(), rows);
    let mut out = copied(alloc, rows)?;
    out.insert(at, row)?;
    Ok(out)
}

fn copied(alloc: Global, rows: &[NameRow]) -> Result<Vec<NameRow>, AllocError>
    ensures { IfOk result (λ v. v.items ≡ rows.now) }
{
    Vec::from_clones(alloc, rows)
}

fn place_of(name: &[u8], rows: &[NameRow]) -> usize
    ensures place { result ≡ position_or_len (λ r. name_lt name.now r.name) rows.now }
    ensures within { result ≤ length rows.now }
{
    for (i, r) in rows.iter().enumerate() {
        if name_lt(name, r.name.as_slice()) {
            return i;
        }
    }
    rows.len()
}

/// The rows without a name's.
pub fn without(alloc: Global, name: &[u8], rows: &[NameRow]) -> Result<Vec<NameRow>, AllocError>
    ensures { IfOk result (λ v. v.items ≡ without name.now rows.now) }
{
    let mut out = Vec::new(alloc);
    for r in rows {
        if r.name.as_slice() != name {
            out.push(r.clone()?)?;
        }
    }
    Ok(out)
}

/// The rows with one that replaces that of its name.
pub fn comes(alloc: Global, row: NameRow, rows: &[NameRow]) -> Result<Vec<NameRow>, AllocError>
    ensures { IfOk result (λ v. v.items ≡ placed row (without row.name rows.now)) }
{
    let others = without(alloc, row.name.as_slice(), rows)?;
    placed(alloc, row, others.as_slice())
}
