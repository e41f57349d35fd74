//! The order of names, and the rows that have them.

ghost use Rattle.std.specs.Prelude.{◌≡◌, ◌==◌, ◌<◌, ◌^◌, option_copied, count_by};
ghost use Rattle.abs_model.specs.Objects.{name_lt, row_of};

use abs_model::NameRow;

/// One name stands before another, by bytes.
pub fn name_lt(a: &[u8], b: &[u8]) -> bool
    ensures { result ≡ name_lt a.now b.now }
{
    a.cmp(&b).is_lt()
}

/// The row of a name.
pub fn row_of<'a>(name: &[u8], rows: &'a [NameRow]) -> Option<&'a NameRow>
    ensures { option_copied result ≡ row_of name.now rows.now }
{
    rows.iter().find(|r| r.name.as_slice() == name)
}

/// How many of the rows lead to an index.
pub fn rows_to(i: usize, rows: &[NameRow]) -> usize
    ensures number { result ≡ count_by (λ r. r.index == i) rows.now }
    ensures bound { result < 2 ^ 63 }
{
    rows.iter().filter(|r| r.index as usize == i).count()
}
