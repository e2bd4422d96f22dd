// A row of widths is fetched from its table as one number, and its digits are written out side by side. What would stand past
// the end of the list that is lent is left out.
ghost use Rattle.std.specs.Prelude.{◌≡◌, ◌+◌, ◌-◌, ◌%◌, ◌≤◌, get_or};
ghost use Rattle.std.proofs.lemmas.List.Edits.{sets};
ghost use Rattle.code128.specs.Widths.{digits};

use ground::put_byte;

// The row of a table, 0 past its end.
pub(crate) fn row_in(table: &[u32], v: usize) -> u32
    ensures { result ≡ get_or table.now v 0 }
{
    if v < table.len() { table[v] } else { 0 }
}

pub fn wide(row: u32) -> usize
    ensures { (result ≡ row) × (result ≤ 4294967295) }
{
    row as usize
}

fn last_digit(row: usize) -> u8
    ensures { result ≡ row % 10 }
{
    (row % 10) as u8
}

// Writes the n digits of a row at a place, and answers the place after them. The four types write at most 1,299 of them.
pub(crate) fn put(out: &mut [u8], at: usize, row: usize, n: usize) -> usize
    requires { at + n ≤ 10000 }
    ensures { (result ≡ at + n) × (out.new ≡ sets out.old at (digits n row)) }
{
    let mut rest = row;
    for left in (0..n).rev() {
        put_byte(out, at + left, last_digit(rest));
        rest /= 10;
    }
    at + n
}
