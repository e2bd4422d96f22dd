// Code 128, ISO/IEC 15417, sets B and C: the symbols that the data is written with, check symbol and stop.
ghost use Rattle.std.specs.Prelude.{◌≡◌, ◌≤◌, length};
ghost use Rattle.std.proofs.lemmas.List.Edits.{sets};
ghost use Rattle.code128.specs.Widths.{each};
ghost use Rattle.code128.specs.Code128.{six, elements128};
ghost use Rattle.shortest.specs.Found.{our_writing, most_symbols};
ghost use Rattle.symbols.specs.Laid.{most_elements, Put};

use crate::row::put;
use code128::{STOP, check, last_bar, row};
use shortest::MOST_SYMBOLS;

fn body(values: &[u8], out: &mut [u8])
    requires { length values.now ≤ most_symbols }
    ensures { out.new ≡ sets out.old 0 (each six values.now) }
{
    for (i, v) in values.iter().enumerate() {
        put(out, 6 * i, row(usize::from(*v)), 6);
    }
}

// The symbols of these values, with check symbol and stop behind them.
fn close(values: &[u8], out: &mut [u8]) -> usize
    requires { length values.now ≤ most_symbols }
    ensures { (Put (elements128 values.now) 0 out.old out.new result) × (result ≤ most_elements) }
{
    body(values, out);
    let checked = put(out, 6 * values.len(), row(check(values)), 6);
    let stop = put(out, checked, row(STOP), 6);
    put(out, stop, last_bar(), 1)
}

pub(crate) fn fill(s: &[u8], out: &mut [u8]) -> usize
    ensures { (Put (elements128 (our_writing s.now)) 0 out.old out.new result) × (result ≤ most_elements) }
{
    let mut values = [0u8; MOST_SYMBOLS];
    let n = shortest::write(s, &mut values);
    close(&values[..n], out)
}
