// What the station's program says of its labels: the line of one, and the sum of a run.
//
// Each function writes the text of its definition (specs/Reports.antt) into a buffer, as far as there is room, and answers the place after it.
#![tactic(auto)]

ghost use Rattle.writing.specs.Writing.{Wrote};
ghost use Rattle.reports.specs.Reports.{which_of, size_of, label_of, sum_of};

use sentences::{put, put_numbered};

// `label I of N: NAME`
fn put_which(i: usize, n: usize, name: &[u8], out: &mut [u8]) -> usize
    ensures { Wrote out.old 0 (which_of i n name.now) result out.new }
{
    let of = put_numbered(out, 0, b"label ", i);
    let colon = put_numbered(out, of, b" of ", n);
    let place = put(out, colon, b": ");
    put(out, place, name)
}

// `, W by L dots, B black`
fn put_size(width: usize, rows: usize, black: usize, out: &mut [u8], at: usize) -> usize
    ensures { Wrote out.old at (size_of width rows black) result out.new }
{
    let by = put_numbered(out, at, b", ", width);
    let dots = put_numbered(out, by, b" by ", rows);
    let end = put_numbered(out, dots, b" dots, ", black);
    put(out, end, b" black\n")
}

// `label I of N: NAME, W by L dots, B black`
pub fn label(
    i: usize,
    n: usize,
    name: &[u8],
    width: usize,
    rows: usize,
    black: usize,
    out: &mut [u8],
) -> usize
    ensures { Wrote out.old 0 (label_of i n name.now width rows black) result out.new }
{
    let at = put_which(i, n, name, out);
    put_size(width, rows, black, out, at)
}

// `T lines taken, R refused, L labels drawn`
pub fn sum(taken: usize, refused: usize, labels: usize, out: &mut [u8]) -> usize
    ensures { Wrote out.old 0 (sum_of taken refused labels) result out.new }
{
    let lines = put_numbered(out, 0, b"", taken);
    let more = put_numbered(out, lines, b" lines taken, ", refused);
    let end = put_numbered(out, more, b" refused, ", labels);
    put(out, end, b" labels drawn\n")
}
