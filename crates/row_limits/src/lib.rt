// The limits of a line's fields.
//
// Paper 01 gives numbers, names and prompts their limits; a line that has the written form with one outside of them is answered by 7. `row_limits` answers the place of the first
// such field of a line, or that all are within.
#![tactic(auto)]

ghost use Rattle.std.specs.Prelude.{◌≡◌, ◌||◌, cond, get_or};
ghost use Rattle.bounds.specs.Letters.{bound_by};
ghost use Rattle.bounds.specs.declared.Bounds.{Bounds};
ghost use Rattle.kinds.specs.Bytes.{between};
ghost use Rattle.grammar.specs.Makers.{starred};
ghost use Rattle.grammar.specs.Forms.{row_of, Form, bounds_of, limited, is_number};
ghost use Rattle.row_limits.specs.Limits.{named, day_there, meets, field_limits, limits_from};

use bounds::bound_by;
use calendar::days_in;
use classes::Class;
use grammar::makers::is_star;
use grammar::table::line_up;

// Whether the n bytes of the text at p are those of a name.
fn is_name(line: &[u8], p: usize, n: usize) -> bool
    ensures { result ≡ named line.now p n }
{
    if line.len() <= p {
        return n == 0;
    }
    let start = p + 1;
    let end = classes::run_end(line, Class::Named, start);
    end - start == n
}

fn is_either(line: &[u8], p: usize, n: usize) -> bool
    ensures { result ≡ (named line.now p n || starred line.now p n) }
{
    if is_name(line, p, n) {
        return true;
    }
    is_star(line, p, n)
}

// Whether a day is one of its month, where the year is within its limits.
fn is_day(month: usize, day: usize, year: usize) -> bool
    ensures { result ≡ day_there month day year }
{
    if 99 < year {
        return true;
    }
    day <= days_in(year, month)
}

// Whether a field meets what is asked of it beside its bounds.
fn is_met(line: &[u8], f: u8, before: usize, v: usize, p: usize, behind: usize) -> bool
    ensures { result ≡ meets f line.now before v p behind }
{
    match f {
        b'w' => before < v,
        b'y' => is_day(before, v, behind),
        b'a' => is_name(line, p, v),
        b'z' => is_either(line, p, v),
        _ => true,
    }
}

fn is_within(low: usize, high: usize, v: usize) -> bool
    ensures { result ≡ between low high v }
{
    (low..=high).contains(&v)
}

fn is_limited(f: u8) -> bool
    ensures { result ≡ limited f }
{
    match f {
        b'n' => true,
        b'w' => true,
        b'y' => true,
        b's' => true,
        b't' => true,
        b'a' => true,
        b'z' => true,
        _ => false,
    }
}

// The limits of one field. Only a field that has bounds asks for those of its letter.
fn field_limits(
    line: &[u8],
    f: u8,
    letter: u8,
    rows: usize,
    before: usize,
    v: usize,
    p: usize,
    behind: usize,
) -> Result<(), usize>
    ensures { result ≡ field_limits f ((bound_by letter rows).low, (bound_by letter rows).high) line.now before v p behind }
{
    if f == b'd' {
        return data_field::data_limits(line, p);
    }
    if is_limited(f) {
        let b = bound_by(letter, rows);
        if is_within(b.low, b.high, v) {
            if is_met(line, f, before, v, p, behind) {
                return Ok(());
            }
            return Err(p);
        }
        return Err(p);
    }
    Ok(())
}

fn number_after(f: u8, v: usize, before: usize) -> usize
    ensures { result ≡ cond (is_number f) v before }
{
    match f {
        b'n' => v,
        b'w' => v,
        b'y' => v,
        _ => before,
    }
}

// The value of a slot, 0 past the last.
fn value_at(vs: &[usize], i: usize) -> usize
    ensures { result ≡ get_or vs.now i 0 }
{
    if i < vs.len() { vs[i] } else { 0 }
}

// Holds the fields of a row to their limits: the place of the first outside is what is refused.
pub fn row_limits(
    line: &[u8],
    row: usize,
    rows: usize,
    vs: &[usize; 18],
    ps: &[usize; 18],
) -> Result<(), usize>
    ensures { result ≡ limits_from (row_of row).fields (bounds_of row rows) line.now 0 vs.now ps.now }
{
    let up = line_up(row);
    let mut before: usize = 0;
    for i in 0..18usize {
        let f = up[i];
        if f == b' ' {
            return Ok(());
        }
        let letter = up[18 + i];
        let v = vs[i];
        let p = ps[i];
        // A comma stands between two fields.
        let behind = value_at(vs, i + 2);
        field_limits(line, f, letter, rows, before, v, p, behind)?;
        before = number_after(f, v, before);
    }
    Ok(())
}
