// Any bytes judged.
ghost use Rattle.std.specs.Prelude.{◌≡◌, ◌<◌};
ghost use Rattle.lasting.specs.File.{rows_of, file_sum, version_wrong, sizes_wrong, chosen, judged};

use crate::{BACKGROUND_AT, BODY_AT, ENTRIES_AT, MOST_ROWS, PORTIONS_AT, ROWS_AT, VERSION};
use dots::BYTES_A_ROW;
use file_parts::{four_at, part, sum, two_at};
use ground::{both, either};
use slots::{BODY_SUM_AT, VERSION_AT, is_first, is_whole, order_of};
use store::{MOST_ENTRIES, MOST_PORTIONS};

// Why a file is no store that can be loaded: it is not a store; of another version; of other sizes; longer or shorter than its sizes say; of another sum; with no
// whole slot.
#[derive(Clone, Copy, PartialEq, Eq)]
pub enum Fault {
    Foreign,
    Version,
    Sizes,
    Length,
    Damaged,
    Slots,
}

// The rows that the head names.
pub fn rows(file: &[u8]) -> usize
    ensures { (result ≡ rows_of file.now) × (result < 65536) }
{
    two_at(file, ROWS_AT) as usize
}

fn version_wrong(file: &[u8]) -> bool
    ensures { result ≡ version_wrong file.now }
{
    let version = two_at(file, VERSION_AT);
    both(!is_first(file), version != VERSION)
}

fn sizes_wrong(file: &[u8]) -> bool
    ensures { result ≡ sizes_wrong file.now }
{
    let rows = two_at(file, ROWS_AT);
    let portions = two_at(file, PORTIONS_AT);
    let entries = two_at(file, ENTRIES_AT);
    either(
        rows == 0,
        either(
            MOST_ROWS < rows as usize,
            either(
                portions as usize != MOST_PORTIONS,
                entries as usize != MOST_ENTRIES,
            ),
        ),
    )
}

// The sum of head and body.
pub(crate) fn file_sum(file: &[u8]) -> u32
    ensures { result ≡ file_sum file.now }
{
    let head = sum(1, part(file, 0, BODY_SUM_AT));
    let n = BACKGROUND_AT - BODY_AT + BYTES_A_ROW * rows(file);
    sum(head, part(file, BODY_AT, n))
}

// The whole slot of the greater order.
fn choose(file: &[u8]) -> Result<usize, Fault>
    ensures { result ≡ chosen file.now }
{
    let first = is_whole(file, 0);
    let second = is_whole(file, 1);
    let earlier = order_of(file, 0);
    let later = order_of(file, 1);
    if both(second, either(!first, earlier < later)) {
        return Ok(1);
    }
    if first {
        return Ok(0);
    }
    Err(Fault::Slots)
}

// The slot that holds, where a file is a store.
pub fn judge(file: &[u8]) -> Result<usize, Fault>
    ensures { result ≡ judged file.now }
{
    if !writing::same(part(file, 0, VERSION_AT), b"Skeinferry store") {
        return Err(Fault::Foreign);
    }
    if version_wrong(file) {
        return Err(Fault::Version);
    }
    if sizes_wrong(file) {
        return Err(Fault::Sizes);
    }
    if file.len() != BACKGROUND_AT + BYTES_A_ROW * rows(file) {
        return Err(Fault::Length);
    }
    if file_sum(file) != four_at(file, BODY_SUM_AT) {
        return Err(Fault::Damaged);
    }
    choose(file)
}
