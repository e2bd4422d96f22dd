// Code 128, ISO/IEC 15417: the symbol table and the check symbol. Paper 01, "The bar tables": the table is one constant of 106 rows of
// six widths and the stop, and its rule ("widths 1 to 4, sum 11, bars even, rows distinct") is proved once and carried to each row (proofs/Rule.antt).
// `row` gives the widths of a symbol as one number and `check` the check symbol of any symbols, as specs/Code128.antt has them.
// Which symbols data is written with stands in `shortest`; how the widths of the whole are written is left to `symbols`.
#![tactic(auto)]

ghost use Rattle.std.specs.Prelude.{◌≡◌, ◌-◌, ◌≤◌, get_or};
ghost use Rattle.code128.specs.Code128.{rows128, last_bar, check128};

use ground::byte_at;

// The symbol after all others.
pub const STOP: usize = 106;

// The symbol table: 106 rows of six widths, and the stop's seven.
const W128: [u8; 643] =
    *b"212222222122222221121223121322131222122213122312132212221213221312231212112232122132122231113222123122123221223211221132\
    221231213212223112312131311222321122321221312212322112322211212123212321232121111323131123131321112313132113132311211313\
    231113231311112133112331132131113123113321133121313121211331231131213113213311213131311123311321331121312113312311332111\
    314111221411431111111224111422121124121421141122141221112214112412122114122411142112142211241211221114413111241112134111\
    111242121142121241114212124112124211411212421112421211212141214121412121111143111341131141114113114311411113411311113141\
    1141313111414111312114122112142112322331112";

// The row of a symbol, 0 where there is none.
pub fn row(v: usize) -> usize
    ensures { result ≡ get_or rows128 v 0 }
{
    if 107 <= v {
        return 0;
    }
    let table = W128;
    let i = v * 6;
    let high = above(table[i], b'0') * 100
        + above(table[i + 1], b'0') * 10
        + above(table[i + 2], b'0');
    let low = above(table[i + 3], b'0') * 100
        + above(table[i + 4], b'0') * 10
        + above(table[i + 5], b'0');
    high * 1000 + low
}

// The last bar of the stop.
pub fn last_bar() -> usize
    ensures { result ≡ last_bar }
{
    above(W128[642], b'0')
}

// The check symbol of any symbols: what is summed stays below the modulus and one symbol's weight.
pub fn check(symbols: &[u8]) -> usize
    ensures { result ≡ check128 symbols.now }
{
    let mut sum = byte_at(symbols, 0);
    for i in 1..symbols.len() {
        sum = sum % 103 + i % 103 * byte_at(symbols, i);
    }
    sum % 103
}

// How far a byte is above k.
pub fn above(b: u8, k: u8) -> usize
    ensures { (result ≡ b - k) × (result ≤ 255) }
{
    usize::from(b.saturating_sub(k))
}
