// What is lent, and when a lent length is wrong.
//
// Paper 01, "What is lent", gives each list its length: a background of whole rows of 76 bytes, a store of whole portions with one link for each, a directory of whole
// entries, ten fields of values. `lengths_wrong` answers whether row 1 of the table, "a lent length is wrong", applies to any five lengths, as the
// definition (specs/Lent.antt) says; `links_wrong` and `directory_wrong` say it of a call that is lent these alone. Font, input and output may be of any length.
#![tactic(auto)]

ghost use Rattle.std.specs.Prelude.{◌≡◌};
ghost use Rattle.lent.specs.Lent.{page_wrong, links_wrong, store_wrong, directory_wrong, lengths_wrong};

use dots::BYTES_A_ROW;
use ground::either;
use store::{BYTES_A_PORTION, BYTES_AN_ENTRY, MOST_ENTRIES, MOST_PORTIONS};
use stored_values::BYTES_A_FIELD;

// "N rows, 1 to 4,000."
const MOST_ROWS: usize = 4000;

// "10 fields of 34 bytes."
pub const BYTES_OF_VALUES: usize = 10 * BYTES_A_FIELD;

const MOST_PAGE: usize = MOST_ROWS * BYTES_A_ROW;

const MOST_DIRECTORY: usize = MOST_ENTRIES * BYTES_AN_ENTRY;

// Whether a page or background may not have n bytes.
fn page_wrong(n: usize) -> bool
    ensures { result ≡ page_wrong n }
{
    either(n % BYTES_A_ROW != 0, either(n < BYTES_A_ROW, MOST_PAGE < n))
}

// Whether there may not be n links.
pub fn links_wrong(n: usize) -> bool
    ensures { result ≡ links_wrong n }
{
    either(MOST_PORTIONS < n, n == 0)
}

// Whether a store may not have so many bytes beside so many links.
fn store_wrong(store: usize, links: usize) -> bool
    ensures { result ≡ store_wrong store links }
{
    if links_wrong(links) {
        return true;
    }
    store != links * BYTES_A_PORTION
}

// Whether a directory may not have n bytes.
pub fn directory_wrong(n: usize) -> bool
    ensures { result ≡ directory_wrong n }
{
    either(
        n % BYTES_AN_ENTRY != 0,
        either(n < BYTES_AN_ENTRY, MOST_DIRECTORY < n),
    )
}

// "a lent length is wrong": of the background, the store, the links, the directory and the values, in elements.
pub fn lengths_wrong(
    background: usize,
    store: usize,
    links: usize,
    directory: usize,
    values: usize,
) -> bool
    ensures { result ≡ lengths_wrong background store links directory values }
{
    let p = page_wrong(background);
    let s = store_wrong(store, links);
    let d = directory_wrong(directory);
    either(p, either(s, either(d, values != BYTES_OF_VALUES)))
}
