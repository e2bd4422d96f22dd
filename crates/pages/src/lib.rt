// Whole pages. Paper 01: Q, q and N "whiten the background", a label call "copies the background", and `label` writes labels "with their black dots".
// `whiten`, `copy` and `black_dots` promise what specs/Pages.antt says of pages of any length.
#![tactic(auto)]

ghost use Rattle.std.specs.Prelude.{◌≡◌, length};
ghost use Rattle.ground.specs.Numbers.{capped};
ghost use Rattle.pages.specs.Pages.{white, copied, black_in, black_dots};

use ground::capped_sum;

// Makes every dot white.
pub fn whiten(page: &mut [u8])
    ensures { page.new ≡ white (length page.old) }
{
    page.fill(0);
}

// Copies the background to the page.
pub fn copy(page: &mut [u8], background: &[u8])
    ensures { page.new ≡ copied page.old background.now }
{
    let end = page.len().min(background.len());
    for i in 0..end {
        page[i] = background[i];
    }
}

// How many dots of a byte are black.
fn black_in(b: u8) -> usize
    ensures { result ≡ black_in b }
{
    b.count_ones() as usize
}

// How many dots of a page are black, or the greatest number there is where they are more.
pub fn black_dots(page: &[u8]) -> usize
    ensures { result ≡ capped (black_dots page.now) }
{
    page.iter().fold(0, |n, b| capped_sum(n, black_in(*b)))
}
