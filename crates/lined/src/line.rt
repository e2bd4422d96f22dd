// The line under the bars: what it shows, how wide it is, and the line drawn. The functions with a `requires` are asked by `draw_lined` of drawing alone,
// with data that it has found fit.
ghost use Rattle.std.specs.Prelude.{◌≡◌, true, false, ◌≤◌, length as size};
ghost use Rattle.kinds.specs.Fit.{most_data, fit};
ghost use Rattle.symbols.specs.Elements.{checked};
ghost use Rattle.text.specs.Text.{text_drawn};
ghost use Rattle.lined.specs.Lined.{checks as checks_of, line_of, line_wide};

use figures::Corner;
use font::cell_width;
use ground::put;
use kinds::Kind;
use symbols::check_digit;
use text::Scale;

// "in the lent font at scale 1"
const ONE: Scale = Scale { h: 1, v: 1 };

// Whether the line of a kind shows a check digit.
fn checks(kind: Kind) -> bool
    ensures { result ≡ checks_of kind }
{
    match kind {
        Kind::Shown => false,
        Kind::Code39 => false,
        Kind::Interleaved => false,
        Kind::Ean13 => true,
        Kind::Code128 => false,
    }
}

// How many bytes the line has.
fn line_length(kind: Kind, s: &[u8]) -> usize
    requires { fit kind s.now ≡ true }
    ensures { (result ≡ size (line_of kind s.now)) × (result ≤ most_data) }
{
    if checks(kind) { s.len() + 1 } else { s.len() }
}

// How many dots wide the line is.
pub(crate) fn breadth(kind: Kind, font: &[u8], s: &[u8]) -> usize
    requires { fit kind s.now ≡ true }
    ensures { result ≡ line_wide font.now (line_of kind s.now) }
{
    let cell = cell_width(font);
    line_length(kind, s) * cell
}

// Draws twelve digits and their check digit.
fn draw_checked(page: &mut [u8], corner: Corner, font: &[u8], s: &[u8])
    requires { size s.now ≡ 12 }
    ensures { page.new ≡ text_drawn corner.size.width corner.size.length corner.x corner.y corner.r 1 1 false font.now (checked s.now) page.old }
{
    let c = check_digit(s);
    let mut digits = [0u8; 13];
    put(&mut digits, 0, s);
    digits[12] = b'0' + c;
    text::draw(page, corner, ONE, false, font, &digits);
}

// Draws the line at scale 1 in mode N.
pub(crate) fn draw(page: &mut [u8], corner: Corner, font: &[u8], kind: Kind, s: &[u8])
    requires { fit kind s.now ≡ true }
    ensures { page.new ≡ text_drawn corner.size.width corner.size.length corner.x corner.y corner.r 1 1 false font.now (line_of kind s.now) page.old }
{
    if checks(kind) {
        draw_checked(page, corner, font, s);
    } else {
        text::draw(page, corner, ONE, false, font, s);
    }
}
