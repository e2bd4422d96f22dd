// Bars and line, each in its margins of the one box.
ghost use Rattle.std.specs.Prelude.{◌≡◌, true};
ghost use Rattle.dots.specs.declared.Ink.TheVariants.{Black};
ghost use Rattle.dots.specs.Dots.{drawn, cut};
ghost use Rattle.kinds.specs.Fit.{fit};
ghost use Rattle.code128.specs.Widths.{sum};
ghost use Rattle.text.specs.Text.{down, glyphs};
ghost use Rattle.bars.specs.Drawing.{in_limits, widths, bars as bars_of};
ghost use Rattle.lined.specs.Lined.{line_of, line_wide, lined_drawn};
ghost use Rattle.lined.specs.Insets.{inset};

use crate::insets::Margins;
use crate::{insets, line};
use bars::{Bars, Widths};
use figures::Corner;
use font::cell_height;
use ground::{both, greatest};
use kinds::{Kind, Place};

// Draws the bars within their margins. `draw_lined` asks, with numbers in their limits and fit data.
fn draw_bars(page: &mut [u8], corner: Corner, m: Margins, b: Bars, bytes: &[u8])
    requires { (in_limits b.e b.f b.g ≡ true) × (fit b.kind bytes.now ≡ true) }
    ensures { page.new ≡ drawn Black (cut corner.size.width corner.size.length (inset corner.r m (sum (widths b.kind b.e b.f bytes.now)) b.g corner.x corner.y (bars_of (widths b.kind b.e b.f bytes.now)))) page.old }
{
    bars::draw(page, m.within(corner), b, bytes);
}

// Draws the line within its margins. `draw_lined` asks, with fit data.
fn draw_line(page: &mut [u8], corner: Corner, m: Margins, font: &[u8], kind: Kind, bytes: &[u8])
    requires { fit kind bytes.now ≡ true }
    ensures { page.new ≡ drawn Black (cut corner.size.width corner.size.length (inset corner.r m (line_wide font.now (line_of kind bytes.now)) (down font.now 1) corner.x corner.y (glyphs font.now 1 1 (line_of kind bytes.now)))) page.old }
{
    line::draw(page, m.within(corner), font, kind, bytes);
}

// Draws the bars of data and the line under them, one after the other in one box.
pub fn draw_lined(page: &mut [u8], corner: Corner, b: Bars, place: Place, font: &[u8], bytes: &[u8])
    ensures { page.new ≡ lined_drawn corner.size.width corner.size.length corner.x corner.y corner.r b.kind b.e b.f b.g place font.now bytes.now page.old }
{
    if both(bars::in_limits(b), kinds::fits(b.kind, bytes)) {
        let by = Widths {
            kind: b.kind,
            e: b.e as u8,
            f: b.f as u8,
        };
        let upper = bars::breadth(by, bytes);
        let lower = line::breadth(b.kind, font, bytes);
        let wide = greatest(upper, lower);
        let high = cell_height(font);
        let over = insets::around(place, wide - upper, 0, high);
        let below = insets::around(place, wide - lower, b.g, 0);
        draw_bars(page, corner, over, b, bytes);
        draw_line(page, corner, below, font, b.kind, bytes);
    }
}
