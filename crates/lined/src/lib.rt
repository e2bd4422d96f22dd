// The number under the bars: paper 02, §1, `Bx,y,r,t,e,f,g,h,data` with h `N`, `B`, `B,C` or `B,R`.
//
// With `N` the bars stand alone, as crate `bars` draws them. With `B` their data stands under them in the lent font, and the two are one box: turned as
// one and cut as one, the narrower of them at the left, in the middle or at the right. `draw` promises one equation on the page, `bars_with` of
// specs/Lined.antt, for any bytes and any numbers; what is unfit, or out of its limits, draws nothing. The code draws bars and line one after the other,
// each at the corner that its own box has in the turned box (`placed-inset` of proofs/Within.antt). Who asks for a line is left to the crates above.
#![tactic(auto)]

mod drawing; // bars and line, each in its margins
mod insets; // a box with margins around it, turned as one
mod line; // what the line shows, and its size

ghost use Rattle.std.specs.Prelude.{◌≡◌};
ghost use Rattle.lined.specs.Lined.{bars_with};

pub use bars::Bars;
pub use figures::{Corner, Size};
use kinds::Under;

// Draws the bars of data in g rows and what stands under them, in one box from a corner.
pub fn draw(page: &mut [u8], corner: Corner, b: Bars, under: Under, font: &[u8], bytes: &[u8])
    ensures { page.new ≡ bars_with corner.size.width corner.size.length corner.x corner.y corner.r b.kind b.e b.f b.g under font.now bytes.now page.old }
{
    match under {
        Under::Nothing => bars::draw(page, corner, b, bytes),
        Under::Line(place) => drawing::draw_lined(page, corner, b, place, font, bytes),
    }
}
