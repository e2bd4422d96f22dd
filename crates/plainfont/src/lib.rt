// The built-in font: a drawing made for this project, 95 glyphs in cells of 8 by 16 dots, codes 32 to 126.
// The drawing stands in specs/Drawing.antt, where it can be seen; `bytes` gives it in the form in which paper 01 lends a font, and its contract is
// that these bytes are that drawing's. The font of any drawing is legal (`legal-plain`), each code has the rows of its cell (`rows-plain`), and no two
// glyphs of this one look alike (`apart`). Whoever uses it asks for it once and lends it.
#![tactic(auto)]

ghost use Rattle.std.specs.Prelude.{◌≡◌};
ghost use Rattle.plainfont.specs.Plain.{plain};

mod glyphs; // the bytes, field by field, written from the drawing by a script

pub fn bytes() -> [u8; 1908]
    ensures { result ≡ plain }
{
    glyphs::FIELDS
}
