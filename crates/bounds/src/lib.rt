// The bounds of a field, by a letter.
//
// Paper 01 gives each number of a command, and the length of each name and prompt, a least and a greatest value. The code keeps a letter for each such pair, and
// `bound_by` answers the pair. Which letter belongs to which field is said in crate `grammar`, where the letters are held to the paper's limits.
#![tactic(auto)]

ghost use Rattle.std.specs.Prelude.{◌≡◌};
ghost use Rattle.bounds.specs.Letters.{bound_by};

// The least and the greatest value of a field.
#[derive(Clone, Copy)]
pub struct Bounds {
    pub low: usize,
    pub high: usize,
}

// The bounds that a letter stands for, on a page of so many rows.
pub fn bound_by(code: u8, rows: usize) -> Bounds
    ensures { result ≡ bound_by code rows }
{
    match code {
        b'N' => Bounds { low: 1, high: rows },
        b'a' => Bounds { low: 0, high: 2047 },
        b'b' => Bounds { low: 1, high: 2047 },
        b'c' => Bounds { low: 0, high: 4095 },
        b'd' => Bounds { low: 1, high: 80 },
        b'e' => Bounds { low: 0, high: 3 },
        b'f' => Bounds { low: 1, high: 6 },
        b'g' => Bounds { low: 1, high: 9 },
        b'h' => Bounds { low: 2, high: 10 },
        b'i' => Bounds {
            low: 24,
            high: 1000,
        },
        b'j' => Bounds { low: 0, high: 2048 },
        b'k' => Bounds { low: 0, high: 4096 },
        b'l' => Bounds { low: 0, high: 240 },
        b'm' => Bounds { low: 80, high: 608 },
        b'n' => Bounds { low: 0, high: 9 },
        b'o' => Bounds { low: 1, high: 32 },
        b'p' => Bounds { low: 0, high: 24 },
        b'q' => Bounds { low: 1, high: 8 },
        b'r' => Bounds {
            low: 1,
            high: 32768,
        },
        b's' => Bounds {
            low: 999900001,
            high: 1000099999,
        },
        b't' => Bounds {
            low: 1,
            high: 65535,
        },
        b'v' => Bounds {
            low: 0,
            high: 999999999,
        },
        b'u' => Bounds { low: 1, high: 12 },
        b'w' => Bounds { low: 1, high: 31 },
        b'x' => Bounds { low: 0, high: 99 },
        b'y' => Bounds { low: 0, high: 23 },
        b'z' => Bounds { low: 0, high: 59 },
        _ => Bounds { low: 0, high: 0 },
    }
}
