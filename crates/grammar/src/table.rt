// The grammar as the code reads it: for each command the eighteen bytes of its form, and behind them a letter for the bounds of each field. A
// row is read once for a line: its bytes are quickly at hand, and a whole table would be copied each time.
ghost use Rattle.std.specs.Prelude.{◌≡◌, ◌≤◌, ◌<◌};
ghost use Rattle.grammar.specs.Named.{LO, FS, VC, LS, TS};
ghost use Rattle.grammar.specs.Codes.{line_up};

use crate::row;

// The page: Q, q, R, ZT, ZB.
fn page_rows(row: usize) -> [u8; 36]
    requires { row < LO }
    ensures { result ≡ line_up row }
{
    match row {
        row::LENGTH => *b"Qn,n              -N-l--------------",
        row::WIDTH => *b"qn                -m----------------",
        row::ORIGIN => *b"Rn,n              -j-k--------------",
        row::ZT => *b"ZT                ------------------",
        _ => *b"ZB                ------------------",
    }
}

// What is drawn: LO, LE, LW, X, A, B, GG.
fn drawn_rows(row: usize) -> [u8; 36]
    requires { (LO ≤ row) × (row < FS) }
    ensures { result ≡ line_up row }
{
    match row {
        row::LO => *b"LOn,n,n,n         --a-a-b-b---------",
        row::LE => *b"LEn,n,n,n         --a-a-b-b---------",
        row::LW => *b"LWn,n,n,n         --a-a-b-b---------",
        row::FRAME => *b"Xn,n,n,n,n        -a-c-d-a-c--------",
        row::TEXT => *b"An,n,n,n,n,m,d    -a-c-e-f-g--------",
        row::BARS => *b"Bn,n,n,k,n,w,n,h,d-a-c-e---f-h-i----",
        _ => *b"GGn,n,a           --a-c-q-----------",
    }
}

// What is kept: forms and pictures.
fn kept_rows(row: usize) -> [u8; 36]
    requires { (FS ≤ row) × (row < VC) }
    ensures { result ≡ line_up row }
{
    match row {
        row::FS => *b"FSa               --q---------------",
        row::FE => *b"FE                ------------------",
        row::FR => *b"FRa               --q---------------",
        row::FK => *b"FKz               --q---------------",
        row::GK => *b"GKz               --q---------------",
        row::FI => *b"FI                ------------------",
        row::GI => *b"GI                ------------------",
        row::FP => *b"FPa               --q---------------",
        _ => *b"GMa,n             --q-r-------------",
    }
}

// Values and labels: VC, V, C, ?V, ?C, P, N.
fn value_rows(row: usize) -> [u8; 36]
    requires { (VC ≤ row) × (row < LS) }
    ensures { result ≡ line_up row }
{
    match row {
        row::VC => *b"VC                ------------------",
        row::VARIABLE => *b"Vn,n,j,t          -n-o---p----------",
        row::COUNTER => *b"Cn,n,s,t          -n-g-s-p----------",
        row::SET_VARIABLE => *b"?Vn,u             --n---------------",
        row::SET_COUNTER => *b"?Cn,n             --n-v-------------",
        row::PRINT => *b"Pn                -t----------------",
        _ => *b"N                 ------------------",
    }
}

// Slanted lines: LS, LSE, LSW.
fn slant_rows(row: usize) -> [u8; 36]
    requires { (LS ≤ row) × (row < TS) }
    ensures { result ≡ line_up row }
{
    match row {
        row::LS => *b"LSn,n,n,n,n       --a-c-d-a-c-------",
        row::LSE => *b"LSEn,n,n,n,n      ---a-c-d-a-c------",
        _ => *b"LSWn,n,n,n,n      ---a-c-d-a-c------",
    }
}

// The clock and what is shown of it: TS, TD, TT. Past the last row there is none.
fn clock_rows(row: usize) -> [u8; 36]
    requires { TS ≤ row }
    ensures { result ≡ line_up row }
{
    match row {
        row::TS => *b"TSn,y,n,n,n,n     --u-w-x-y-z-z-----",
        row::TD => *b"TDf               ------------------",
        row::TT => *b"TTg               ------------------",
        _ => *b"                  ------------------",
    }
}

// The form of a row, and spaces past its end; then the letters of its bounds.
pub fn line_up(row: usize) -> [u8; 36]
    ensures { result ≡ line_up row }
{
    if row < row::LO {
        return page_rows(row);
    }
    if row < row::FS {
        return drawn_rows(row);
    }
    if row < row::VC {
        return kept_rows(row);
    }
    if row < row::LS {
        return value_rows(row);
    }
    if row < row::TS {
        return slant_rows(row);
    }
    clock_rows(row)
}
