// The six calls of `face` for a caller in C.
//
// A crate is a library for other crates or an archive for a C program, and not both: `face` is the library, this crate the archive `libface_c.a`, in which its calls stand
// under their own names. Each export is one call of `face` and promises what that promises, clause by clause; nothing is decided here. A slice is passed as a pointer and
// then a length. `peer/station.h` declares the six for C, and says what a C program must see to, which nothing here can check.
#![tactic(auto)]

ghost use Rattle.std.specs.Prelude.{◌≡◌};
ghost use Rattle.lent.specs.Lent.{world};
ghost use Rattle.memory.specs.Memory.{memory};
ghost use Rattle.face.specs.Face.{opening, commanding, labelling, opened_face, commanded_face, labelled_face, clocking, clocked_face, fitted_face, repairing, repaired_face};

#[unsafe(no_mangle)]
pub extern "C" fn station_open(
    session: &mut [u8],
    page: &mut [u8],
    background: &mut [u8],
    store: &mut [u8],
    links: &mut [u16],
    directory: &mut [u8],
    values: &mut [u8],
) -> u8
    ensures { opening result session.new page.new (world background.new store.new links.new directory.new values.new) ≡ opened_face session.old page.old (world background.old store.old links.old directory.old values.old) }
{
    face::station_open(session, page, background, store, links, directory, values)
}

#[unsafe(no_mangle)]
pub extern "C" fn station_command(
    session: &mut [u8],
    counts: &mut [u64],
    font: &[u8],
    background: &mut [u8],
    store: &mut [u8],
    links: &mut [u16],
    directory: &mut [u8],
    values: &mut [u8],
    output: &mut [u8],
    input: &[u8],
) -> u8
    ensures { commanding result session.new counts.new (world background.new store.new links.new directory.new values.new) output.new ≡ commanded_face session.old counts.old font.now (world background.old store.old links.old directory.old values.old) output.old input.now }
{
    face::station_command(
        session, counts, font, background, store, links, directory, values, output, input,
    )
}

#[unsafe(no_mangle)]
pub extern "C" fn station_label(
    session: &mut [u8],
    font: &[u8],
    page: &mut [u8],
    background: &[u8],
    store: &[u8],
    links: &[u16],
    directory: &[u8],
    values: &[u8],
) -> u8
    ensures { labelling result session.new page.new ≡ labelled_face session.old font.now (world background.now store.now links.now directory.now values.now) page.old }
{
    face::station_label(
        session, font, page, background, store, links, directory, values,
    )
}

#[unsafe(no_mangle)]
pub extern "C" fn station_clock(session: &mut [u8], seconds: u64) -> u8
    ensures { clocking result session.new ≡ clocked_face session.old seconds }
{
    face::station_clock(session, seconds)
}

#[unsafe(no_mangle)]
pub extern "C" fn station_fits(
    session: &[u8],
    links: &[u16],
    directory: &[u8],
    kind: u8,
    name: &[u8],
    size: u64,
) -> u8
    ensures { result ≡ fitted_face session.now links.now directory.now kind name.now size }
{
    face::station_fits(session, links, directory, kind, name, size)
}

#[unsafe(no_mangle)]
pub extern "C" fn station_repair(
    session: &mut [u8],
    counts: &mut [u64],
    rows: u64,
    store: &mut [u8],
    links: &mut [u16],
    directory: &mut [u8],
    values: &mut [u8],
    output: &mut [u8],
) -> u8
    ensures { repairing result session.new counts.new (memory store.new links.new directory.new) values.new output.new ≡ repaired_face session.old counts.old rows (memory store.old links.old directory.old) values.old output.old }
{
    face::station_repair(
        session, counts, rows, store, links, directory, values, output,
    )
}
