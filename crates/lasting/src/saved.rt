// Head and body, saved and loaded again.
ghost use Rattle.std.specs.Prelude.{◌≡◌, ◌*◌};
ghost use Rattle.std.proofs.lemmas.List.Edits.{sets};
ghost use Rattle.file_parts.specs.Sums.{part_of};
ghost use Rattle.dots.specs.Dots.{bytes_a_row};
ghost use Rattle.store.specs.Chain.{most_portions};
ghost use Rattle.lent.specs.Lent.{most_rows};
ghost use Rattle.lasting.specs.File.{body_at, directory_bytes, links_at, store_at, store_bytes, background_at, links_from, file_size, headed, rows_in, placed, sealed};

use crate::judged::file_sum;
use crate::links::{put_links, take_links};
use crate::{
    BACKGROUND_AT, BODY_AT, DIRECTORY_BYTES, ENTRIES_AT, LINKS_AT, MOST_BACKGROUND, PORTIONS_AT,
    ROWS_AT, STORE_AT, STORE_BYTES, VERSION,
};
use dots::BYTES_A_ROW;
use file_parts::{part, put_four, put_two};
use ground::put;
use slots::{BODY_SUM_AT, VERSION_AT};
use store::{MOST_ENTRIES, MOST_PORTIONS};

fn put_head(file: &mut [u8], rows: u16)
    ensures { file.new ≡ headed file.old rows }
{
    put(file, 0, b"Skeinferry store");
    put_two(file, VERSION_AT, VERSION);
    put_two(file, ROWS_AT, rows);
    put_two(file, PORTIONS_AT, MOST_PORTIONS as u16);
    put_two(file, ENTRIES_AT, MOST_ENTRIES as u16);
}

// Head and body, not sealed yet; how long the file is.
pub fn place(
    file: &mut [u8],
    background: &[u8],
    store: &[u8],
    links: &[u16],
    directory: &[u8],
) -> usize
    ensures { (result ≡ file_size (rows_in background.now)) × (file.new ≡ placed file.old background.now store.now links.now directory.now) }
{
    let rows = (background.len() / BYTES_A_ROW % 65536) as u16;
    put_head(file, rows);
    put(file, BODY_AT, directory);
    put_links(file, LINKS_AT, links);
    put(file, STORE_AT, store);
    put(file, BACKGROUND_AT, background);
    BACKGROUND_AT + BYTES_A_ROW * (rows as usize)
}

// The sum of head and body, in the head.
pub fn seal(file: &mut [u8])
    ensures { file.new ≡ sealed file.old }
{
    let s = file_sum(file);
    put_four(file, BODY_SUM_AT, s);
}

// Directory, links, store and background out of a file.
pub fn load_body(
    file: &[u8],
    background: &mut [u8],
    store: &mut [u8],
    links: &mut [u16],
    directory: &mut [u8],
)
    ensures { (directory.new ≡ sets directory.old 0 (part_of file.now body_at directory_bytes)) × (links.new ≡ sets links.old 0 (links_from most_portions file.now links_at)) × (store.new ≡ sets store.old 0 (part_of file.now store_at store_bytes)) × (background.new ≡ sets background.old 0 (part_of file.now background_at (most_rows * bytes_a_row))) }
{
    put(directory, 0, part(file, BODY_AT, DIRECTORY_BYTES));
    take_links(file, LINKS_AT, links);
    put(store, 0, part(file, STORE_AT, STORE_BYTES));
    put(background, 0, part(file, BACKGROUND_AT, MOST_BACKGROUND));
}
