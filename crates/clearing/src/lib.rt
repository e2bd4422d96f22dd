// Opening a station clears the store (paper 01): "Opening clears all lent memory (output aside), frees all portions". What it does to store, links and
// directory is one equation, on any memory.
#![tactic(auto)]

ghost use Rattle.std.specs.Prelude.{◌≡◌, length, replicate};
ghost use Rattle.cells.specs.Cell.{zeros};
ghost use Rattle.store.specs.Chain.{free_link};
ghost use Rattle.memory.specs.Memory.{memory};
ghost use Rattle.clearing.specs.Clear.{cleared};

use store::FREE_LINK;

fn free_all(links: &mut [u16])
    ensures { links.new ≡ replicate (length links.old) free_link }
{
    links.fill(FREE_LINK);
}

fn zero(bytes: &mut [u8])
    ensures { bytes.new ≡ zeros (length bytes.old) }
{
    let n = bytes.len();
    ground::fill(bytes, 0, n, 0);
}

// Opening clears the store and the directory, and frees all portions.
pub fn clear(store: &mut [u8], links: &mut [u16], directory: &mut [u8])
    ensures { memory store.new links.new directory.new ≡ cleared (memory store.old links.old directory.old) }
{
    zero(store);
    free_all(links);
    zero(directory);
}
