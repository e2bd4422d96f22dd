// An entry is started and a form is finished (paper 01): "New entries and portions are the lowest free", "A starting form takes one portion", and the end of
// recording makes kind 3 kind 1. Each is one equation over the lists that it changes, on any memory. Whether there is room is asked before (crate `full`); where
// no form is being recorded in the entry, finishing answers so and changes nothing.
#![tactic(auto)]

ghost use Rattle.std.specs.Prelude.{◌≡◌, set};
ghost use Rattle.cells.specs.Cell.{set_cell};
ghost use Rattle.store.specs.Chain.{end_link};
ghost use Rattle.store.specs.Entry.{bytes_an_entry};
ghost use Rattle.finding.specs.Find.{is_recording};
ghost use Rattle.room.specs.Room.{lowest_portion, lowest_entry};
ghost use Rattle.starting.specs.Start.{name_end, new_entry, finished};

use memory::{put_entry, put_link};
use store::{BYTES_AN_ENTRY, END_LINK};

fn name_end(title: [u8; 8]) -> u8
    ensures { result ≡ name_end title }
{
    for (k, b) in title.iter().enumerate() {
        if *b == 0 {
            return k as u8;
        }
    }
    8
}

fn new_entry(kind: u8, title: [u8; 8], q: usize) -> [u8; BYTES_AN_ENTRY]
    ensures { result ≡ new_entry kind title q }
{
    let end = name_end(title);
    let lo = (q % 256) as u8;
    let hi = (q / 256 % 256) as u8;
    [
        kind, end, title[0], title[1], title[2], title[3], title[4], title[5], title[6], title[7],
        lo, hi, 0, 0, 0, 0,
    ]
}

// Starts an entry of a kind with a name and one portion: the new entry's number. The store does not change: its free portions are zero already.
pub fn begin(links: &mut [u16], directory: &mut [u8], kind: u8, title: [u8; 8]) -> usize
    ensures at { result ≡ lowest_entry directory.old }
    ensures links { links.new ≡ set links.old (lowest_portion links.old) end_link }
    ensures directory { directory.new ≡ set_cell bytes_an_entry directory.old (lowest_entry directory.old) (new_entry kind title (lowest_portion links.old)) }
{
    let q = room::lowest_portion(links);
    let i = room::lowest_entry(directory);
    put_link(links, q, END_LINK);
    let e = new_entry(kind, title, q);
    put_entry(directory, i, 0, &e);
    i
}

// Finishes the form that entry i records.
pub fn finish(directory: &mut [u8], i: usize) -> bool
    ensures answer { result ≡ is_recording directory.old i }
    ensures directory { directory.new ≡ finished directory.old i }
{
    if store::kind_at(directory, i) != 3 {
        return false;
    }
    let one = [1u8];
    put_entry(directory, i, 0, &one);
    true
}
