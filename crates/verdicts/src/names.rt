// "Name covers a wrong kind byte and a name already kept". A kind counts as the directory's: "1 and 3 are one kind".
ghost use Rattle.std.specs.Prelude.{◌≡◌, ◌&&◌};
ghost use Rattle.store.specs.Entry.{entry};
ghost use Rattle.finding.specs.Find.{same_name, titled};
ghost use Rattle.verdicts.specs.Verdicts.{is_kept, name_kept, wrong_name};

use crate::KEPT;

// Entry j bears a name of 8 zero-filled bytes.
fn is_named(directory: &[u8], title: [u8; 8], j: usize) -> bool
    ensures { result ≡ same_name (entry directory.now j) title }
{
    let own = store::name_at(directory, j);
    own == title
}

// Entry j is kept, is of the kind, and bears the name: in this order, so that names are compared last and seldom.
fn is_kept_as(directory: &[u8], verdicts: &[u8], picture: bool, title: [u8; 8], j: usize) -> bool
    ensures { result ≡ (is_kept verdicts.now j && titled directory.now picture title j) }
{
    if ground::byte(verdicts, j) != KEPT {
        return false;
    }
    let k = store::kind_at(directory, j);
    if !store::is_of_kind(picture, k) {
        return false;
    }
    is_named(directory, title, j)
}

// "a name already kept".
fn name_kept(directory: &[u8], verdicts: &[u8], i: usize) -> bool
    ensures { result ≡ name_kept directory.now verdicts.now i }
{
    let k = store::kind_at(directory, i);
    let title = store::name_at(directory, i);
    (0..i).any(|j| is_kept_as(directory, verdicts, k == 2, title, j))
}

pub fn wrong_name(directory: &[u8], verdicts: &[u8], i: usize) -> bool
    ensures { result ≡ wrong_name directory.now verdicts.now i }
{
    if 3 < store::kind_at(directory, i) {
        return true;
    }
    if !store_check::name_ok(directory, i) {
        return true;
    }
    name_kept(directory, verdicts, i)
}
