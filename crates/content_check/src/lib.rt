// Decides the clauses of Sound on what the entries hold (paper 01): "each form a row of normalised lines that recording would take one after another
// (presence of pictures aside); each picture legal". Entry by entry, on any memory: each form is walked line by line where it lies, each picture is copied
// out and judged whole. `contents_ok` asks it of all entries, `content_at` of one.
#![tactic(auto)]

ghost use Rattle.std.specs.Prelude.{◌≡◌, length};
ghost use Rattle.contents.specs.Content.{content};
ghost use Rattle.pcx.specs.Rules.{legal};
ghost use Rattle.content_check.specs.Contents.{most_picture, form_sound, content_ok, contents_ok};

use store::BYTES_AN_ENTRY;

// A picture is "129 to 32,768 bytes", so that a buffer of that size holds all that can be legal. `contents_ok` makes it once for all entries, `content_at`
// only for a picture.
const MOST_PICTURE: usize = 32768;

fn picture_legal(store: &[u8], links: &[u16], directory: &[u8], i: usize, buffer: &mut [u8]) -> bool
    requires { length buffer.old ≡ most_picture }
    ensures { result ≡ legal (content store.now links.now directory.now i) }
{
    let place = contents::reader(links, directory, i);
    if MOST_PICTURE < place.left {
        return false;
    }
    let n = contents::copy_out(store, links, directory, i, buffer);
    pcx::is_legal(ground::front(buffer, n))
}

// Entry i, if it is a form, is a row of lines that recording would take.
fn form_sound(store: &[u8], links: &[u16], directory: &[u8], i: usize) -> bool
    ensures { result ≡ form_sound store.now links.now directory.now i }
{
    if store::is_of_kind(false, store::kind_at(directory, i)) {
        return forms::form_ok(store, links, directory, i);
    }
    true
}

// The content of entry i is what its kind asks for.
fn content_ok(store: &[u8], links: &[u16], directory: &[u8], i: usize, buffer: &mut [u8]) -> bool
    requires { length buffer.old ≡ most_picture }
    ensures { result ≡ content_ok store.now links.now directory.now i }
{
    let k = store::kind_at(directory, i);
    if store::is_of_kind(true, k) {
        return picture_legal(store, links, directory, i, buffer);
    }
    form_sound(store, links, directory, i)
}

fn all_ok(store: &[u8], links: &[u16], directory: &[u8], buffer: &mut [u8]) -> bool
    requires { length buffer.old ≡ most_picture }
    ensures { result ≡ contents_ok store.now links.now directory.now }
{
    let n = directory.len() / BYTES_AN_ENTRY;
    for i in 0..n {
        if !content_ok(store, links, directory, i, buffer) {
            return false;
        }
    }
    true
}

// So are the contents of all entries.
pub fn contents_ok(store: &[u8], links: &[u16], directory: &[u8]) -> bool
    ensures { result ≡ contents_ok store.now links.now directory.now }
{
    let mut buffer = [0u8; MOST_PICTURE];
    all_ok(store, links, directory, &mut buffer)
}

fn picture_at(store: &[u8], links: &[u16], directory: &[u8], i: usize) -> bool
    ensures { result ≡ legal (content store.now links.now directory.now i) }
{
    let mut buffer = [0u8; MOST_PICTURE];
    picture_legal(store, links, directory, i, &mut buffer)
}

// The content of entry i alone.
pub fn content_at(store: &[u8], links: &[u16], directory: &[u8], i: usize) -> bool
    ensures { result ≡ content_ok store.now links.now directory.now i }
{
    let kind = store::kind_at(directory, i);
    if store::is_of_kind(true, kind) {
        return picture_at(store, links, directory, i);
    }
    form_sound(store, links, directory, i)
}
