// Room for what is lent: zeros, of which only the number is promised, so that nobody counts them one by one. Who makes room makes the five one by one: of a
// struct that has them, no proof is made for a part that is lent of an array behind a reference.
ghost use Rattle.std.specs.Prelude.{◌≡◌, length};

// What a station is lent, where it is only looked at: to be saved, or to tell what is left. Who calls the station takes the five one by one, so that the compiler
// sees how long each array is down to the searches in crate `sound`; behind a reference to a struct it does not, and a full store was twice as slow.
#[derive(Clone, Copy)]
pub struct Lent<'a> {
    pub background: &'a [u8],
    pub store: &'a [u8],
    pub links: &'a [u16],
    pub directory: &'a [u8],
    pub values: &'a [u8],
}

// 4,000 rows.
pub fn rows() -> [u8; 304000]
    ensures { 304000 ≡ length result }
{
    [0; 304000]
}

// 2,024 portions.
pub fn portions() -> [u8; 518144]
    ensures { 518144 ≡ length result }
{
    [0; 518144]
}

// The longest store file, and one byte more.
pub fn file() -> [u8; 846673]
    ensures { 846673 ≡ length result }
{
    [0; 846673]
}

// As much of a room as is asked for, and never more than there is.
pub fn cut<'a>(room: &'a mut [u8], n: usize) -> &'a mut [u8] {
    let k = ground::least(n, room.len());
    &mut room[..k]
}
