// An argument or a file's name, in a room of its own.
ghost use Rattle.std.specs.Prelude.{◌≡◌, ◌≤◌, ◌++◌, ℕ, List, IfSome, length, take};
ghost use Rattle.file_names.specs.Names.{name_of};
ghost use Rattle.press_settings.specs.Names.{room, fitting};

use ground::front;
use std::marker::Model;
use std::rt::Env;

// A name stands at the front of its room.
#[derive(Drop)]
pub struct Name {
    room: [u8; 4096],
    length: usize,
}

// A contract sees the bytes that a name stands for.
impl Model for Name {
    ghost Value = { List ℕ };

    ghost view = { λ n. take n.length n.room };
}

// Room for a name: 4,096 zeros, of which only the number is promised, so that nobody counts them one by one.
fn name_room() -> [u8; 4096]
    ensures { 4096 ≡ length result }
{
    [0; 4096]
}

impl Name {
    // Argument i, where it is there and no longer than the room.
    pub fn found(rt: &impl Env, i: usize) -> Option<Name>
        ensures { IfSome result (λ name. length name ≤ room) }
    {
        let mut room = name_room();
        let length = rt.arg(i, &mut room).ok()?;
        Some(Name { room, length })
    }

    // The same; empty where it is not.
    pub fn argument(rt: &impl Env, i: usize) -> Name
        ensures { length result ≤ room }
    {
        match Name::found(rt, i) {
            Some(name) => name,
            None => Name::joined(b"", b""),
        }
    }

    // Two texts, one after the other.
    pub fn joined(a: &[u8], b: &[u8]) -> Name
        ensures { result ≡ fitting (a.now ++ b.now) }
    {
        let mut room = name_room();
        let length = sentences::joined(a, b, &mut room);
        Name { room, length }
    }

    // The name of picture n.
    pub fn picture(prefix: &[u8], n: usize) -> Name
        ensures { result ≡ fitting (name_of prefix.now n) }
    {
        let mut room = name_room();
        let length = file_names::name(prefix, n, &mut room);
        Name { room, length }
    }

    pub fn bytes(&self) -> &[u8]
        ensures { result.now ≡ self.now }
    {
        front(&self.room, self.length)
    }
}
