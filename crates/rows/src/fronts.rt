// The filled front of a room.
ghost use Rattle.std.specs.Prelude.{◌≡◌, ◌*◌, take};

// [4.9] The first `count` items, three numbers each, as a part of the room; all of a shorter room.
pub fn front<'a>(room: &'a [u64], count: usize) -> &'a [u64]
    ensures { result.now ≡ take (3 * count) room.now }
{
    if count <= room.len() / 3 {
        &room[..3 * count]
    } else {
        room
    }
}
