// Items joined to those that stand in a room.
ghost use Rattle.std.specs.Prelude.{◌≡◌, ◌+◌, ◌≤◌, length};
ghost use Rattle.std.proofs.Math.Seq.{paste};

// [7.7] Copies the first n numbers of a page behind the items that stand in the room.
pub fn join(room: &mut [u64], at: usize, items: &[u64], n: usize)
    requires { (at + n ≤ length room.old) × (n ≤ length items.now) }
    ensures { room.new ≡ paste room.old at items.now n }
{
    room[at..at + n].copy_from_slice(&items[..n]);
}
