// Numbers put one after another.
ghost use Rattle.std.specs.Prelude.{◌≡◌, ◌+◌, ◌≤◌, length};
ghost use Rattle.std.proofs.lemmas.List.Edits.{sets};

// Puts numbers at a: an item, or a row of a caller that keeps rows.
pub fn put<const N: usize>(room: &mut [u64], a: usize, numbers: [u64; N])
    requires { a + N ≤ length room.old }
    ensures { room.new ≡ sets room.old a numbers.entry }
{
    room[a..a + N].copy_from_slice(&numbers);
}
