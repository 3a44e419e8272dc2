// The header of a table. Its claims and nodes lie in memory that the caller lends.

// [3.1] What a table is called and measured by, and how much of its memory is in use. C has the same struct; its measure is a number, as what is out
// of range is refused with 1.
#[repr(C)]
#[derive(Clone, Copy)]
pub struct Table {
    pub number: u32,
    pub measure: u8,
    pub d: usize,
    pub capacity: usize,
    pub count: usize,
    // Nodes in use.
    pub used: usize,
}
