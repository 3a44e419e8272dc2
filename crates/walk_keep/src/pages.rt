// What the number of items found tells of a page.
ghost use Rattle.std.specs.Prelude.{◌≡◌, ◌+◌, length, take, List};
ghost use Rattle.paper.specs.declared.orders.Item.{Item};
ghost use Rattle.paper.specs.Orders.{paged_of};

use paper::orders::Paged;

// [4.6] [4.7] A page of `size` items, where that many and one more were looked for and `found` are there: only the one more tells that some
// follow the page.
pub fn counted(size: usize, found: usize) -> Paged
    ensures { (l : List Item) → found ≡ length (take (size + 1) l) → result ≡ paged_of size l }
{
    Paged {
        count: found.min(size),
        last: found <= size,
    }
}
