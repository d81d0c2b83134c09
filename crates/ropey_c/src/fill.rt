//! Arrays that C gives, filled by iterators.
ghost use Rattle.std.specs.Iterator.{IsFinite};
ghost use Rattle.ropey_c.specs.Filling.{FillsBy};

// Writes items as far as there is room, and returns their number.
pub(crate) fn fill<A, B: From<A> + Drop, I: Iterator<Item = A>>(
    mut items: I,
    list: &mut [B],
) -> usize
    requires { I.can_next items × IsFinite (I.remaining items) }
    ensures { FillsBy I.next_gives B.from_gives items list.old list.new result }
{
    let mut count = 0;
    while count < list.len() {
        let Some(item) = items.next() else {
            return count;
        };
        list[count] = B::from(item);
        count += 1;
    }
    count
}
