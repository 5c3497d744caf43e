//! Where a search or a walk ends.
/// Where a search ends: the new item is left out, a bin with room gets one more item, or an item of a bin is uncovered.
#[derive(Clone, Copy)]
pub enum End {
    Leave,
    Room(usize),
    Uncover(usize, usize),
}
