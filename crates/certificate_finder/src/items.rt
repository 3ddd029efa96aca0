// Items by their indexes.
ghost use Rattle.std.specs.Prelude.{◌≡◌, ◌<◌, Some, length, slice_get};

/// The item at an index.
pub(crate) fn item_at<T: Copy>(items: &[T], index: usize) -> T
    requires { index < length items.now }
    ensures { slice_get items.now index ≡ Some result }
{
    items[index]
}
