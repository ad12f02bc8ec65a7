//! The rest of a list.

ghost use Rattle.std.specs.Prelude.{◌≡◌, ◌≤◌, drop, length};

/// All but the first.
pub(crate) fn rest_of<T>(items: &[T]) -> &[T]
    requires { 1 ≤ length items.now }
    ensures { result.now ≡ drop 1 items.now }
{
    &items[1..]
}
