// Routes.
ghost use Rattle.std.specs.Prelude.{◌≡◌, ◌≤◌, length};

use crate::hop::Hop;

// A table with a count: to open a stream allocates nothing, where a `Vec` would, and a route is `Copy`, which the library's
// `ArrayVec` is not.
/// A list of 1 to 24 hops: those of the table up to `count`.
#[derive(Clone, Copy)]
pub struct Route {
    pub(crate) table: [Hop; 24],
    pub(crate) count: u8,
    ghost some: { 1 ≤ count },
    ghost few: { count ≤ 24 },
    ghost whole: { length table ≡ 24 },
}
