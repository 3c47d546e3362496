// The size of a grid.
ghost use Rattle.std.specs.Prelude.{◌≤◌};

/// How many links a grid has, how many lanes each link has, 1 to 4, and how many items a lane holds, 1 to 8.
#[derive(Clone, Copy)]
pub struct Size {
    pub(crate) links: u16,
    pub(crate) lanes: u16,
    pub(crate) depth: u16,
    ghost wide: { (1 ≤ lanes) × (lanes ≤ 4) },
    ghost deep: { (1 ≤ depth) × (depth ≤ 8) },
}
