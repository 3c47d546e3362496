// The size of a mesh.
ghost use Rattle.layouts.specs.Links.{InRange};

/// A width and a height, each from 2 to 8.
#[derive(Clone, Copy)]
pub(crate) struct Size {
    pub(crate) width: u16,
    pub(crate) height: u16,
    ghost ok: { InRange width height },
}
