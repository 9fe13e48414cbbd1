//! A route, and the cells that it fits.

ghost use Rattle.routes.specs.Fits.{fits};
ghost use Rattle.std.specs.Prelude.{◌≡◌};

/// Cells with this VCI go to this output, and leave with the new VCI.
#[derive(Clone, Copy, PartialEq, Eq, Debug)]
pub struct Route {
    pub vci: u16,
    pub output: u8,
    pub new_vci: u16,
}

impl Route {
    /// Whether the route fits the cells with this VCI.
    pub fn fits(&self, vci: u16) -> bool
        ensures { result ≡ fits self.now vci }
    {
        self.vci == vci
    }
}
