//! The routes of a switch.

ghost use Rattle.switch.specs.Seen.{RemovesRoute, SetsRoute};

use super::Switch;
use arbiters::Arbiter;
use refusals::Refusal;
use routes::Route;

impl<A: Arbiter> Switch<A> {
    /// Sets a route of an input: later cells of this VCI go to the output and leave with the new VCI. The route that the
    /// VCI had is replaced.
    pub fn set_route(&mut self, input: u8, route: Route) -> Result<(), Refusal>
        ensures { SetsRoute self.old input route.vci route.output route.new_vci result self.new }
    {
        self.routes.set(self.ports.number(), input, route)
    }

    /// Removes the route that an input has for a VCI. Cells that wait are not touched.
    pub fn remove_route(&mut self, input: u8, vci: u16) -> Result<(), Refusal>
        ensures { RemovesRoute self.old input vci result self.new }
    {
        self.routes.remove(self.ports.number(), input, vci)
    }
}
