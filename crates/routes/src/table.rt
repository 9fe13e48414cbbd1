//! The route table of one input.

ghost use Rattle.routes.specs.Table.{Apart, Within, entry, held, place};
ghost use Rattle.std.specs.Prelude.{◌≡◌, ◌≤◌};

use crate::Route;
use refusals::Refusal;

/// The most routes that an input has.
const PLACES: usize = 32;

/// The routes of one input: at most 32, no two of them with the same VCI, each to one of eight outputs. The count is the
/// number of VCIs that have a route. The tables of a switch are Copy, so here is an array and not an ArrayVec.
#[derive(Clone, Copy)]
pub(crate) struct Table {
    routes: [Route; PLACES],
    count: u8,
    ghost room: { count ≤ 32 },
    ghost distinct: { Apart (place routes) count },
    ghost outputs: { Within (place routes) count },
    ghost counted: { count ≡ held (entry routes count) 65536 },
}

impl Table {
    ghost use Rattle.routes.specs.Entries.{entries_of, no_entries, setting_entry, removing_entry};
    ghost use Rattle.routes.specs.Fits.{fits};
    ghost use Rattle.routes.specs.Map.{told, Fitting};
    ghost use Rattle.std.specs.Prelude.{◌<◌, OnErr, position, take};

    /// A table without a route.
    pub(crate) fn new() -> Table
        ensures { entries_of result ≡ no_entries }
    {
        Table {
            routes: [Route {
                vci: 0,
                output: 0,
                new_vci: 0,
            }; PLACES],
            count: 0,
        }
    }

    /// The routes, one after the other.
    fn used(&self) -> &[Route]
        ensures { result.now ≡ take self.now.count self.now.routes }
    {
        &self.routes[..self.count as usize]
    }

    /// The place of the route that fits this VCI.
    fn position(&self, vci: u16) -> Option<usize>
        ensures { result ≡ position (λ r. fits r vci) (take self.now.count self.now.routes) }
    {
        self.used().iter().position(|route| route.fits(vci))
    }

    /// The route that fits this VCI.
    pub(crate) fn find(&self, vci: u16) -> Option<Route>
        ensures entry { result ≡ (entries_of self.now).route vci }
        ensures fitting { Fitting vci result }
    {
        // A `for`: the iterator's `find` takes 1.1 times as long.
        for route in self.used() {
            if route.fits(vci) {
                return Some(*route);
            }
        }
        None
    }

    /// Sets a route, in place of the one with the same VCI if there is one. Refuses a new VCI where there are 32 routes.
    pub(crate) fn set(&mut self, route: Route) -> Result<(), Refusal>
        requires { route.output < 8 }
        ensures outcome { told entries_of result self.new ≡ setting_entry (entries_of self.old) route }
        ensures kept { OnErr result (self.new ≡ self.old) }
    {
        match self.position(route.vci) {
            Some(k) => self.routes[k] = route,
            None => {
                let count = self.count as usize;
                if count >= PLACES {
                    return Err(Refusal::RoutesFull);
                }
                self.routes[count] = route;
                self.count += 1;
            }
        }
        Ok(())
    }

    /// Removes the route with this VCI; the last route is moved to its place. Refuses a VCI that has no route.
    pub(crate) fn remove(&mut self, vci: u16) -> Result<(), Refusal>
        ensures outcome { told entries_of result self.new ≡ removing_entry (entries_of self.old) vci }
        ensures kept { OnErr result (self.new ≡ self.old) }
    {
        let k = self.position(vci).ok_or(Refusal::NoSuchRoute)?;
        let last = self.count - 1;
        self.routes[k] = self.routes[last as usize];
        self.count = last;
        Ok(())
    }
}
