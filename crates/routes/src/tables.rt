//! The tables of all eight inputs.

ghost use Rattle.routes.specs.Map.{tables_of, empty, is_port, setting, removing, told, Fitting, Alone};
ghost use Rattle.std.specs.Prelude.{◌≡◌, OnErr};

use crate::Route;
use crate::table::Table;
use refusals::Refusal;

/// The most ports that a switch has, and so the number of tables.
const PORTS: usize = 8;

/// The route tables of all inputs. At every input there are at most 32 routes, no two of them have the same VCI,
/// and each output is one of eight.
#[derive(Clone, Copy)]
pub struct Routes {
    inputs: [Table; PORTS],
}

impl Routes {
    /// Tables without a route.
    pub fn new() -> Routes
        ensures { tables_of result ≡ empty }
    {
        Routes {
            inputs: [Table::new(); PORTS],
        }
    }

    /// The route that cells with this VCI take which come in by this input, if it has one.
    pub fn find(&self, input: u8, vci: u16) -> Option<Route>
        ensures entry { result ≡ (tables_of self.now).route input vci }
        ensures fitting { Fitting vci result }
        ensures alone { Alone self.now }
    {
        self.inputs.get(input as usize)?.find(vci)
    }

    /// Sets a route at an input of a switch with this many ports, in place of the one with the same VCI if there is
    /// one. Refuses a port that is not below the port count, and then a new VCI where the input has 32 routes.
    pub fn set(&mut self, ports: u8, input: u8, route: Route) -> Result<(), Refusal>
        ensures outcome { told tables_of result self.new ≡ setting (tables_of self.old) ports input route }
        ensures kept { OnErr result (self.new ≡ self.old) }
    {
        if !is_port(ports, input) || !is_port(ports, route.output) {
            return Err(Refusal::PortBeyond);
        }
        self.inputs[input as usize].set(route)
    }

    /// Removes the route with this VCI from an input of a switch with this many ports.
    /// Refuses an input that is not below the port count, and then a VCI that has no route there.
    pub fn remove(&mut self, ports: u8, input: u8, vci: u16) -> Result<(), Refusal>
        ensures outcome { told tables_of result self.new ≡ removing (tables_of self.old) ports input vci }
        ensures kept { OnErr result (self.new ≡ self.old) }
    {
        if !is_port(ports, input) {
            return Err(Refusal::PortBeyond);
        }
        self.inputs[input as usize].remove(vci)
    }
}

/// Whether a switch with this many ports, of which it has at most eight, has this one.
fn is_port(ports: u8, port: u8) -> bool
    ensures { result ≡ is_port ports port }
{
    port < ports && (port as usize) < PORTS
}
