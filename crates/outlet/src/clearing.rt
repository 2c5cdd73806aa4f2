// Outlets as an opening leaves them (document 02, point 1).
ghost use Rattle.std.specs.Prelude.{◌≡◌, ◌≤◌};
ghost use Rattle.outlet.specs.Outlets.{outlets_most, cleared};

use super::{Outlet, Outlets};

// Sets the drawn water and both totals of each outlet to 0; what stands behind the outlets of the list stays.
pub fn clear(outlets: Outlets) -> Outlets
    requires { outlets.count ≤ outlets_most }
    ensures { result ≡ cleared outlets }
{
    let count = outlets.count;
    // a variable of its own: of a field that such a loop has written no proof knows what it holds
    let mut list = outlets.list;
    for o in list[..count].iter_mut() {
        *o = Outlet {
            drawn: 0,
            water: 0,
            mass: 0,
            ..*o
        };
    }
    Outlets { count, list }
}
