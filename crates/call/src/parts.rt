// A call by value is the call in place on the engine's parts, which are put together again.
ghost use Rattle.std.specs.Prelude.{◌≡◌};

use super::{Called, Told};
use engine_state::Engine;

// The engine with the core that a call in place gave. Its tables are those that the call left.
pub fn with_told(mut e: Engine, told: Told) -> Called
    ensures engine_value { result.engine ≡ record e { core = told.core } }
    ensures number_value { result.number ≡ told.number }
{
    e.core = told.core;
    Called {
        engine: e,
        number: told.number,
    }
}
