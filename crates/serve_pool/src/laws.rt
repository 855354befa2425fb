//! Laws of serving.

ghost use Rattle.serve_pool.specs.Laws.{LongerKeepsServed};

use session_serve::sessions_last;
use tardis_base::Machine;
use tardis_io::Link;

/// What was done with links stays so in every longer trail. This call does nothing.
pub fn servings_last<M: Machine, L: Link>()
    ensures { LongerKeepsServed L.left L.given L.take_faults L.faults M.plain }
{
    sessions_last::<M>();
}
