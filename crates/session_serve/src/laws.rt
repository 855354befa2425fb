//! Laws of sessions.

ghost use Rattle.session_serve.specs.Laws.{LongerKeepsOutcomes, LongerKeepsSessions, PlacesAscend};

use tardis_base::Machine;

/// What a session did stays so in every longer trail, and its places ascend. This call does nothing.
pub fn sessions_last<M: Machine>()
    ensures sessions { LongerKeepsSessions M.plain }
    ensures outcomes { LongerKeepsOutcomes M.plain }
    ensures places { PlacesAscend M.plain }
{}
