//! The guards of an action.
ghost use Rattle.std.specs.Prelude.{◌≡◌};
ghost use Rattle.pm_model.specs.Containment.{contained};
ghost use Rattle.pm_model.specs.Formed.{IsLive};
ghost use Rattle.pm_model.specs.Responses.{all_hold, holds};

use crate::names::look_up_both;
use pm_model::{ElementId, EventNames, Guard, Name, Reach, Refusal};
use pm_oblig::name_of;
use pm_state::Graph;

fn is_in(graph: &Graph, inner: ElementId, outer: ElementId) -> bool
    requires inner { IsLive graph.now.elements inner }
    requires outer { IsLive graph.now.elements outer }
    ensures { result ≡ contained graph.now.assigned inner outer }
{
    let mut reach = graph.reach();
    reach.contains(inner, outer)
}

fn holds(graph: &Graph, names: &EventNames, fresh: Name, guard: &Guard) -> Result<bool, Refusal>
    ensures { result ≡ holds graph.now names.now fresh guard.now }
{
    let inner = name_of(names, fresh, &guard.inner);
    let outer = name_of(names, fresh, &guard.outer);
    let (inner, outer) = match look_up_both(graph, inner, outer) {
        Ok(pair) => pair,
        Err(why) => return Err(why),
    };
    let inside = is_in(graph, inner, outer);
    if guard.within {
        Ok(inside)
    } else {
        Ok(!inside)
    }
}

/// Whether all of the guards hold, where what stands for names means these. They are tried in order, and
/// none behind one that fails: so a name that is unknown is told only where the guards before it hold.
/// It takes no memory.
pub fn all_hold(
    graph: &Graph,
    names: &EventNames,
    fresh: Name,
    guards: &[Guard],
) -> Result<bool, Refusal>
    ensures { result ≡ all_hold graph.now names.now fresh guards.now }
{
    for guard in guards {
        match holds(graph, names, fresh, guard) {
            Ok(true) => {}
            Ok(false) => return Ok(false),
            Err(why) => return Err(why),
        }
    }
    Ok(true)
}
