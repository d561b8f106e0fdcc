//! A publisher with its viewers.

ghost use Rattle.std.specs.Prelude.{◌≡◌, ◌<◌, ◌≤◌, [], length, All, IfOk};
ghost use Rattle.std.specs.Arc.{arc_value};
ghost use Rattle.pm_publish.specs.Viewing.{fresh};

use crate::copies::Copies;
use crate::front::Opened;
use crate::naming::Naming;
use crate::press::Press;
use crate::publisher::Publisher;
use crate::rule::{Glimpse, NeverBack};
use crate::sealed::Sealed;
use crate::viewer::Viewer;
use crossbeam_utils::rule::Protocol;
use left_right::Absorb;
use pm_model::{Grows, Memory};
use std::alloc::Global;
use std::sync::{Arc, Wait};

/// A room of one publisher, and viewers that hold the first version.
#[derive(Drop)]
pub struct Room<V: Grows + Drop, H: Naming>
where
    NeverBack: Protocol<Sealed<V, H>, Glimpse>,
    Sealed<V, H>: Absorb<Sealed<V, H>, State = V>,
{
    pub publisher: Publisher<V, H>,
    pub viewers: Vec<Viewer<V, H>>,
}

/// A room in which a version was published behind the first, and that version.
#[derive(Drop)]
pub struct Resumed<V: Grows + Drop, H: Naming>
where
    NeverBack: Protocol<Sealed<V, H>, Glimpse>,
    Sealed<V, H>: Absorb<Sealed<V, H>, State = V>,
{
    pub room: Room<V, H>,
    pub told: Sealed<V, H>,
}

/// A room with so many viewers, each of which holds the first version, whose list is empty.
pub fn publish_room<V: Grows + Drop, H: Naming>(
    alloc: Global,
    opened: Opened,
    first: Arc<V>,
    places: usize,
) -> Result<Room<V, H>, Memory>
    requires book { opened ≡ H.book }
    requires places { (0 < places) × (places ≤ 32) }
    requires empty { V.list (arc_value first) ≡ [] }
    ensures published { IfOk result (λ r. r.publisher ≡ arc_value first) }
    ensures count { IfOk result (λ r. length r.viewers.items ≡ places) }
    ensures held { IfOk result (λ r. All (λ v. v ≡ fresh (arc_value first)) r.viewers.items) }
{
    let (log, front) = opened.named::<H>();
    let first = Sealed::new(first, front);
    let publisher = Publisher::new(Press::new(alloc, &first, places)?, log);
    let viewers = viewers(alloc, &publisher, places)?;
    Ok(Room { publisher, viewers })
}

/// A room with so many viewers, in which this version was published behind the first, whose list is empty. Each viewer holds it,
/// and it is given to be told.
pub fn resumed_room<V: Grows + Drop, H: Naming, R: Wait>(
    rt: &R,
    alloc: Global,
    opened: Opened,
    first: Arc<V>,
    next: Copies<V>,
    places: usize,
) -> Result<Resumed<V, H>, Memory>
    requires book { opened ≡ H.book }
    requires places { (0 < places) × (places ≤ 32) }
    requires empty { V.list (arc_value first) ≡ [] }
    ensures published { IfOk result (λ r. r.room.publisher ≡ next) }
    ensures count { IfOk result (λ r. length r.room.viewers.items ≡ places) }
    ensures held { IfOk result (λ r. All (λ v. v ≡ fresh next) r.room.viewers.items) }
    ensures told { IfOk result (λ r. r.told ≡ next) }
{
    let (log, front) = opened.named::<H>();
    let first = Sealed::new(first, front);
    let mut publisher = Publisher::new(Press::new(alloc, &first, places)?, log);
    let told = publisher.publish(rt, next);
    let viewers = viewers(alloc, &publisher, places)?;
    Ok(Resumed {
        room: Room { publisher, viewers },
        told,
    })
}

// So many viewers of what is published.
fn viewers<V: Grows + Drop, H: Naming>(
    alloc: Global,
    publisher: &Publisher<V, H>,
    places: usize,
) -> Result<Vec<Viewer<V, H>>, Memory>
    ensures count { IfOk result (λ r. length r.items ≡ places) }
    ensures held { IfOk result (λ r. All (λ v. v ≡ fresh publisher.now) r.items) }
{
    let mut viewers = Vec::with_capacity(alloc, places)?;
    for _ in 0..places {
        let viewer = publisher.viewer()?;
        viewers.push(viewer)?;
    }
    Ok(viewers)
}
