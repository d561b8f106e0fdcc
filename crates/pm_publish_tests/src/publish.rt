//! Rooms whose versions keep the length of their list alone, with answers worked out by hand.

ghost use Rattle.std.specs.Prelude.{◌≡◌, ◌≤◌, IfOk};

use pm_model::{Grows, Memory};
use pm_publish::{Copies, Naming, Opened, Publisher, Room, Sealed, Viewer, publish_room};
use std::alloc::Global;
use std::marker::Brand;
use std::process::Abort;
use std::sync::{Arc, Wait};
use std::thread;
use std::thread::Threads;

/// The length of a list of which all entries are the same.
#[derive(Drop)]
struct Length(u64);

impl Grows for Length {
    ghost use Rattle.pm_publish.specs.Worked.{so_many};

    ghost list = { λ v. so_many v.0 };

    fn grown(&self) -> u64 {
        self.0
    }
}

fn publish_length<H: Naming, R: Wait>(
    rt: &R,
    alloc: Global,
    publisher: &mut Publisher<Length, H>,
    length: u64,
) -> Result<Sealed<Length, H>, Memory>
    requires { publisher.old.0 ≤ length }
    ensures { IfOk result (λ _. publisher.new.0 ≡ length) }
{
    let next = Copies::new(alloc, Length(length))?;
    Ok(publisher.publish(rt, next))
}

/// Who publishes the length 0, and two viewers.
fn two_viewers<H: Naming, R: Abort>(
    rt: &R,
    alloc: Global,
    opened: Opened,
) -> (Publisher<Length, H>, Viewer<Length, H>, Viewer<Length, H>)
    requires { opened ≡ H.book }
    ensures { result.0.0 ≡ 0 }
{
    let first = Arc::new(alloc, Length(0)).expect(rt, "memory");
    let Room {
        publisher,
        mut viewers,
    } = publish_room::<Length, H>(alloc, opened, first, 2).expect(rt, "memory");
    let one = viewers.pop().expect(rt, "a viewer");
    let two = viewers.pop().expect(rt, "a second viewer");
    (publisher, one, two)
}

fn show<H: Naming>(
    rt: &impl Abort,
    one: &Viewer<Length, H>,
    two: &Viewer<Length, H>,
    lengths: (u64, u64),
) {
    assert!(rt; (one.shown().0, two.shown().0) == lengths);
}

/// Two versions are published; the one viewer looks after each, and the other is told of the second.
fn publish_two<H: Naming, R: Wait + Abort>(
    rt: &R,
    alloc: Global,
    publisher: &mut Publisher<Length, H>,
    one: &mut Viewer<Length, H>,
    two: &mut Viewer<Length, H>,
)
    requires { publisher.old.0 ≡ 0 }
{
    let older = publish_length(rt, alloc, publisher, 3).expect(rt, "memory");
    assert!(rt; one.look());
    show(rt, one, two, (3, 0));
    let newer = publish_length(rt, alloc, publisher, 5).expect(rt, "memory");
    assert!(rt; two.told(newer) && !two.told(older));
    assert!(rt; one.look() && two.look());
}

fn look_and_be_told<H: Naming, R: Wait + Abort>(rt: &R, alloc: Global, opened: Opened)
    requires { opened ≡ H.book }
{
    let (mut publisher, mut one, mut two) = two_viewers::<H, R>(rt, alloc, opened);
    publish_two(rt, alloc, &mut publisher, &mut one, &mut two);
    show(rt, &one, &two, (5, 5));
}

#[test]
fn a_viewer_looks_and_is_told(rt: HostRuntime) {
    look_and_be_told::<Brand, _>(&rt, rt.alloc(), Opened::new())
}

/// Publishes the lengths from 0 on, up to this one, and says whether there was memory.
fn publish_up_to<H: Naming, R: Wait>(
    rt: &R,
    alloc: Global,
    mut publisher: Publisher<Length, H>,
    last: u64,
) -> bool
    requires { publisher.0 ≡ 0 }
{
    for length in 0..last {
        if publish_length(rt, alloc, &mut publisher, length).is_err() {
            return false;
        }
    }
    true
}

/// Looks so many times, and says whether no version was shorter than the one before.
fn never_falls<H: Naming>(mut viewer: Viewer<Length, H>, turns: u64) -> bool {
    for _ in 0..turns {
        let before = viewer.shown().0;
        viewer.look();
        if viewer.shown().0 < before {
            return false;
        }
    }
    true
}

fn look_beside_a_publisher<H: Naming + Send + Sync, R: Threads + Wait + Abort + Sync>(
    rt: &R,
    alloc: Global,
    opened: Opened,
)
    requires { opened ≡ H.book }
{
    let (publisher, one, two) = two_viewers::<H, R>(rt, alloc, opened);
    let looks = move || thread::join(
        rt,
        move || never_falls(one, 200),
        move || never_falls(two, 200),
    );
    let (published, stay) = thread::join(
        rt,
        move ||
            requires { publisher.0 ≡ 0 }
        { publish_up_to(rt, alloc, publisher, 100) },
        looks,
    );
    assert!(rt; published && stay == (true, true));
}

#[test]
fn versions_never_fall_beside_a_publisher(rt: HostRuntime) {
    look_beside_a_publisher::<Brand, _>(&rt, rt.alloc(), Opened::new())
}
