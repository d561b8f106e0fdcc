use super::*;

fn event(rt: &impl Abort) -> EventNames {
    EventNames {
        user: named(rt, "ann"),
        target: named(rt, "paper"),
        process: 17,
    }
}

#[test]
fn a_creation_is_bound(rt: HostRuntime) -> Result<(), Fail> {
    let act = Act::Create {
        kind: Kind::Object,
        name: Term::Fresh,
        into: Term::EventTarget,
    };
    let here = Place {
        obligation: 2,
        action: 31,
    };
    match bind(&unguarded(rt.alloc(), act), &event(&rt), here, 9)? {
        Command::Create { kind, name, into } => {
            assert_eq!(rt; kind, Kind::Object);
            assert_eq!(rt; name.bytes(), b"x9.2.31".as_slice());
            assert_eq!(rt; into.bytes(), b"paper".as_slice());
        }
        _ => return Err("a creation".into()),
    }
    Ok(())
}
