//! New names in a table and its copy, with answers worked out by hand.

use pm_model::Name;
use pm_rights::*;
use std::alloc::Global;
use std::process::Abort;
use std::test::Fail;

fn named(rt: &impl Abort, text: &str) -> Name {
    Name::new(text.as_bytes()).expect(rt, "a name")
}

/// Names and a copy of them.
#[derive(Drop)]
struct Both {
    names: RightNames,
    copy: RightNames,
}

/// The one has `print` behind the opening's, the other `sign`.
fn gone_apart(rt: &(impl Abort + Alloc<A = Global>)) -> Result<Both, Fail> {
    let mut names = RightNames::opening(rt.alloc())?;
    let mut copy = names.copy()?;
    names.define(named(rt, "print"))?;
    copy.define(named(rt, "sign"))?;
    Ok(Both { names, copy })
}

/// The bits of a name in both.
fn has_bits(rt: &impl Abort, both: &Both, text: &str, bits: (Option<u8>, Option<u8>)) {
    let name = named(rt, text);
    assert_eq!(rt;
        (both.names.find(name), both.copy.find(name)),
        bits,
        "{text}"
    );
}

#[test]
fn a_copy_is_another_table(rt: HostRuntime) -> Result<(), Fail> {
    let both = gone_apart(&rt)?;
    has_bits(&rt, &both, "print", (Some(17), None));
    has_bits(&rt, &both, "sign", (None, Some(17)));
    has_bits(&rt, &both, "review", (Some(16), Some(16)));
    Ok(())
}
