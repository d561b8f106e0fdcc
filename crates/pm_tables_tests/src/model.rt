//! Each call that takes memory, with ample memory: what it answers.

use pm_model::{
    Body, Command, ElementId, Entry, ItemList, Memory, Mode, Name, NameList, PlaceList,
    Prohibition, Question, Request, Rights, Subject,
};
use std::alloc::Global;
use std::process::Abort;
use std::test::Fail;

fn name(rt: &impl Abort, text: &str) -> Name {
    Name::new(text.as_bytes()).expect(rt, "a name")
}

fn names(rt: &(impl Abort + Alloc<A = Global>), texts: &[&str]) -> Result<NameList, Fail> {
    let mut list = NameList::new(rt.alloc());
    for text in texts {
        list.push(name(rt, text))?;
    }
    Ok(list)
}

fn is_named(rt: &impl Abort, found: &Name, text: &str) {
    assert_eq!(rt; found.bytes(), text.as_bytes());
}

/// The numbers from 3 to 6, two of them put in between.
fn three_to_six(alloc: Global) -> Result<ItemList<u8>, Memory> {
    let mut list = ItemList::new(alloc);
    list.push(3)?;
    list.push(5)?;
    list.insert(1, 4)?;
    list.insert(3, 6)?;
    Ok(list)
}

fn numbers_are(rt: &impl Abort, list: &ItemList<u8>, want: &[u8]) {
    assert_eq!(rt; list.as_slice(), want);
}

fn remove_second(rt: &impl Abort, list: &mut ItemList<u8>) {
    assert_eq!(rt; list.len(), 4);
    assert_eq!(rt; list.remove(1), 4);
}

#[test]
fn lists_grow_and_are_copied(rt: HostRuntime) -> Result<(), Fail> {
    let mut list = three_to_six(rt.alloc())?;
    let same = list.copy()?;
    remove_second(&rt, &mut list);
    numbers_are(&rt, &list, &[3, 5, 6]);
    numbers_are(&rt, &same, &[3, 4, 5, 6]);
    Ok(())
}

fn bar(rt: &(impl Abort + Alloc<A = Global>)) -> Result<Prohibition, Memory> {
    let mut inc = PlaceList::new(rt.alloc());
    inc.push(ElementId(3))?;
    Ok(Prohibition {
        name: name(rt, "bar"),
        subject: Subject::Ua(ElementId(4)),
        rights: Rights(5),
        inc,
        exc: PlaceList::new(rt.alloc()),
        mode: Mode::Any,
    })
}

#[test]
fn a_prohibition_is_copied(rt: HostRuntime) -> Result<(), Fail> {
    let same = bar(&rt)?.copy()?;
    is_named(&rt, &same.name, "bar");
    assert_eq!(rt; (same.inc.len(), same.exc.len()), (1, 0));
    Ok(())
}

fn check_association(rt: &impl Abort, command: &Command) {
    match command {
        Command::Associate { ua, rights, at } => {
            is_named(rt, ua, "staff");
            assert_eq!(rt; rights.len(), 2);
            is_named(rt, rights.at(1), "write");
            is_named(rt, at, "docs");
        }
        _ => assert!(rt; false, "another command"),
    }
}

fn association(rt: &(impl Abort + Alloc<A = Global>)) -> Result<Request, Fail> {
    let command = Command::Associate {
        ua: name(rt, "staff"),
        rights: names(rt, &["read", "write"])?,
        at: name(rt, "docs"),
    };
    Ok(Request {
        after: Some(7),
        body: Body::Admin {
            process: 2,
            command,
        },
    })
}

/// The entry of the same request.
fn entry_of(request: &Request) -> Result<Entry, Memory> {
    Ok(Entry {
        seat: 3,
        nth: 4,
        request: request.copy()?,
    })
}

fn check_entry(rt: &impl Abort, entry: &Entry) {
    let request = &entry.request;
    assert_eq!(rt; (entry.seat, entry.nth, request.after), (3, 4, Some(7)));
    match &request.body {
        Body::Admin { process, command } => {
            assert!(rt; *process == 2);
            check_association(rt, command);
        }
        _ => assert!(rt; false, "another body"),
    }
}

#[test]
fn an_entry_and_its_request_are_copied(rt: HostRuntime) -> Result<(), Fail> {
    let request = association(&rt)?;
    let same = entry_of(&request)?.copy()?;
    check_entry(&rt, &same);
    Ok(())
}

fn survey(rt: &(impl Abort + Alloc<A = Global>)) -> Result<Body, Fail> {
    let question = Question::Survey {
        users: names(rt, &["ann", "root", "ann"])?,
    };
    Ok(Body::Review {
        process: 3,
        question,
    })
}

fn check_review(rt: &impl Abort, body: &Body) {
    match body {
        Body::Review {
            process,
            question: Question::Survey { users },
        } => assert_eq!(rt; (*process, users.len()), (3, 3)),
        _ => assert!(rt; false, "another body"),
    }
}

#[test]
fn a_question_is_copied(rt: HostRuntime) -> Result<(), Fail> {
    let same = survey(&rt)?.copy()?;
    check_review(&rt, &same);
    Ok(())
}
