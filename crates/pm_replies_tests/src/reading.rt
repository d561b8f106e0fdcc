//! Lines of replies that are read and printed again, and lines that no reply has.
use pm_print::{longest, print_reply};
use pm_replies::{RefusalText, ReplyError, ReplyLine, ReplyText, read_reply, with_numbers};
use std::alloc::{AllocError, Global};
use std::process::Abort;
use std::test::Fail;

// Each kind of reply, with an id and without.
static REPLIES: &[&str] = &[
    r#"{"id":0,"no":"too_long","v":17}"#,
    r#"{"no":"not_json","v":17}"#,
    r#"{"id":18446744073709551615,"no":"not_request","v":17}"#,
    r#"{"no":"unknown_command","v":18446744073709551615}"#,
    r#"{"field":"id","no":"bad_field","v":0}"#,
    r#"{"field":"when","id":7,"no":"bad_field","v":17}"#,
    r#"{"no":"ahead","v":11}"#,
    r#"{"no":"keep_fault","v":0}"#,
    r#"{"ok":"done","v":11}"#,
    r#"{"id":18,"ok":"done","session":1,"v":9}"#,
    r#"{"ok":"done","process":4294967295,"v":10}"#,
    r#"{"ok":"done","review":0,"v":10}"#,
    r#"{"fired":4294967295,"id":1,"ok":"done","v":17}"#,
    r#"{"ok":"granted","v":4}"#,
    r#"{"fired":1,"id":29,"ok":"granted","v":16}"#,
    r#"{"id":31,"list":[["team","4"],["ann","4"],["bob","4"]],"ok":"caps","v":16}"#,
    r#"{"list":[],"ok":"caps","v":0}"#,
    r#"{"id":32,"list":[["root","ffffffffffffffff"]],"ok":"entries","v":16}"#,
    r#"{"list":[["docs","1"],["memo","a0"],["docs","0"]],"ok":"kept","v":16}"#,
    r#"{"counts":[["ann",3],["root",18446744073709551615]],"id":33,"ok":"survey","v":16}"#,
    r#"{"counts":[],"ok":"survey","v":16}"#,
    r#"{"at":14,"list":[["memo","0","1"],["docs","1f","0"]],"ok":"changes","v":16}"#,
    r#"{"at":0,"id":2,"list":[],"ok":"changes","v":16}"#,
];

// Each refusal, and refusals of responses.
static REFUSALS: &[&str] = &[
    r#"{"no":"unknown_process","v":17}"#,
    r#"{"id":3,"no":"unknown_session","v":17}"#,
    r#"{"no":"unknown_review","v":17}"#,
    r#"{"id":12,"name":"bob","no":"unknown_name","v":7}"#,
    r#"{"class":"files","id":6,"no":"denied","right":"read","target":"memo","v":5}"#,
    r#"{"id":22,"no":"denied","prohibition":"closed","right":"read","target":"memo","v":11}"#,
    r#"{"class":"pm","no":"denied","right":"create_ua","target":"pm","v":1}"#,
    r#"{"no":"bad_kinds","v":17}"#,
    r#"{"no":"name_taken","v":17}"#,
    r#"{"no":"already","v":17}"#,
    r#"{"no":"absent","v":17}"#,
    r#"{"id":11,"no":"cycle","v":7}"#,
    r#"{"no":"occupied","v":17}"#,
    r#"{"no":"in_use","v":17}"#,
    r#"{"no":"last_container","v":17}"#,
    r#"{"no":"builtin","v":17}"#,
    r#"{"no":"empty_range","v":17}"#,
    r#"{"no":"full","table":"elements","v":17}"#,
    r#"{"no":"full","table":"assignments","v":17}"#,
    r#"{"no":"full","table":"associations","v":17}"#,
    r#"{"no":"full","table":"prohibitions","v":17}"#,
    r#"{"no":"full","table":"obligations","v":17}"#,
    r#"{"no":"full","table":"sessions","v":17}"#,
    r#"{"no":"full","table":"processes","v":17}"#,
    r#"{"no":"full","table":"reviews","v":17}"#,
    r#"{"no":"full","table":"rights","v":17}"#,
    r#"{"id":5,"no":"full","table":"history","v":262144}"#,
    r#"{"action":1,"id":30,"no":"response_refused","obligation":"mark","v":16,"why":"already"}"#,
    r#"{"action":32,"no":"response_refused","obligation":"a","v":16,"why":"unknown_name"}"#,
    r#"{"action":2,"no":"response_refused","obligation":"a","v":16,"why":"denied"}"#,
    r#"{"action":2,"no":"response_refused","obligation":"a","v":16,"why":"full"}"#,
    r#"{"action":3,"no":"response_refused","obligation":"a","v":16,"why":"unknown_process"}"#,
    r#"{"action":3,"no":"response_refused","obligation":"a","v":16,"why":"unknown_session"}"#,
    r#"{"action":3,"no":"response_refused","obligation":"a","v":16,"why":"unknown_review"}"#,
    r#"{"action":3,"no":"response_refused","obligation":"a","v":16,"why":"bad_kinds"}"#,
    r#"{"action":3,"no":"response_refused","obligation":"a","v":16,"why":"name_taken"}"#,
    r#"{"action":3,"no":"response_refused","obligation":"a","v":16,"why":"absent"}"#,
    r#"{"action":3,"no":"response_refused","obligation":"a","v":16,"why":"cycle"}"#,
    r#"{"action":3,"no":"response_refused","obligation":"a","v":16,"why":"occupied"}"#,
    r#"{"action":3,"no":"response_refused","obligation":"a","v":16,"why":"in_use"}"#,
    r#"{"action":3,"no":"response_refused","obligation":"a","v":16,"why":"last_container"}"#,
    r#"{"action":3,"no":"response_refused","obligation":"a","v":16,"why":"builtin"}"#,
    r#"{"action":3,"no":"response_refused","obligation":"a","v":16,"why":"empty_range"}"#,
];

// Lines of no reply.
static OTHERS: &[&str] = &[
    "",
    "{}",
    "[]",
    "null",
    r#"{"ok":"done"}"#,
    r#"{"v":11}"#,
    r#"{"ok":"done", "v":11}"#,
    r#" {"ok":"done","v":11}"#,
    "{\"ok\":\"done\",\"v\":11}\n",
    "{\"ok\":\"done\",\"v\":11}\r",
    r#"{"v":11,"ok":"done"}"#,
    r#"{"extra":1,"ok":"done","v":11}"#,
    r#"{"ok":"done","v":11,"why":"full"}"#,
    r#"{"ok":"done","ok":"done","v":11}"#,
    r#"{"ok":"done","v":11,"v":11}"#,
    r#"{"ok":"granted","ok":"done","v":11}"#,
    r#"{"no":"ahead","ok":"done","v":11}"#,
    r#"{"ok":"d\u006fne","v":11}"#,
    r#"{"ok":"undone","v":11}"#,
    r#"{"ok":null,"v":11}"#,
    r#"{"ok":"done","v":011}"#,
    r#"{"ok":"done","v":1.1e1}"#,
    r#"{"ok":"done","v":"11"}"#,
    r#"{"ok":"done","v":-0}"#,
    r#"{"ok":"done","v":18446744073709551616}"#,
    r#"{"id":18446744073709551616,"ok":"done","v":11}"#,
    r#"{"id":-1,"ok":"done","v":11}"#,
    r#"{"id":null,"ok":"done","v":11}"#,
    r#"{"fired":0,"ok":"done","v":11}"#,
    r#"{"fired":4294967296,"ok":"done","v":11}"#,
    r#"{"ok":"done","process":4294967296,"v":11}"#,
    r#"{"ok":"done","process":1,"session":1,"v":11}"#,
    r#"{"ok":"granted","session":1,"v":11}"#,
];

// And more of them, of refusals and lists.
static FURTHER: &[&str] = &[
    r#"{"class":"a","no":"denied","prohibition":"b","right":"c","target":"d","v":1}"#,
    r#"{"no":"denied","right":"c","target":"d","v":1}"#,
    r#"{"class":"a","no":"denied","target":"d","v":1}"#,
    r#"{"class":"a b","no":"denied","right":"c","target":"d","v":1}"#,
    r#"{"name":"","no":"unknown_name","v":1}"#,
    r#"{"name":"a","no":"unknown_process","v":1}"#,
    r#"{"no":"full","table":"names","v":1}"#,
    r#"{"no":"full","v":1}"#,
    r#"{"field":"fly","no":"bad_field","v":1}"#,
    r#"{"action":1,"no":"response_refused","obligation":"a","v":1,"why":"ahead"}"#,
    r#"{"action":4294967296,"no":"response_refused","obligation":"a","v":1,"why":"full"}"#,
    r#"{"action":1,"no":"response_refused","obligation":"a","v":1}"#,
    r#"{"ok":"caps","v":1}"#,
    r#"{"list":{},"ok":"caps","v":1}"#,
    r#"{"list":[[]],"ok":"caps","v":1}"#,
    r#"{"list":[["a"]],"ok":"caps","v":1}"#,
    r#"{"list":[["a","1","1"]],"ok":"caps","v":1}"#,
    r#"{"list":[["a","1"],["b"]],"ok":"kept","v":1}"#,
    r#"{"list":[["a",1]],"ok":"caps","v":1}"#,
    r#"{"list":[["a","A"]],"ok":"caps","v":1}"#,
    r#"{"list":[["a","01"]],"ok":"caps","v":1}"#,
    r#"{"list":[["a","00"]],"ok":"caps","v":1}"#,
    r#"{"list":[["a","+1"]],"ok":"caps","v":1}"#,
    r#"{"list":[["a",""]],"ok":"entries","v":1}"#,
    r#"{"list":[["a","g"]],"ok":"entries","v":1}"#,
    r#"{"list":[["a","10000000000000000"]],"ok":"entries","v":1}"#,
    r#"{"list":[["a","1"]],"ok":"changes","v":1}"#,
    r#"{"list":[["a","1","0"]],"ok":"changes","v":1}"#,
    r#"{"at":01,"list":[["a","1","0"]],"ok":"changes","v":1}"#,
    r#"{"at":1,"list":[["a","1"]],"ok":"changes","v":1}"#,
    r#"{"counts":[["a","3"]],"ok":"survey","v":1}"#,
    r#"{"counts":[["a",3,3]],"ok":"survey","v":1}"#,
    r#"{"list":[["a",3]],"ok":"survey","v":1}"#,
];

// The line of what was read, without its line feed.
fn printed(rt: &(impl Abort + Alloc<A = Global>), said: &ReplyLine) -> Result<Vec<u8>, Fail> {
    let told = with_numbers(rt.alloc(), &said.text)?;
    let mut out = Vec::new(rt.alloc());
    print_reply(said.id, said.version, &told.reply, &told.names, &mut out)?;
    assert!(rt; out.len() <= longest(&told.reply));
    assert!(rt; out.pop() == Some(b'\n'));
    Ok(out)
}

fn reads_back(rt: &(impl Abort + Alloc<A = Global>), line: &[u8]) -> Result<(), Fail> {
    match read_reply(rt.alloc(), line) {
        Ok(said) => {
            let again = printed(rt, &said)?;
            assert!(rt; again.as_slice() == line);
        }
        Err(_) => assert!(rt; false, "no reply was read"),
    }
    Ok(())
}

fn all_read_back(rt: &(impl Abort + Alloc<A = Global>), lines: &[&str]) -> Result<(), Fail> {
    for line in lines {
        reads_back(rt, line.as_bytes())?;
    }
    Ok(())
}

#[test]
fn replies_read_back(rt: HostRuntime) -> Result<(), Fail> {
    all_read_back(&rt, REPLIES)
}

#[test]
fn refusals_read_back(rt: HostRuntime) -> Result<(), Fail> {
    all_read_back(&rt, REFUSALS)
}

fn is_no_reply(rt: &(impl Abort + Alloc<A = Global>), line: &[u8]) -> bool {
    matches!(read_reply(rt.alloc(), line), Err(ReplyError::NotReply))
}

fn are_no_replies(rt: &(impl Abort + Alloc<A = Global>), lines: &[&str]) {
    for line in lines {
        assert!(rt; is_no_reply(rt, line.as_bytes()), "{line}");
    }
}

#[test]
fn other_lines_are_no_replies(rt: HostRuntime) {
    are_no_replies(&rt, OTHERS);
    are_no_replies(&rt, FURTHER);
    assert!(rt; is_no_reply(&rt, &[255]));
}

// What the line says, where it is that of a denial.
fn denial(said: &ReplyLine) -> bool {
    match &said.text {
        ReplyText::Refused(RefusalText::Denied { right, target, .. }) => {
            right.bytes() == b"read".as_slice() && target.bytes() == b"memo".as_slice()
        }
        _ => false,
    }
}

#[test]
fn replies_tell_what_they_say(rt: HostRuntime) {
    let line = r#"{"class":"files","id":6,"no":"denied","right":"read","target":"memo","v":5}"#;
    match read_reply(rt.alloc(), line.as_bytes()) {
        Ok(said) => assert!(rt; said.id == Some(6) && said.version == 5 && denial(&said)),
        Err(_) => assert!(rt; false, "no reply was read"),
    }
}

// Lines of which each byte is changed, left out and doubled.
static CHANGED: &[&str] = &[
    r#"{"ok":"done","v":11}"#,
    r#"{"fired":10,"id":7,"ok":"done","session":1,"v":9}"#,
    r#"{"class":"ab","no":"denied","right":"read","target":"memo","v":5}"#,
    r#"{"list":[["ab","10"],["c","f"]],"ok":"kept","v":16}"#,
    r#"{"action":1,"no":"response_refused","obligation":"m","v":16,"why":"full"}"#,
];

// The line is no reply, or another one that has it for its text.
fn is_another(rt: &(impl Abort + Alloc<A = Global>), line: &[u8]) -> Result<(), Fail> {
    match read_reply(rt.alloc(), line) {
        Ok(said) => {
            let again = printed(rt, &said)?;
            assert!(rt; again.as_slice() == line);
        }
        Err(error) => assert!(rt; error == ReplyError::NotReply),
    }
    Ok(())
}

// The line with other bytes in place of the one at a place that it has.
fn with_bytes(alloc: Global, line: &[u8], at: usize, bytes: &[u8]) -> Result<Vec<u8>, AllocError> {
    let mut changed = Vec::new(alloc);
    for (i, byte) in line.iter().enumerate() {
        if i == at {
            changed.extend_from_slice(bytes)?;
        } else {
            changed.push(*byte)?;
        }
    }
    Ok(changed)
}

fn changes_are_others(rt: &(impl Abort + Alloc<A = Global>), line: &[u8]) -> Result<(), Fail> {
    for (i, byte) in line.iter().enumerate() {
        let byte = *byte;
        let next = byte.wrapping_add(1);
        is_another(rt, &with_bytes(rt.alloc(), line, i, &[next])?)?;
        is_another(rt, &with_bytes(rt.alloc(), line, i, &[])?)?;
        is_another(rt, &with_bytes(rt.alloc(), line, i, &[byte, byte])?)?;
    }
    Ok(())
}

#[test]
fn changed_lines_are_no_replies_or_others(rt: HostRuntime) -> Result<(), Fail> {
    for line in CHANGED {
        changes_are_others(&rt, line.as_bytes())?;
    }
    Ok(())
}
