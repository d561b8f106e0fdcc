//! Texts, and what they say as documents.
mod telling;

use pm_document::{DocumentError, read_policy};
use std::alloc::Global;
use std::process::Abort;
use std::test::Fail;
use telling::policy_told;

// A document, and what it has.
static READ: &[(&str, &str)] = &[
    (
        r#"{"rights":[],"elements":[],"assignments":[],"associations":[],"prohibitions":[]}"#,
        " ",
    ),
    (
        r#"{"prohibitions":[],"associations":[],"assignments":[],"elements":[],"rights":["read","a","a"],"note":1}"#,
        "read,a,a, ",
    ),
    (
        r#"{"rights":[],"elements":[["user","ann"],["ua","staff"],["object","memo"],["oa","docs"],["pc","files"],["pc","files"]],"assignments":[["ann","staff"],["x","y"]],"associations":[],"prohibitions":[]}"#,
        " User ann;Ua staff;Object memo;Oa docs;Pc files;Pc files;ann staff;x y;",
    ),
    (
        r#"{"rights":[],"elements":[],"assignments":[],"associations":[["staff",["w","r","w"],"docs"]],"prohibitions":[{"exc":["b","a","b"],"inc":[],"mode":"any","name":"p","rights":["r","r"],"subject":{"ua":"staff"}}]}"#,
        " staff w,r, docs;p ua staff r, Any  b,a,b,;",
    ),
    (
        r#"{"rights":[],"rights":["z"],"elements":[],"assignments":[],"associations":[],"prohibitions":[{"exc":[],"inc":["a"],"mode":"all","name":"p","rights":["r"],"subject":{"user":"ann","of":1}}]}"#,
        "z, p user ann r, All a, ;",
    ),
];

// Texts that are no documents.
static OTHERS: &[&str] = &[
    "",
    "{}",
    "[]",
    "null",
    r#"{"rights":[],"elements":[],"assignments":[],"associations":[],"prohibitions":[]} x"#,
    r#"{"rights":[],"elements":[],"assignments":[],"associations":[]}"#,
    r#"{"rights":[],"elements":[],"assignments":[],"associations":[],"prohibitions":{}}"#,
    r#"{"rights":[""],"elements":[],"assignments":[],"associations":[],"prohibitions":[]}"#,
    r#"{"rights":[1],"elements":[],"assignments":[],"associations":[],"prohibitions":[]}"#,
    r#"{"rights":[],"elements":[["group","a"]],"assignments":[],"associations":[],"prohibitions":[]}"#,
    r#"{"rights":[],"elements":[["ua"]],"assignments":[],"associations":[],"prohibitions":[]}"#,
    r#"{"rights":[],"elements":[["ua","a","b"]],"assignments":[],"associations":[],"prohibitions":[]}"#,
    r#"{"rights":[],"elements":[],"assignments":[["a","b c"]],"associations":[],"prohibitions":[]}"#,
    r#"{"rights":[],"elements":[],"assignments":[],"associations":[["a",[],"b"]],"prohibitions":[]}"#,
    r#"{"rights":[],"elements":[],"assignments":[],"associations":[["a",["r"]]],"prohibitions":[]}"#,
    r#"{"rights":[],"elements":[],"assignments":[],"associations":[],"prohibitions":[{"exc":[],"inc":["a"],"mode":"some","name":"p","rights":["r"],"subject":{"user":"ann"}}]}"#,
    r#"{"rights":[],"elements":[],"assignments":[],"associations":[],"prohibitions":[{"exc":[],"inc":["a"],"mode":"all","name":"p","rights":["r"],"subject":{"user":"ann","ua":"a"}}]}"#,
    r#"{"rights":[],"elements":[],"assignments":[],"associations":[],"prohibitions":[{"inc":["a"],"mode":"all","name":"p","rights":["r"],"subject":{"user":"ann"}}]}"#,
];

#[test]
fn documents_are_read(rt: HostRuntime) -> Result<(), Fail> {
    for (text, told) in READ {
        let policy = read_policy(rt.alloc(), text.as_bytes())?;
        let said = policy_told(rt.alloc(), &policy)?;
        assert_eq!(rt; said.as_str(), *told, "{text}");
    }
    Ok(())
}

// Whether the text is told to be no document.
fn refuses(alloc: Global, text: &str) -> bool {
    matches!(
        read_policy(alloc, text.as_bytes()),
        Err(DocumentError::Refused)
    )
}

#[test]
fn other_texts_are_refused(rt: HostRuntime) -> Result<(), Fail> {
    for text in OTHERS {
        assert!(rt; refuses(rt.alloc(), text), "{text}");
    }
    Ok(())
}

// A document in which an item stands that may be repeated 31 times, and not once more.
static LIMITS: &[&str] = &[
    r#"{"rights":[],"elements":[],"assignments":[],"associations":[["a",["r"~,"r"~],"b"]],"prohibitions":[]}"#,
    r#"{"rights":[],"elements":[],"assignments":[],"associations":[],"prohibitions":[{"exc":[],"inc":["a"~,"a"~],"mode":"all","name":"p","rights":["r"],"subject":{"user":"ann"}}]}"#,
    r#"{"rights":[],"elements":[],"assignments":[],"associations":[],"prohibitions":[{"exc":["a"~,"a"~],"inc":[],"mode":"all","name":"p","rights":["r"],"subject":{"user":"ann"}}]}"#,
    r#"{"rights":[],"elements":[],"assignments":[],"associations":[],"prohibitions":[{"exc":[],"inc":["a"],"mode":"all","name":"p","rights":["r"~,"r"~],"subject":{"user":"ann"}}]}"#,
];

fn stands(rt: &(impl Abort + Alloc<A = Global>), row: &str) -> Result<(), Fail> {
    let (before, rest) = row.split_once("~").ok_or("an item")?;
    let (item, behind) = rest.split_once("~").ok_or("an item")?;
    let items = item.repeat(rt.alloc(), 31)?;
    let most = format!(in rt.alloc(); "{before}{items}{behind}")?;
    assert!(rt; read_policy(rt.alloc(), most.as_bytes()).is_ok(), "{most}");
    let more = format!(in rt.alloc(); "{before}{items}{item}{behind}")?;
    assert!(rt; refuses(rt.alloc(), more.as_str()), "{more}");
    Ok(())
}

#[test]
fn limits_stand(rt: HostRuntime) -> Result<(), Fail> {
    for row in LIMITS {
        stands(&rt, row)?;
    }
    Ok(())
}
