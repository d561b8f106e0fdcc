//! Documents, and the lines that make them.
use pm_document::{Document, read_document};
use pm_making::request_lines;
use std::alloc::Global;
use std::test::Fail;

// A document, and its lines.
static MADE: &[(&str, &str)] = &[
    (
        r#"{"rights":[],"elements":[],"assignments":[],"associations":[],"prohibitions":[]}"#,
        "",
    ),
    (
        r#"{"assignments":[["ann","staff"],["bob","staff"],["docs","files"],["memo","docs"],["staff","files"]],"associations":[["staff",["read"],"docs"]],"elements":[["user","ann"],["user","bob"],["oa","docs"],["pc","files"],["object","memo"],["ua","staff"]],"prohibitions":[],"rights":[]}"#,
        r#"{"cmd":"create_pc","name":"files","proc":0}
{"cmd":"create_oa","into":"files","name":"docs","proc":0}
{"cmd":"create_object","into":"docs","name":"memo","proc":0}
{"cmd":"create_ua","into":"files","name":"staff","proc":0}
{"cmd":"create_user","into":"staff","name":"ann","proc":0}
{"cmd":"create_user","into":"staff","name":"bob","proc":0}
{"at":"docs","cmd":"associate","proc":0,"rights":["read"],"ua":"staff"}
"#,
    ),
    // Names go by their bytes, not by their lengths.
    (
        r#"{"rights":["z","a"],"elements":[["pc","b"],["pc","aa"],["pc","B"],["pc","a"],["pc","a.b"],["pc","a-b"]],"assignments":[],"associations":[],"prohibitions":[]}"#,
        r#"{"cmd":"define_right","name":"z","proc":0}
{"cmd":"define_right","name":"a","proc":0}
{"cmd":"create_pc","name":"B","proc":0}
{"cmd":"create_pc","name":"a","proc":0}
{"cmd":"create_pc","name":"a-b","proc":0}
{"cmd":"create_pc","name":"a.b","proc":0}
{"cmd":"create_pc","name":"aa","proc":0}
{"cmd":"create_pc","name":"b","proc":0}
"#,
    ),
    // Second containers, an element of the opening in one of the document, and rules in their order.
    (
        r#"{"rights":["approve"],"elements":[["pc","z"],["ua","b"],["ua","a"],["oa","d"],["user","u"],["object","o"]],"assignments":[["u","b"],["u","a"],["b","a"],["a","z"],["d","z"],["o","d"],["pm_admins","a"]],"associations":[["b",["write","read","approve"],"d"],["a",["read"],"o"],["b",["read"],"b"]],"prohibitions":[{"exc":["d"],"inc":[],"mode":"any","name":"p2","rights":["write","read"],"subject":{"ua":"b"}},{"exc":[],"inc":["o","d","o"],"mode":"all","name":"p1","rights":["read"],"subject":{"user":"u"}}]}"#,
        r#"{"cmd":"define_right","name":"approve","proc":0}
{"cmd":"create_pc","name":"z","proc":0}
{"cmd":"create_ua","into":"z","name":"a","proc":0}
{"cmd":"create_ua","into":"a","name":"b","proc":0}
{"cmd":"create_oa","into":"z","name":"d","proc":0}
{"cmd":"create_object","into":"d","name":"o","proc":0}
{"cmd":"create_user","into":"a","name":"u","proc":0}
{"cmd":"assign","from":"pm_admins","proc":0,"to":"a"}
{"cmd":"assign","from":"u","proc":0,"to":"b"}
{"at":"o","cmd":"associate","proc":0,"rights":["read"],"ua":"a"}
{"at":"b","cmd":"associate","proc":0,"rights":["read"],"ua":"b"}
{"at":"d","cmd":"associate","proc":0,"rights":["write","read","approve"],"ua":"b"}
{"cmd":"prohibit","exc":["d"],"inc":[],"mode":"any","name":"p2","proc":0,"rights":["write","read"],"subject":{"ua":"b"}}
{"cmd":"prohibit","exc":[],"inc":["o","d","o"],"mode":"all","name":"p1","proc":0,"rights":["read"],"subject":{"user":"u"}}
"#,
    ),
];

fn made(alloc: Global, document: &Document) -> Result<Vec<u8>, Fail> {
    let mut lines = Vec::new(alloc);
    request_lines(document.policy(), &mut lines)?;
    Ok(lines)
}

#[test]
fn documents_are_made(rt: HostRuntime) -> Result<(), Fail> {
    for (text, lines) in MADE {
        let document = read_document(rt.alloc(), text.as_bytes())?;
        let written = made(rt.alloc(), &document)?;
        let told = str::from_utf8(written.as_slice())?;
        assert_eq!(rt; told, *lines, "{text}");
    }
    Ok(())
}
