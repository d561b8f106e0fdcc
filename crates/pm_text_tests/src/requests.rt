//! Requests, and their lines: what was printed is read as what it was printed from.
use pm_model::What;
use pm_print::print_request;
use pm_read::read_request;
use std::alloc::Global;
use std::process::Abort;
use std::test::Fail;

// A line of each kind, as it is printed. `after` may stand at `<`, and the id at `>`.
static REQUESTS: &[&str] = &[
    r#"{<"cmd":"version">}"#,
    r#"{<"cmd":"open_session">,"user":"ann"}"#,
    r#"{<"cmd":"close_session">,"session":4294967295}"#,
    r#"{<"cmd":"start_process">,"session":0}"#,
    r#"{<"cmd":"end_process">,"process":2}"#,
    r#"{<"cmd":"create_pc">,"name":"Az09_-.","proc":0}"#,
    r#"{<"cmd":"create_user">,"into":"staff","name":"ann","proc":1}"#,
    r#"{<"cmd":"create_ua">,"into":"files","name":"staff","proc":1}"#,
    r#"{<"cmd":"create_oa">,"into":"files","name":"docs","proc":1}"#,
    r#"{<"cmd":"create_object">,"into":"docs","name":"memo","proc":1}"#,
    r#"{<"cmd":"delete">,"name":"memo","proc":0}"#,
    r#"{<"cmd":"assign","from":"ann">,"proc":0,"to":"staff"}"#,
    r#"{<"cmd":"deassign","from":"ann">,"proc":0,"to":"staff"}"#,
    r#"{<"at":"docs","cmd":"associate">,"proc":0,"rights":["write","read"],"ua":"staff"}"#,
    r#"{<"at":"docs","cmd":"dissociate">,"proc":0,"ua":"staff"}"#,
    r#"{<"cmd":"prohibit","exc":["b","a","b"]>,"inc":["docs"],"mode":"any","name":"p","proc":0,"rights":["read"],"subject":{"user":"ann"}}"#,
    r#"{<"cmd":"prohibit","exc":[]>,"inc":[],"mode":"all","name":"p","proc":0,"rights":["read"],"subject":{"ua":"staff"}}"#,
    r#"{<"cmd":"prohibit","exc":[]>,"inc":["docs"],"mode":"all","name":"p","proc":0,"rights":["read"],"subject":{"process":7}}"#,
    r#"{<"cmd":"lift">,"name":"p","proc":0}"#,
    r#"{<"cmd":"define_right">,"name":"sign","proc":0}"#,
    r#"{<"cmd":"oblige","do":[{"cmd":"lift","name":"p"},{"cmd":"lift","name":"a"}]>,"name":"o","proc":0,"when":{"on":"read"}}"#,
    r#"{<"cmd":"oblige","do":[{"cmd":"lift","name":"p"}]>,"name":"o","proc":0,"when":{"on":"read","target":"docs"}}"#,
    r#"{<"cmd":"oblige","do":[{"cmd":"lift","name":"p"}]>,"name":"o","proc":0,"when":{"on":"read","user":"ann"}}"#,
    r#"{<"cmd":"oblige","do":[{"cmd":"lift","name":"p"}]>,"name":"o","proc":0,"when":{"on":"read","target":"docs","user":"ann"}}"#,
    r#"{<"cmd":"withdraw">,"name":"o","proc":0}"#,
    r#"{<"cmd":"keep">,"kind":"caps","of":"ann","proc":0}"#,
    r#"{<"cmd":"keep">,"kind":"entries","of":"memo","proc":0}"#,
    r#"{<"cmd":"drop_review">,"proc":0,"review":255}"#,
    r#"{<"cmd":"access">,"proc":1,"right":"read","target":"memo"}"#,
    r#"{<"cmd":"caps">,"proc":0,"user":"ann"}"#,
    r#"{<"cmd":"entries","element":"memo">,"proc":0}"#,
    r#"{<"cmd":"survey">,"proc":0,"users":["root","ann","root"]}"#,
    r#"{<"cmd":"kept">,"proc":0,"review":0}"#,
    r#"{<"cmd":"changes">,"proc":0,"review":0}"#,
];

// What may stand at `<` and at `>`.
static HEADS: &[(&str, &str)] = &[
    ("", ""),
    ("", r#","id":0"#),
    (r#""after":18446744073709551615,"#, ""),
    (r#""after":0,"#, r#","id":18446744073709551615"#),
];

// The line asks for a request, which is printed so.
fn prints(rt: &(impl Abort + Alloc<A = Global>), line: &str, printed: &str) -> Result<(), Fail> {
    let asked = read_request(rt.alloc(), line.as_bytes())?;
    let What::Request(request) = &asked.what else {
        assert!(rt; false, "{line}");
        return Ok(());
    };
    let mut out = Vec::new(rt.alloc());
    print_request(asked.id, request, &mut out)?;
    let told = format!(in rt.alloc(); "{printed}\n")?;
    assert_eq!(rt; out.as_slice(), told.as_bytes(), "{line}");
    Ok(())
}

fn prints_itself(
    rt: &(impl Abort + Alloc<A = Global>),
    row: &str,
    after: &str,
    id: &str,
) -> Result<(), Fail> {
    let (before, rest) = row.split_once("<").ok_or("a place for `after`")?;
    let (middle, behind) = rest.split_once(">").ok_or("a place for the id")?;
    let line = format!(in rt.alloc(); "{before}{after}{middle}{id}{behind}")?;
    prints(rt, line.as_str(), line.as_str())
}

#[test]
fn requests_have_lines(rt: HostRuntime) -> Result<(), Fail> {
    for row in REQUESTS {
        for (after, id) in HEADS {
            prints_itself(&rt, row, after, id)?;
        }
    }
    Ok(())
}

// An action of each kind, in which guards may stand at `<`.
static ACTIONS: &[&str] = &[
    r#"{"cmd":"create_user"<,"into":"$target","name":"$fresh"}"#,
    r#"{"cmd":"create_ua"<,"into":"staff","name":"a"}"#,
    r#"{"cmd":"create_oa"<,"into":"docs","name":"a"}"#,
    r#"{"cmd":"create_object"<,"into":"$user","name":"a"}"#,
    r#"{"cmd":"delete"<,"name":"$target"}"#,
    r#"{"cmd":"assign","from":"$user"<,"to":"staff"}"#,
    r#"{"cmd":"deassign","from":"ann"<,"to":"$target"}"#,
    r#"{"at":"$target","cmd":"associate"<,"rights":["write","read"],"ua":"staff"}"#,
    r#"{"at":"docs","cmd":"dissociate"<,"ua":"$user"}"#,
    r#"{"cmd":"prohibit","exc":["$target","a"]<,"inc":[],"mode":"any","name":"$fresh","rights":["read"],"subject":{"process":"$process"}}"#,
    r#"{"cmd":"prohibit","exc":[]<,"inc":["a","$user"],"mode":"all","name":"p","rights":["read"],"subject":{"process":7}}"#,
    r#"{"cmd":"prohibit","exc":[]<,"inc":["a"],"mode":"all","name":"p","rights":["read"],"subject":{"user":"$user"}}"#,
    r#"{"cmd":"prohibit","exc":[]<,"inc":["a"],"mode":"all","name":"p","rights":["read"],"subject":{"ua":"staff"}}"#,
    r#"{"cmd":"lift"<,"name":"p"}"#,
];

static GUARDS: &[&str] = &[
    "",
    r#","if":[["in","$user","staff"]]"#,
    r#","if":[["not_in","ann","$target"],["in","ann","b"]]"#,
];

fn responds(rt: &(impl Abort + Alloc<A = Global>), action: &str, guards: &str) -> Result<(), Fail> {
    let (before, behind) = action.split_once("<").ok_or("a place for guards")?;
    let line = format!(in rt.alloc();
        r#"{{"cmd":"oblige","do":[{before}{guards}{behind}],"name":"o","proc":0,"when":{{"on":"read"}}}}"#
    )?;
    prints(rt, line.as_str(), line.as_str())
}

#[test]
fn actions_have_texts(rt: HostRuntime) -> Result<(), Fail> {
    for action in ACTIONS {
        for guards in GUARDS {
            responds(&rt, action, guards)?;
        }
    }
    Ok(())
}

// Lines that are spelt in another way, and how they are printed.
static OTHERWISE: &[&str] = &[
    "\t{\"\\u0063md\": \"version\", \"name\": 5}\r => {\"cmd\":\"version\"}",
    r#"{"cmd":"withdraw","name":"watch","obligation":0,"proc":3} => {"cmd":"withdraw","name":"watch","proc":3}"#,
    r#"{"process":1,"cmd":"start_process","session":2} => {"cmd":"start_process","session":2}"#,
    r#"{"process":2,"proc":1,"cmd":"end_process"} => {"cmd":"end_process","process":2}"#,
    r#"{"cmd":"prohibit","exc":0,"inc":["docs","docs"],"mode":"any","name":"p","proc":0,"rights":["read","write","read"],"subject":{"process":1,"user":"ann"},"subject":{"x":7,"ua":"staff"},"exc":["memo"]} => {"cmd":"prohibit","exc":["memo"],"inc":["docs","docs"],"mode":"any","name":"p","proc":0,"rights":["read","write"],"subject":{"ua":"staff"}}"#,
    r#"{"cmd":"oblige","do":[{"cmd":"create_object","into":"docs","name":"a","proc":-1},{"at":"$target","cmd":"associate","rights":["read","read"],"ua":"staff"}],"name":"o","proc":0,"when":{"on":"read"}} => {"cmd":"oblige","do":[{"cmd":"create_object","into":"docs","name":"a"},{"at":"$target","cmd":"associate","rights":["read"],"ua":"staff"}],"name":"o","proc":0,"when":{"on":"read"}}"#,
    "\t{\"proc\" : 0, \"\\u006eame\":\"\\u0061b\", \"extra\":[1.5e3], \"cmd\":\"create_pc\"}\r => {\"cmd\":\"create_pc\",\"name\":\"ab\",\"proc\":0}",
    r#"{"id":1,"cmd":"version","id":2,"proc":0} => {"cmd":"version","id":2}"#,
    r#"{"ua":"u","rights":["w","fly","w"],"proc":0,"cmd":"associate","at":"o"} => {"at":"o","cmd":"associate","proc":0,"rights":["w","fly"],"ua":"u"}"#,
    r#"{"when":{"user":"ann","on":"read","x":0},"proc":0,"name":"o","do":[{"name":"p","if":[],"cmd":"lift","proc":3}],"cmd":"oblige"} => {"cmd":"oblige","do":[{"cmd":"lift","name":"p"}],"name":"o","proc":0,"when":{"on":"read","user":"ann"}}"#,
];

#[test]
fn requests_have_one_spelling(rt: HostRuntime) -> Result<(), Fail> {
    for row in OTHERWISE {
        let (line, printed) = row.split_once(" => ").ok_or("a row")?;
        prints(&rt, line, printed)?;
    }
    Ok(())
}
