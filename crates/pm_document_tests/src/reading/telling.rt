//! What a document has, in words: each item with a semicolon behind.
use pm_model::{Name, NameList, Subject};
use pm_policy::{DocAssociation, DocProhibition, Policy};
use std::alloc::{AllocError, Global};

fn shown(name: &Name) -> &str {
    str::from_utf8(name.bytes()).unwrap_or("?")
}

// The names, each with a comma behind.
fn names_told(alloc: Global, names: &NameList) -> Result<String, AllocError> {
    let mut told = String::new(alloc);
    for name in names.as_slice() {
        told.push_str(shown(name))?;
        told.push_str(",")?;
    }
    Ok(told)
}

fn association_told(alloc: Global, a: &DocAssociation) -> Result<String, AllocError> {
    let rights = names_told(alloc, &a.rights)?;
    format!(in alloc; "{} {rights} {};", shown(&a.ua), shown(&a.at))
}

fn subject_told(alloc: Global, subject: &Subject<Name, u32>) -> Result<String, AllocError> {
    match subject {
        Subject::User(user) => format!(in alloc; "user {}", shown(user)),
        Subject::Ua(ua) => format!(in alloc; "ua {}", shown(ua)),
        Subject::Process(process) => format!(in alloc; "process {process}"),
    }
}

fn prohibition_told(alloc: Global, p: &DocProhibition) -> Result<String, AllocError> {
    let subject = subject_told(alloc, &p.subject)?;
    let rights = names_told(alloc, &p.rights)?;
    let (inc, exc) = (names_told(alloc, &p.inc)?, names_told(alloc, &p.exc)?);
    let (name, mode) = (shown(&p.name), p.mode);
    format!(in alloc; "{name} {subject} {rights} {mode:?} {inc} {exc};")
}

fn elements_told(alloc: Global, policy: &Policy) -> Result<String, AllocError> {
    let mut told = String::new(alloc);
    for element in policy.elements.as_slice() {
        let item = format!(in alloc; "{:?} {};", element.kind, shown(&element.name))?;
        told.push_str(item.as_str())?;
    }
    for assignment in policy.assignments.as_slice() {
        let item = format!(in alloc; "{} {};", shown(&assignment.from), shown(&assignment.to))?;
        told.push_str(item.as_str())?;
    }
    Ok(told)
}

fn rules_told(alloc: Global, policy: &Policy) -> Result<String, AllocError> {
    let mut told = String::new(alloc);
    for association in policy.associations.as_slice() {
        told.push_str(association_told(alloc, association)?.as_str())?;
    }
    for prohibition in policy.prohibitions.as_slice() {
        told.push_str(prohibition_told(alloc, prohibition)?.as_str())?;
    }
    Ok(told)
}

/// The rights, and then the items of the other lists.
pub fn policy_told(alloc: Global, policy: &Policy) -> Result<String, AllocError> {
    let rights = names_told(alloc, &policy.rights)?;
    let elements = elements_told(alloc, policy)?;
    let rules = rules_told(alloc, policy)?;
    format!(in alloc; "{rights} {elements}{rules}")
}
