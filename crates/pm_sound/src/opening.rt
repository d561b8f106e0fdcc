//! The elements of the opening, with those of a document behind them, and its assignments.

ghost use Rattle.std.specs.Prelude.{◌≡◌, true, IfOk};
ghost use Rattle.pm_model.specs.Name.{is_name};
ghost use Rattle.pm_policy.specs.Policy.{assignment, doc_element, standing};

use pm_model::{Kind, Memory, Name};
use pm_policy::{DocAssignment, DocElement};
use std::alloc::Global;

fn name(text: &str) -> Name
    requires { is_name text.now ≡ true }
    ensures { result ≡ text.now }
{
    Name::new(text.as_bytes()).unwrap()
}

fn element(kind: Kind, text: &str) -> DocElement
    requires { is_name text.now ≡ true }
    ensures { result ≡ doc_element kind text.now }
{
    DocElement {
        kind,
        name: name(text),
    }
}

/// An assignment of the opening.
pub(crate) fn assignment(from: &str, to: &str) -> DocAssignment
    requires from { is_name from.now ≡ true }
    requires to { is_name to.now ≡ true }
    ensures { result ≡ assignment from.now to.now }
{
    DocAssignment {
        from: name(from),
        to: name(to),
    }
}

/// The opening's elements and these behind them.
pub(crate) fn all_elements(
    alloc: Global,
    elements: &[DocElement],
) -> Result<Vec<DocElement>, Memory>
    ensures { IfOk result (λ all. all.items ≡ standing elements.now) }
{
    let mut all = Vec::new(alloc);
    all.push(element(Kind::Pc, "pm"))?;
    all.push(element(Kind::Ua, "pm_admins"))?;
    all.push(element(Kind::User, "root"))?;
    all.extend_from_slice(elements)?;
    Ok(all)
}
