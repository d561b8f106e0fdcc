//! The capabilities that a change asks for: the first that is denied.
ghost use Rattle.std.specs.Prelude.{◌≡◌, ◌<◌, [], ◌∷◌, map};
ghost use Rattle.pm_model.specs.declared.elements.Kind.{Kind};
ghost use Rattle.pm_model.specs.declared.requests.Change.TheVariants as change;
ghost use Rattle.pm_model.specs.Authority.{first_denied, required, right_name, right_to_create, subject_element};
ghost use Rattle.pm_model.specs.Formed.{Each, IsLive, IsSubjectLive};
ghost use Rattle.pm_admin.specs.Resolved.{IsFound};

use crate::denials::denial;
use crate::keeping::{denied_drop, denied_keep};
use crate::obliging::{denied_oblige, denied_withdraw};
use pm_model::{Bars, Change, ElementId, Kind, Name, PlaceList, Prohibition, Refusal, Subject};
use pm_state::Graph;

const TO_DELETE: u8 = 6;

const TO_PROHIBIT: u8 = 13;

const TO_PROHIBIT_TO: u8 = 14;

// The rights that a change of a pair asks for: that on the first element and that on the second.
const ASSIGN: (u8, u8) = (7, 8);

const DEASSIGN: (u8, u8) = (9, 10);

const ASSOCIATE: (u8, u8) = (11, 12);

// The policy class of the opening, on which what has no container is asked for.
pub(crate) const PM: ElementId = ElementId(0);

fn right_to_create(kind: Kind) -> u8
    ensures value { result ≡ right_to_create kind }
    ensures below { result < 17 }
{
    match kind {
        Kind::User => 2,
        Kind::Ua | Kind::Pc => 3,
        Kind::Oa => 4,
        Kind::Object => 5,
    }
}

// The name of one of the opening's rights.
fn right_name(graph: &Graph, right: u8) -> Name
    requires { right < 17 }
    ensures { result ≡ right_name graph.now right }
{
    graph.formed();
    graph.right_name(right).unwrap()
}

pub(crate) fn denied(
    graph: &Graph,
    user: ElementId,
    process: Option<u32>,
    right: u8,
    element: ElementId,
) -> Option<Refusal>
    requires right { right < 17 }
    requires user { IsLive graph.now.elements user }
    requires element { IsLive graph.now.elements element }
    ensures { result ≡ first_denied graph.now user process ((right, element) ∷ []) }
{
    match denial(graph, user, process, right, element) {
        None => None,
        Some(reason) => Some(Refusal::Denied {
            right: right_name(graph, right),
            target: element,
            reason,
        }),
    }
}

pub(crate) fn denied_pair(
    graph: &Graph,
    user: ElementId,
    process: Option<u32>,
    rights: (u8, u8),
    x: ElementId,
    y: ElementId,
) -> Option<Refusal>
    requires first { rights.0 < 17 }
    requires second { rights.1 < 17 }
    requires user { IsLive graph.now.elements user }
    requires x { IsLive graph.now.elements x }
    requires y { IsLive graph.now.elements y }
    ensures { result ≡ first_denied graph.now user process ((rights.0, x) ∷ (rights.1, y) ∷ []) }
{
    match denied(graph, user, process, rights.0, x) {
        Some(why) => Some(why),
        None => denied(graph, user, process, rights.1, y),
    }
}

// The same right on each of the elements, in their order.
pub(crate) fn denied_on(
    graph: &Graph,
    user: ElementId,
    process: Option<u32>,
    right: u8,
    places: &PlaceList,
) -> Option<Refusal>
    requires right { right < 17 }
    requires user { IsLive graph.now.elements user }
    requires places { Each (IsLive graph.now.elements) places.now }
    ensures { result ≡ first_denied graph.now user process (map (λ a. (right, a)) places.now) }
{
    for i in 0..places.len() {
        match denied(graph, user, process, right, *places.at(i)) {
            Some(why) => return Some(why),
            None => {}
        }
    }
    None
}

// The element that the subject means; where it is a process, the user for whom it acts.
pub(crate) fn subject_element(graph: &Graph, subject: Subject<ElementId, u32>) -> ElementId
    requires { IsSubjectLive graph.now.elements graph.now.procs subject }
    ensures value { result ≡ subject_element graph.now subject }
    ensures live { IsLive graph.now.elements result }
{
    graph.formed();
    match subject {
        Subject::User(id) => id,
        Subject::Ua(id) => id,
        Subject::Process(process) => match graph.procs().user_of(process) {
            Some(user) => user,
            None => PM,
        },
    }
}

fn denied_prohibit(
    graph: &Graph,
    user: ElementId,
    process: Option<u32>,
    item: &Prohibition,
) -> Option<Refusal>
    requires user { IsLive graph.now.elements user }
    requires found { IsFound graph.now (change.Prohibit item.now) }
    ensures { result ≡ first_denied graph.now user process (required graph.now (change.Prohibit item.now)) }
{
    let subject = subject_element(graph, item.subject);
    match denied(graph, user, process, TO_PROHIBIT, subject) {
        Some(why) => return Some(why),
        None => {}
    }
    match denied_on(graph, user, process, TO_PROHIBIT_TO, &item.inc) {
        Some(why) => return Some(why),
        None => {}
    }
    denied_on(graph, user, process, TO_PROHIBIT_TO, &item.exc)
}

fn denied_lift(graph: &Graph, user: ElementId, process: Option<u32>, index: u32) -> Option<Refusal>
    requires user { IsLive graph.now.elements user }
    requires found { IsFound graph.now (change.Lift index) }
    ensures { result ≡ first_denied graph.now user process (required graph.now (change.Lift index)) }
{
    graph.formed();
    let item = graph.deny().at(index as usize);
    let subject = subject_element(graph, item.subject);
    denied(graph, user, process, TO_PROHIBIT, subject)
}

/// The refusal of the first capability that the change asks for and the user and the process haven't.
pub(crate) fn denied_change(
    graph: &Graph,
    user: ElementId,
    process: Option<u32>,
    change: &Change,
) -> Option<Refusal>
    requires user { IsLive graph.now.elements user }
    requires found { IsFound graph.now change.now }
    ensures { result ≡ first_denied graph.now user process (required graph.now change.now) }
{
    graph.formed();
    match change {
        Change::Create {
            kind,
            into: Some(into),
            ..
        } => denied(graph, user, process, right_to_create(*kind), *into),
        Change::Create {
            kind,
            into: None,
            ..
        } => denied(graph, user, process, right_to_create(*kind), PM),
        Change::Delete { id } => denied(graph, user, process, TO_DELETE, *id),
        Change::Assign { from, to } => denied_pair(graph, user, process, ASSIGN, *from, *to),
        Change::Deassign { from, to } => denied_pair(graph, user, process, DEASSIGN, *from, *to),
        Change::Associate { ua, at, .. } => denied_pair(graph, user, process, ASSOCIATE, *ua, *at),
        Change::Dissociate { ua, at } => denied_pair(graph, user, process, ASSOCIATE, *ua, *at),
        Change::Prohibit { item } => denied_prohibit(graph, user, process, item),
        Change::Lift { index } => denied_lift(graph, user, process, *index),
        Change::Oblige { item } => denied_oblige(graph, user, process, item),
        Change::Withdraw { index } => denied_withdraw(graph, user, process, *index),
        Change::DefineRight { .. } => {
            denied(graph, user, process, right_to_create(Kind::Pc), PM)
        }
        Change::Keep { of } => denied_keep(graph, user, process, *of),
        Change::DropReview { review } => denied_drop(graph, user, process, *review),
        Change::OpenSession { .. }
        | Change::CloseSession { .. }
        | Change::StartProcess { .. }
        | Change::EndProcess { .. } => None,
    }
}
