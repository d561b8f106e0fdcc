//! The events that changes raise.
ghost use Rattle.std.specs.Prelude.{◌≡◌, ◌<◌, IfSome, length, slice_get};
ghost use Rattle.pm_model.specs.Events.{barred_in, done_to, names_in, raised, watched_by, word_to_create};
ghost use Rattle.pm_model.specs.Formed.{IsLive, IsNamed};
ghost use Rattle.pm_model.specs.Words.{word_text};
ghost use Rattle.pm_pattern.specs.Live.{IsEventLive};
ghost use Rattle.pm_runner.specs.Standing.{ArePatternsLive};
ghost use Rattle.pm_state.specs.Containing.{relation_in};

use crate::capabilities::{PM, subject_element};
use crate::obliging::target_element;
use pm_model::{Bars, Change, ElementId, Event, EventNames, Kind, Name, Word};
use pm_state::Graph;

fn word_to_create(kind: Kind) -> Word
    ensures { result ≡ word_to_create kind }
{
    match kind {
        Kind::User => Word::CreateUser,
        Kind::Ua => Word::CreateUa,
        Kind::Oa => Word::CreateOa,
        Kind::Object => Word::CreateObject,
        Kind::Pc => Word::CreatePc,
    }
}

// The word as a name.
#[tactic(auto, using(crate::proofs::WordNames::word_is_name))]
fn word_name(word: Word) -> Name
    ensures { result ≡ word_text word }
{
    Name::new(word.text().as_bytes()).unwrap()
}

// The element that the prohibition at a place is about.
fn barred(graph: &Graph, index: u32) -> ElementId
    requires { index < length graph.now.prohibitions }
    ensures value { result ≡ barred_in graph.now (slice_get graph.now.prohibitions index) }
    ensures live { IsLive graph.now.elements result }
{
    graph.formed();
    let item = graph.deny().at(index as usize);
    subject_element(graph, item.subject)
}

// The element that the obligation at a place watches.
fn watched(graph: &Graph, index: u32) -> ElementId
    requires { index < length graph.now.obligations }
    ensures value { result ≡ watched_by (slice_get graph.now.obligations index) }
    ensures live { IsLive graph.now.elements result }
{
    graph.formed();
    let item = graph.obligations().at(index as usize);
    target_element(graph, item.pattern.target)
}

// The command's word, and the element that it is done to.
fn done_to(graph: &Graph, change: &Change) -> Option<(Word, ElementId)>
    requires { IsNamed graph.now change.now }
    ensures value { result ≡ done_to graph.now change.now }
    ensures live { IfSome result (λ done. IsLive graph.now.elements done.1) }
{
    graph.formed();
    match change {
        Change::Create {
            kind,
            into: Some(into),
            ..
        } => Some((word_to_create(*kind), *into)),
        Change::Create {
            kind,
            into: None,
            ..
        } => Some((word_to_create(*kind), PM)),
        Change::Delete { id } => Some((Word::Delete, *id)),
        Change::Assign { to, .. } => Some((Word::Assign, *to)),
        Change::Deassign { to, .. } => Some((Word::Deassign, *to)),
        Change::Associate { at, .. } => Some((Word::Associate, *at)),
        Change::Dissociate { at, .. } => Some((Word::Dissociate, *at)),
        Change::Prohibit { item } => Some((Word::Prohibit, subject_element(graph, item.subject))),
        Change::Lift { index } => Some((Word::Lift, barred(graph, *index))),
        Change::Oblige { item } => Some((Word::Oblige, target_element(graph, item.pattern.target))),
        Change::Withdraw { index } => Some((Word::Withdraw, watched(graph, *index))),
        Change::DefineRight { .. } => Some((Word::DefineRight, PM)),
        Change::OpenSession { .. }
        | Change::CloseSession { .. }
        | Change::StartProcess { .. }
        | Change::EndProcess { .. }
        | Change::Keep { .. }
        | Change::DropReview { .. } => None,
    }
}

/// The event that the change raises, where the user makes it by the process: told of the element that
/// the command is done to, before it is. None exactly where a session, a process or a kept review comes or
/// goes.
pub fn raised(graph: &Graph, user: ElementId, process: u32, change: &Change) -> Option<Event>
    requires user { IsLive graph.now.elements user }
    requires named { IsNamed graph.now change.now }
    ensures value { result ≡ raised graph.now user process change.now }
    ensures live { IfSome result (IsEventLive (relation_in graph.now)) }
{
    match done_to(graph, change) {
        None => None,
        Some((word, target)) => Some(Event {
            user,
            process,
            operation: word_name(word),
            target,
        }),
    }
}

/// What the event's user and target are called in this graph.
pub fn names_in(graph: &Graph, event: &Event) -> EventNames
    requires { IsEventLive (relation_in graph.now) event.now }
    ensures { result ≡ names_in graph.now event.now }
{
    let elements = graph.elements();
    EventNames {
        user: elements.name(event.user),
        target: elements.name(event.target),
        process: event.process,
    }
}

/// Does nothing. Its contract is what lets the graph's obligations be asked whether they match an event:
/// what their patterns give is live.
pub fn patterns_live(graph: &Graph)
    ensures { ArePatternsLive (relation_in graph.now) graph.now.obligations }
{
    graph.formed();
}
