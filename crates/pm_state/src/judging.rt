//! The rights of users on elements, as a graph has them.
ghost use Rattle.std.specs.Prelude.{◌≡◌, ◌<◌, ◌≤◌, ◌*◌, ℕ, length, IfOk};
ghost use Rattle.pm_model.specs.Containment.{contained};
ghost use Rattle.pm_model.specs.Decision.{associations_of};
ghost use Rattle.pm_model.specs.Formed.{IsLive};
ghost use Rattle.pm_model.specs.Reviews.{rights_in};
ghost use Rattle.pm_model.specs.State.{classes_in};
ghost use Rattle.pm_given.specs.Held.{IsKnown, IsKnownOn};
ghost use Rattle.pm_given.specs.Told.{IsRight};

use crate::graph::Graph;
use pm_assoc::Assoc;
use pm_decide::rights_of;
use pm_given::{Given, HeldOn};
use pm_model::{ElementId, Judge, Memory, Rights};

// The rights of a user on an element. It takes no memory.
fn rights_in(graph: &Graph, user: ElementId, element: ElementId) -> Rights
    requires user { IsLive graph.now.elements user }
    requires element { IsLive graph.now.elements element }
    ensures { result ≡ rights_in graph.now user element }
{
    let mut reach = graph.reach();
    let assoc = graph.assoc();
    let deny = graph.deny();
    let classes = graph.classes();
    graph.formed();
    assoc.kept();
    rights_of(&mut reach, assoc, deny, classes, user, element)
}

/// The judge by a graph's own associations and prohibitions.
#[derive(Drop)]
pub struct GraphJudge<'a> {
    graph: &'a Graph,
    asked: u64,
}

impl<'a> GraphJudge<'a> {
    /// The judge, who was asked nothing yet.
    pub fn new(graph: &'a Graph) -> GraphJudge<'a>
        ensures graph { result.graph.now ≡ graph.now }
        ensures asked { result.asked ≡ 0 }
    {
        GraphJudge { graph, asked: 0 }
    }

    /// What it answers, for many who ask at once: it counts no question.
    pub fn rights(&self, user: ElementId, element: ElementId) -> Rights
        requires user { IsLive self.now.graph.now.elements user }
        requires element { IsLive self.now.graph.now.elements element }
        ensures { result ≡ rights_in self.now.graph.now user element }
    {
        rights_in(self.graph, user, element)
    }
}

impl<'a> Judge for GraphJudge<'a> {
    ghost use Rattle.pm_state.specs.Judging.{judgement_in};

    ghost judgement = { λ j. judgement_in j.graph.now };

    ghost asked = { λ j. j.asked };

    fn judge(&mut self, user: ElementId, element: ElementId) -> Rights {
        self.asked += 1;
        self.rights(user, element)
    }
}

/// How many words of 64 numbers it takes to tell of each live element.
fn words(graph: &Graph) -> u32
    ensures fits { (x : ℕ) → IsLive graph.now.elements x → x < 64 * result }
    ensures few { result ≤ 256 }
{
    let elements = graph.elements();
    let mut words = 0;
    while let Some(id) = elements.next(64 * words) {
        words = id.number() / 64 + 1;
    }
    words
}

/// The judge by a graph's own associations and prohibitions, for who asks about one user after another: what a user is given is
/// found once for all elements. It borrows the graph as long as it stands, so no change comes between.
pub(crate) struct UserJudge<'a> {
    graph: &'a Graph,
    assoc: &'a Assoc,
    given: Given,
    asked: u64,
    ghost own: { associations_of assoc.now.grantees ≡ graph.now.associations },
    ghost fits: { (x : ℕ) → IsLive graph.now.elements x → x < 64 * length given.marks },
    ghost right: { IsRight (contained graph.now.assigned) assoc.now.grantees given },
    ghost known: { IsKnown (contained graph.now.assigned) assoc.now.grantees (classes_in graph.now.elements) given },
}

impl<'a> Drop for UserJudge<'a> {
    fn drop(self) {
        let UserJudge {
            graph: _,
            assoc: _,
            given: _,
            asked: _,
        } = self;
    }
}

impl<'a> UserJudge<'a> {
    /// The judge, who was asked nothing yet. It takes 261 bytes for each 16 numbers up to that of the last live element.
    pub(crate) fn new(graph: &'a Graph) -> Result<UserJudge<'a>, Memory>
        ensures graph { IfOk result (λ j. j.graph.now ≡ graph.now) }
        ensures asked { IfOk result (λ j. j.asked ≡ 0) }
    {
        let given = Given::new(graph.classes().allocator(), words(graph))?;
        Ok(UserJudge {
            graph,
            assoc: graph.assoc(),
            given,
            asked: 0,
        })
    }

    /// The rights of a user on an element. It takes no memory.
    fn rights(&mut self, user: ElementId, element: ElementId) -> Rights
        requires user { IsLive self.old.graph.now.elements user }
        requires element { IsLive self.old.graph.now.elements element }
        ensures answer { result ≡ rights_in self.old.graph.now user element }
        ensures graph { self.new.graph.now ≡ self.old.graph.now }
        ensures asked { self.new.asked ≡ self.old.asked }
    {
        let mut reach = self.graph.reach();
        let parents = self.graph.elements();
        let deny = self.graph.deny();
        let classes = self.graph.classes();
        self.graph.formed();
        self.assoc.kept();
        self.given.rights(
            &mut reach, parents, self.assoc, deny, classes, user, element,
        )
    }
}

impl<'a> Judge for UserJudge<'a> {
    ghost use Rattle.pm_state.specs.Judging.{judgement_in};

    ghost judgement = { λ j. judgement_in j.graph.now };

    ghost asked = { λ j. j.asked };

    fn judge(&mut self, user: ElementId, element: ElementId) -> Rights {
        self.asked += 1;
        self.rights(user, element)
    }
}

/// The judge by a graph's own associations and prohibitions, for who asks about many users on one element after another: what
/// users with one container have is found once for all that share it. It borrows the graph as long as it stands, so no change
/// comes between.
pub(crate) struct ElementJudge<'a> {
    graph: &'a Graph,
    assoc: &'a Assoc,
    held: HeldOn,
    asked: u64,
    ghost own: { associations_of assoc.now.grantees ≡ graph.now.associations },
    ghost fits: { (x : ℕ) → IsLive graph.now.elements x → x < 64 * length held.known },
    ghost known: { IsKnownOn (contained graph.now.assigned) assoc.now.grantees (classes_in graph.now.elements) held },
}

impl<'a> Drop for ElementJudge<'a> {
    fn drop(self) {
        let ElementJudge {
            graph: _,
            assoc: _,
            held: _,
            asked: _,
        } = self;
    }
}

impl<'a> ElementJudge<'a> {
    /// The judge, who was asked nothing yet. It takes 65 bytes for each 8 numbers up to that of the last live element.
    pub(crate) fn new(graph: &'a Graph) -> Result<ElementJudge<'a>, Memory>
        ensures graph { IfOk result (λ j. j.graph.now ≡ graph.now) }
        ensures asked { IfOk result (λ j. j.asked ≡ 0) }
    {
        let held = HeldOn::new(graph.classes().allocator(), words(graph))?;
        Ok(ElementJudge {
            graph,
            assoc: graph.assoc(),
            held,
            asked: 0,
        })
    }

    /// The rights of a user on an element. It takes no memory.
    fn rights(&mut self, user: ElementId, element: ElementId) -> Rights
        requires user { IsLive self.old.graph.now.elements user }
        requires element { IsLive self.old.graph.now.elements element }
        ensures answer { result ≡ rights_in self.old.graph.now user element }
        ensures graph { self.new.graph.now ≡ self.old.graph.now }
        ensures asked { self.new.asked ≡ self.old.asked }
    {
        let mut reach = self.graph.reach();
        let parents = self.graph.elements();
        let deny = self.graph.deny();
        let classes = self.graph.classes();
        self.graph.formed();
        self.assoc.kept();
        self.held.rights(
            &mut reach, parents, self.assoc, deny, classes, user, element,
        )
    }
}

impl<'a> Judge for ElementJudge<'a> {
    ghost use Rattle.pm_state.specs.Judging.{judgement_in};

    ghost judgement = { λ j. judgement_in j.graph.now };

    ghost asked = { λ j. j.asked };

    fn judge(&mut self, user: ElementId, element: ElementId) -> Rights {
        self.asked += 1;
        self.rights(user, element)
    }
}
