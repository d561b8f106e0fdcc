ghost use Rattle.std.specs.Prelude.{◌≡◌, ◌<◌, ℕ, IfSome, is_some, length, slice_get, slice_set, OnOk, OnErr, IfOk, IfErr, IsOk, None, Some, true};
ghost use Rattle.pm_model.specs.State.{element_at, opening, classes_in};
ghost use Rattle.pm_model.specs.Decision.{associations_of};
ghost use Rattle.pm_model.specs.Effect.{refusal, effect, IsCause};
ghost use Rattle.pm_model.specs.Formed.{IsWellFormed, IsNamed};
ghost use Rattle.pm_model.specs.KeptReviews.{KeptReview};
ghost use Rattle.pm_model.specs.Made.{made_by};
ghost use Rattle.pm_model.specs.RightSet.{bit_named, right_bits};
ghost use Rattle.pm_affect.specs.Counting.{rows_of};
ghost use Rattle.pm_state.specs.Repairs.{drops_review};
ghost use Rattle.pm_state.specs.Shown.{graph_of};
ghost use Rattle.pm_state.specs.declared.done.Done.{Done};
ghost use Rattle.pm_reach.specs.Changes.{TellContainment};
ghost use Rattle.pm_reach.specs.Rows.{has};

use crate::done::Done;
use crate::tables::Tables;
use pm_assoc::Assoc;
use pm_deny::Deny;
use pm_diagram::{Containment, Diagram};
use pm_elements::Elements;
use pm_kept::KeptReviews;
use pm_model::{Change, ChangeError, ChangeList, ClassList, ElementId, Memory, Name, NameOf};
use pm_oblig::Obligations;
use pm_procs::Procs;
use pm_reach::ReachRows;
use pm_rights::RightNames;
use std::alloc::Global;
use std::marker::Model;

/// All that commands change. Contracts see the lists, which are well formed.
pub struct Graph {
    /// On the heap, so that what has a graph is moved in a few words.
    tables: Box<Tables>,
}

impl Drop for Graph {
    fn drop(self) {
        let Graph { tables: _ } = self;
    }
}

impl Model for Graph {
    ghost use Rattle.pm_model.specs.State.{Graph};

    ghost Value = { Graph };

    ghost use Rattle.pm_state.specs.Kept.{shown_of, IsGraph};

    ghost view = { shown_of };

    ghost invariant = { IsGraph };
}

impl Graph {
    /// The graph of these tables.
    fn of(alloc: Global, tables: Tables) -> Result<Graph, Memory>
        requires formed { IsWellFormed (graph_of tables) }
        requires classes { tables.classes ≡ classes_in (graph_of tables).elements }
        ensures { IfOk result (λ g. g ≡ graph_of tables) }
    {
        let tables = Box::new(alloc, tables)?;
        Ok(Graph { tables })
    }

    /// The graph of the opening state.
    pub(crate) fn opening(alloc: Global) -> Result<Graph, Memory>
        ensures { IfOk result (λ g. g ≡ opening.graph) }
    {
        let diagram = Diagram::opening(alloc)?;
        let mut classes = ClassList::new(alloc);
        classes.push(ElementId(0))?;
        let assoc = Assoc::new(alloc);
        let deny = Deny::new(alloc);
        let oblig = Obligations::new(alloc);
        let rights = RightNames::opening(alloc)?;
        let procs = Procs::opening(alloc)?;
        let kept = KeptReviews::new(alloc);
        let tables = Tables {
            diagram,
            assoc,
            deny,
            oblig,
            rights,
            procs,
            kept,
            classes,
        };
        Graph::of(alloc, tables)
    }

    /// What each graph keeps.
    pub fn formed(&self)
        ensures { IsWellFormed self.now }
    {
        let _ = &self.tables;
    }

    /// The elements and their assignments.
    pub fn elements(&self) -> &Elements
        ensures elements { result.now.elements ≡ self.now.elements }
        ensures assigned { result.now.assigned ≡ self.now.assigned }
    {
        self.tables.diagram.elements()
    }

    /// The rows of containment: each live element's has what it is contained in.
    pub fn rows(&self) -> &ReachRows
        ensures live { (x : ℕ) → has result.now.rows x ≡ is_some (element_at self.now.elements x) }
        ensures rows { TellContainment self.now.assigned result.now.rows }
    {
        self.tables.diagram.rows()
    }

    /// What is contained in what, as the rows have it: whoever asks takes no memory.
    pub fn reach(&self) -> Containment<'_>
        ensures elements { result.elements ≡ self.now.elements }
        ensures assigned { result.assigned ≡ self.now.assigned }
    {
        self.tables.diagram.reach()
    }

    /// The associations.
    pub fn assoc(&self) -> &Assoc
        ensures { associations_of result.now.grantees ≡ self.now.associations }
    {
        &self.tables.assoc
    }

    /// The prohibitions, in order of creation.
    pub fn deny(&self) -> &Deny
        ensures { result.now.items ≡ self.now.prohibitions }
    {
        &self.tables.deny
    }

    /// The obligations, in order of creation.
    pub fn obligations(&self) -> &Obligations
        ensures { result.now.items ≡ self.now.obligations }
    {
        &self.tables.oblig
    }

    /// The sessions and their processes.
    pub fn procs(&self) -> &Procs
        ensures { result.now.procs ≡ self.now.procs }
    {
        &self.tables.procs
    }

    /// The kept reviews, by rising number.
    pub fn kept(&self) -> &KeptReviews
        ensures { result.now ≡ self.now.kept }
    {
        &self.tables.kept
    }

    /// The bit of the right of a name; None exactly where no right has it.
    pub fn right(&self, name: Name) -> Option<u8>
        ensures value { result ≡ bit_named self.now.rights name }
        ensures below { IfSome result (λ bit. bit < right_bits) }
    {
        self.tables.rights.find(name)
    }

    /// The name of the right of a bit; None exactly where it has none.
    pub fn right_name(&self, bit: u8) -> Option<Name>
        ensures { result ≡ slice_get self.now.rights bit }
    {
        self.tables.rights.name_of(bit)
    }

    /// The names of the rights, by bit.
    pub fn rights(&self) -> &RightNames
        ensures { result.now ≡ self.now.rights }
    {
        &self.tables.rights
    }

    /// The live policy classes, by rising number.
    pub fn classes(&self) -> &ClassList
        ensures { result.now ≡ classes_in self.now.elements }
    {
        &self.tables.classes
    }

    /// Lets copies share the tables' pages and rows.
    pub(crate) fn share(&mut self) -> Result<(), Memory>
        ensures { self.new ≡ self.old }
    {
        self.tables.share()?;
        Ok(())
    }

    /// The same graph once more. What is shared is not copied.
    pub(crate) fn copy(&self) -> Result<Graph, Memory>
        ensures { IfOk result (λ same. same ≡ self.now) }
    {
        let tables = self.tables.copy()?;
        Graph::of(*Box::allocator(&self.tables), tables)
    }

    /// Tells the first precondition of a change that isn't met, and changes nothing.
    pub(crate) fn check(&self, change: &Change) -> Result<(), ChangeError>
        requires { IsNamed self.now change.now }
        ensures ok { OnOk result (refusal self.now change.now ≡ None) }
        ensures refused { IfErr result (IsCause (refusal self.now change.now)) }
    {
        self.tables.check(change)
    }

    /// Makes one change, and counts the rows that it writes, or tells the first precondition that isn't met. To drop a review takes no memory.
    pub(crate) fn change(&mut self, change: &Change) -> Result<Done, ChangeError>
        requires { IsNamed self.old change.now }
        ensures ok { OnOk result (effect self.old change.now ≡ Ok self.new) }
        ensures made { IfOk result (λ (d : Done). d.made ≡ made_by self.old change.now) }
        ensures rows { IfOk result (λ (d : Done). d.rows ≡ rows_of self.old change.now) }
        ensures refused { IfErr result (IsCause (refusal self.old change.now)) }
        ensures err { OnErr result (self.new ≡ self.old) }
        ensures free { drops_review change.now ≡ true → IsOk result }
    {
        let done = match self.tables.change(change) {
            Ok(done) => done,
            Err(error) => return Err(error),
        };
        Ok(done)
    }

    /// Makes this the last change of the kept review at a place. It takes no memory.
    pub(crate) fn set_last(&mut self, place: usize, version: u64, changes: ChangeList)
        requires { place < length self.old.kept }
        ensures { (k : KeptReview) → slice_get self.old.kept place ≡ Some k → self.new ≡ record self.old { kept = slice_set self.old.kept place (record k { at = version; changed = changes }) } }
    {
        self.tables.kept.set_last(place, version, changes);
    }
}

impl NameOf for Graph {
    ghost use Rattle.std.specs.Prelude.{is_some};
    ghost use Rattle.pm_model.specs.State.{element_at, name_numbered};

    ghost named = { λ g n. is_some (element_at g.elements n) };

    ghost name_at = { λ g. name_numbered g.elements };

    fn name_of(&self, id: ElementId) -> Name {
        self.tables.diagram.elements().name(id)
    }
}
