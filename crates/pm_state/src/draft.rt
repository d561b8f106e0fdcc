ghost use Rattle.std.specs.Prelude.{◌≡◌, ◌<◌, ◌≤◌, ◌+◌, ◌∷◌, ◌++◌, [], true, Ok, Some, length, slice_get, slice_set, OnOk, IfOk, IfErr, IsOk};
ghost use Rattle.std.specs.List.{list_any};
ghost use Rattle.pm_model.specs.Answer.{longest_history};
ghost use Rattle.pm_model.specs.Effect.{refusal, effect, IsCause};
ghost use Rattle.pm_model.specs.Formed.{IsNamed};
ghost use Rattle.pm_model.specs.History.{IsAnswered, IsReplayed, replay};
ghost use Rattle.pm_model.specs.KeptReviews.{KeptReview, is_kept_of};
ghost use Rattle.pm_model.specs.Made.{made_by};
ghost use Rattle.pm_model.specs.Reviews.{list_of};
ghost use Rattle.pm_affect.specs.Counting.{Work, capped, work_for, work_in};
ghost use Rattle.pm_affect.specs.Right.{WereLists};
ghost use Rattle.pm_state.specs.Drafted.{done_in, machine_in};
ghost use Rattle.pm_state.specs.Leaving.{AreNamesKept};
ghost use Rattle.pm_state.specs.Listing.{AreListed};
ghost use Rattle.pm_state.specs.Repairs.{IsLeft, drops_review};

use crate::graph::Graph;
use crate::repairs::{deletes, repair_of, repaired};
use crate::state::State;
use pm_affect::KeptLists;
use pm_history::{History, HistoryError};
use pm_model::{
    Change, ChangeError, ChangeList, ElementId, Entry, Made, Memory, PairList, ReviewOf,
};
use std::marker::Model;

/// A copy of a state in which one change after another is made, to be one entry together or none. A
/// change to which nothing responds, and that leaves the kept reviews, is made in place, by [`State::enter`]; a request to
/// which obligations respond, or that touches a kept review, is made in a draft.
pub struct Draft {
    graph: Graph,
    /// None once memory was wanting for them.
    lists: Option<KeptLists>,
    history: History,
    /// How many rows of containment were written, up to 2^64 - 1.
    rows: u64,
    /// Whether some element was deleted in it.
    deleted: bool,
}

impl Drop for Draft {
    fn drop(self) {
        let Draft {
            graph: _,
            lists: _,
            history: _,
            rows: _,
            deleted: _,
        } = self;
    }
}

impl Model for Draft {
    ghost use Rattle.pm_state.specs.Drafted.{Drafted};

    ghost Value = { Drafted };

    ghost use Rattle.pm_state.specs.KeptDraft.{drafted_of, IsDraft};

    ghost view = { drafted_of };

    ghost invariant = { IsDraft };
}

impl Draft {
    pub(crate) fn begun(graph: Graph, lists: KeptLists, history: History, rows: u64) -> Draft
        requires replayed { IsReplayed (record { graph = graph; history = history.entries }) }
        requires limit { history.limit ≡ longest_history }
        requires listed { AreListed lists graph }
        requires were { WereLists graph lists }
        ensures { result ≡ record { graph = graph; history = history.entries; asked = lists.asked; written = rows; whole = true } }
    {
        Draft {
            graph,
            lists: Some(lists),
            history,
            rows,
            deleted: false,
        }
    }

    /// The graph as it is now.
    pub fn graph(&self) -> &Graph
        ensures { result.now ≡ self.now.graph }
    {
        &self.graph
    }

    /// Whether each element that was live before the draft's first change is live still, by the same name: none was deleted.
    pub fn keeps_names(&self) -> bool
        ensures { result ≡ true → AreNamesKept (replay self.now.history).graph self.now.graph }
    {
        !self.deleted
    }

    /// The lists of all kept reviews: what each answers in the graph as it is now. `Memory` comes once memory was wanting for
    /// them, and only then.
    pub fn lists(&self) -> Result<&KeptLists, Memory>
        ensures lists { IfOk result (λ lists. AreListed lists.now self.now.graph) }
        ensures free { self.now.whole ≡ true → IsOk result }
    {
        match &self.lists {
            Some(lists) => Ok(lists),
            None => Err(Memory),
        }
    }

    /// The list of a review that is kept: what it answers in the graph as it is now. `Memory` comes where `lists` says so.
    pub fn list(&self, of: &ReviewOf<ElementId>) -> Result<&PairList, Memory>
        requires { list_any (is_kept_of of.now) self.now.graph.kept ≡ true }
        ensures list { IfOk result (λ list. list.now ≡ list_of self.now.graph of.now) }
        ensures free { self.now.whole ≡ true → IsOk result }
    {
        match self.lists()?.list(of) {
            Some(list) => Ok(list),
            None => unreachable!(),
        }
    }

    /// Whether it is known, without a look at any pair, that a review that is kept answers what it did before the draft's first
    /// change: its list was there then, and no repair has written to it.
    pub fn keeps_list(&self, of: &ReviewOf<ElementId>) -> bool
        requires { list_any (is_kept_of of.now) self.now.graph.kept ≡ true }
        ensures { result ≡ true → list_of (replay self.now.history).graph of.now ≡ list_of self.now.graph of.now }
    {
        match &self.lists {
            Some(lists) => !lists.is_written(of),
            None => false,
        }
    }

    /// Makes one change, or tells the first precondition that isn't met. A refusal leaves the draft. After want of memory the
    /// change may be made and the lists of kept reviews gone: then the draft can only be dropped, since each later change, `lists`
    /// and `finish` want memory too. To drop a review takes no memory while the lists are there.
    ///
    /// While no review is kept it costs what the change does, and a copy of a prohibition that is made or lifted; where it touches
    /// no kept review, also what `touches` of `pm_affect` says. Else the rights of each pair that the change can have changed, and
    /// that a kept review is of, are asked for once more, beside what `update` of `pm_affect` says; a review that is kept from now
    /// on asks for all of its own.
    pub fn change(&mut self, change: &Change) -> Result<Made, ChangeError>
        requires { IsNamed self.old.graph change.now }
        ensures ok { OnOk result (effect self.old.graph change.now ≡ Ok self.new.graph) }
        ensures made { IfOk result (λ m. m ≡ made_by self.old.graph change.now) }
        ensures refused { IfErr result (IsCause (refusal self.old.graph change.now)) }
        ensures err { IfErr result (IsLeft self.old self.new change.now) }
        ensures history { self.new.history ≡ self.old.history }
        ensures done { (w : Work) → OnOk result (done_in self.new w ≡ capped (done_in self.old w + work_for w self.old.graph change.now)) }
        ensures whole { OnOk result (self.new.whole ≡ true) }
        ensures free { drops_review change.now ≡ true → self.old.whole ≡ true → IsOk result }
    {
        self.graph.formed();
        let asked = match repair_of(&self.graph, change) {
            Ok(asked) => asked,
            Err(Memory) => return Err(ChangeError::Memory),
        };
        let done = match self.graph.change(change) {
            Ok(done) => done,
            Err(ChangeError::Refused(why)) => return Err(ChangeError::Refused(why)),
            Err(ChangeError::Memory) => return Err(ChangeError::Memory),
        };
        self.rows = self.rows.saturating_add(done.rows);
        let more = deletes(change);
        self.deleted = self.deleted || more;
        self.lists = repaired(self.lists.take(), &self.graph, asked);
        match self.lists {
            Some(_) => Ok(done.made),
            None => Err(ChangeError::Memory),
        }
    }

    /// Makes this the last change of the kept review at a place. It takes no memory.
    pub fn set_last(&mut self, place: usize, version: u64, changes: ChangeList)
        requires { place < length self.old.graph.kept }
        ensures graph { (k : KeptReview) → slice_get self.old.graph.kept place ≡ Some k → self.new.graph ≡ record self.old.graph { kept = slice_set self.old.graph.kept place (record k { at = version; changed = changes }) } }
        ensures history { self.new.history ≡ self.old.history }
        ensures done { (w : Work) → done_in self.new w ≡ done_in self.old w }
        ensures whole { self.new.whole ≡ self.old.whole }
    {
        self.graph.set_last(place, version, changes);
    }

    /// The state with this graph, and the entry at the end of the history. The graph must be what the
    /// machine's answer to the entry makes, and so must be how much work it was. `Full` only where the history has 262,144 entries; the other error is `Memory`.
    pub fn finish(self, entry: Entry) -> Result<State, HistoryError>
        requires answered { IsAnswered (machine_in self) entry.request }
        requires done { (w : Work) → capped (done_in self w) ≡ capped (work_in w (self.history ++ entry ∷ [])) }
        ensures ok { IfOk result (λ s. s ≡ record { graph = self.graph; history = self.history ++ entry ∷ [] }) }
        ensures room { OnOk result (length self.history < longest_history) }
        ensures full { IfErr result (λ e. e ≡ HistoryError.Full → longest_history ≤ length self.history) }
    {
        let Draft {
            graph,
            lists,
            mut history,
            rows,
            deleted: _,
        } = self;
        let Some(lists) = lists else {
            return Err(HistoryError::Memory);
        };
        lists.kept();
        match history.push(entry) {
            Ok(()) => {}
            Err(error) => return Err(error),
        }
        Ok(State::joined(graph, lists, history, rows))
    }
}
