ghost use Rattle.std.specs.Prelude.{◌≡◌, ◌<◌, ◌≤◌, ◌∷◌, ◌++◌, [], true, false, None, Ok, length, slice_get, OnOk, OnErr, IfOk, IfErr, IsOk};
ghost use Rattle.std.specs.List.{list_any};
ghost use Rattle.std.specs.Option.{option_copied};
ghost use Rattle.pm_model.specs.Effect.{effect, IsCause};
ghost use Rattle.pm_model.specs.Formed.{IsNamed};
ghost use Rattle.pm_model.specs.Answer.{entered, longest_history, proposed, refusal_in};
ghost use Rattle.pm_model.specs.History.{IsReplayed, opening_machine, state_of};
ghost use Rattle.pm_model.specs.KeptReviews.{is_kept_of};
ghost use Rattle.pm_model.specs.Made.{made_by};
ghost use Rattle.pm_model.specs.Reviews.{list_of};
ghost use Rattle.pm_laws.specs.Meaning.{AreGivenBy};
ghost use Rattle.pm_affect.specs.Affected.{is_of_prohibition};
ghost use Rattle.pm_affect.specs.Counting.{Work, Judged, Written, capped, work_by, work_for, work_in};
ghost use Rattle.pm_state.specs.Leaving.{LeavesReviews};
ghost use Rattle.pm_state.specs.Listing.{AreListed};

use crate::draft::Draft;
use crate::graph::Graph;
use crate::repairs::leaves;
use pm_affect::KeptLists;
use pm_history::{History, HistoryError};
use pm_model::{
    Change, ChangeError, ElementId, Entry, Grows, Made, Memory, PairList, Refusal, ReviewOf, Table,
};
use std::alloc::Global;
use std::marker::Model;

/// The most entries of a history.
const LONGEST_HISTORY: u64 = 262144;

/// A version of the machine: its graph, the lists of its kept reviews, and the accepted requests that led to it. Contracts see
/// no lists, since the graph determines them.
pub struct State {
    graph: Graph,
    lists: KeptLists,
    history: History,
    /// How many rows of containment were written, up to 2^64 - 1.
    rows: u64,
}

impl Drop for State {
    fn drop(self) {
        let State {
            graph: _,
            lists: _,
            history: _,
            rows: _,
        } = self;
    }
}

impl Model for State {
    ghost use Rattle.pm_model.specs.History.{Machine};

    ghost Value = { Machine };

    ghost use Rattle.pm_state.specs.KeptState.{machine_of, IsState};

    ghost view = { machine_of };

    ghost invariant = { IsState };
}

// A version stands for its history.
impl Grows for State {
    ghost list = { λ s. s.history };

    fn grown(&self) -> u64 {
        self.version()
    }
}

impl State {
    /// The state before any request.
    pub fn opening(alloc: Global) -> Result<State, Memory>
        ensures { IfOk result (λ s. s ≡ opening_machine) }
    {
        let graph = Graph::opening(alloc)?;
        let lists = KeptLists::new(alloc);
        let history = History::new(alloc, LONGEST_HISTORY);
        Ok(State {
            graph,
            lists,
            history,
            rows: 0,
        })
    }

    pub(crate) fn joined(graph: Graph, lists: KeptLists, history: History, rows: u64) -> State
        requires replayed { IsReplayed (record { graph = graph; history = history.entries }) }
        requires limit { history.limit ≡ longest_history }
        requires listed { AreListed lists graph }
        requires asked { lists.asked ≡ capped (work_in Judged history.entries) }
        requires written { rows ≡ capped (work_in Written history.entries) }
        ensures { result ≡ record { graph = graph; history = history.entries } }
    {
        State {
            graph,
            lists,
            history,
            rows,
        }
    }

    /// How many entries were accepted.
    pub fn version(&self) -> u64
        ensures version { result ≡ length self.now.history }
        ensures most { result ≤ longest_history }
    {
        let _limit = self.history.limit();
        self.history.len()
    }

    /// The entry at a place of the history, from 0; None exactly where there is none.
    pub fn entry(&self, i: u64) -> Option<&Entry>
        ensures { option_copied result ≡ slice_get self.now.history i }
    {
        self.history.get(i)
    }

    /// The graph of this version.
    pub fn graph(&self) -> &Graph
        ensures { result.now ≡ self.now.graph }
    {
        &self.graph
    }

    /// The lists of all kept reviews: what each answers in this version.
    pub fn lists(&self) -> &KeptLists
        ensures { AreListed result.now self.now.graph }
    {
        &self.lists
    }

    /// The list of a review that is kept: what it answers in this version. It is found by halving.
    pub fn list(&self, of: &ReviewOf<ElementId>) -> &PairList
        requires { list_any (is_kept_of of.now) self.now.graph.kept ≡ true }
        ensures { result.now ≡ list_of self.now.graph of.now }
    {
        match self.lists.list(of) {
            Some(list) => list,
            None => unreachable!(),
        }
    }

    /// How many rights were judged for kept reviews in all entries up to this version, up to 2^64 - 1: for each change, of a
    /// request or of a response to it, one for each pair of a user and an element that lies in the region of the change and in
    /// the scope of a review that is kept then. A review that is made or dropped asks for none.
    pub fn asked(&self) -> u64
        ensures { result ≡ capped (work_in Judged self.now.history) }
    {
        self.lists.asked()
    }

    /// How many rows of containment all entries up to this version have written, up to 2^64 - 1: for each change, of a request or
    /// of a response to it, the row of an element that is made, once more where it is made in a container; and those of all that is
    /// contained in an element that is assigned, or whose assignment is taken away.
    pub fn written(&self) -> u64
        ensures { result ≡ capped (work_in Written self.now.history) }
    {
        self.rows
    }

    /// What each state keeps: its history is legal, and it is the replay of its history.
    pub fn replayed(&self)
        ensures { IsReplayed self.now }
    {
        let _ = &self.graph;
    }

    /// The version bounds the numbers of sessions and processes.
    pub fn given(&self)
        ensures { AreGivenBy (state_of self.now) }
    {
        self.replayed();
    }

    // What is told where the history is full: a precondition that isn't met comes first.
    fn full(&self, change: &Change) -> ChangeError
        requires named { IsNamed self.now.graph change.now }
        requires full { longest_history ≤ length self.now.history }
        ensures { IsCause (refusal_in (state_of self.now) change.now) result }
    {
        match self.graph.check(change) {
            Ok(()) => ChangeError::Refused(Refusal::Full(Table::History)),
            Err(error) => error,
        }
    }

    /// Whether the change leaves the lists of all kept reviews, so that it can be made in place. It may say no where it leaves
    /// them: to a change that makes or ends an element, or one that changes what an element is assigned to, while a review is
    /// kept. `Memory` comes only where a prohibition is copied, one that is made or lifted.
    ///
    /// It costs a question or two at most for each kept review, and none where the change can change no rights; of a
    /// prohibition as many as its sets have elements.
    pub fn leaves_reviews(&self, change: &Change) -> Result<bool, Memory>
        requires { IsNamed self.now.graph change.now }
        ensures answer { IfOk result (λ yes. yes ≡ true → LeavesReviews self.now.graph change.now) }
        ensures free { is_of_prohibition change.now ≡ false → IsOk result }
    {
        leaves(&self.lists, &self.graph, change)
    }

    /// Makes one change, to which nothing responds, in place as an entry of the history, or tells the first
    /// precondition that isn't met, a full history last. It must leave the lists of all kept reviews, as `leaves_reviews` says:
    /// so there are no lists to make up, and no last change is to be told. A refusal leaves the state, and so does want of
    /// memory.
    pub fn enter(&mut self, change: &Change, entry: Entry) -> Result<Made, ChangeError>
        requires named { IsNamed self.old.graph change.now }
        requires asked { proposed (state_of self.old) entry.request ≡ entered (state_of self.old) None change.now }
        requires work { (w : Work) → work_by w (state_of self.old) entry.request ≡ work_for w self.old.graph change.now }
        requires leaves { LeavesReviews self.old.graph change.now }
        ensures ok { OnOk result (effect self.old.graph change.now ≡ Ok self.new.graph) }
        ensures history { OnOk result (self.new.history ≡ self.old.history ++ entry ∷ []) }
        ensures room { OnOk result (length self.old.history < longest_history) }
        ensures made { IfOk result (λ m. m ≡ made_by self.old.graph change.now) }
        ensures refused { IfErr result (IsCause (refusal_in (state_of self.old) change.now)) }
        ensures err { OnErr result (self.new ≡ self.old) }
    {
        match self.history.push(entry) {
            Ok(()) => {}
            Err(HistoryError::Full) => return Err(self.full(change)),
            Err(HistoryError::Memory) => return Err(ChangeError::Memory),
        }
        match self.graph.change(change) {
            Ok(done) => {
                self.rows = self.rows.saturating_add(done.rows);
                Ok(done.made)
            }
            Err(error) => {
                self.history.take_back();
                Err(error)
            }
        }
    }

    /// Lets copies share what this state has: its tables in pages, its rows of containment, and its
    /// entries. It takes memory for each page and row that is the state's own, and none for what stands in
    /// it. On Memory some are shared, and a later call goes on.
    pub fn share(&mut self) -> Result<(), Memory>
        ensures { self.new ≡ self.old }
    {
        self.graph.share()?;
        self.history.share()
    }

    /// The same state once more. What is shared takes a pointer for each page, a list of a kept review takes two, and the rest
    /// is copied: so `share` comes first.
    pub fn copy(&self) -> Result<State, Memory>
        ensures { IfOk result (λ same. same ≡ self.now) }
    {
        let graph = self.graph.copy()?;
        let lists = self.lists.copy()?;
        let history = self.history.copy()?;
        Ok(State {
            graph,
            lists,
            history,
            rows: self.rows,
        })
    }

    /// A copy in which one change after another can be made, to be one entry together.
    pub fn draft(&self) -> Result<Draft, Memory>
        ensures { IfOk result (λ d. d ≡ record { graph = self.now.graph; history = self.now.history; asked = capped (work_in Judged self.now.history); written = capped (work_in Written self.now.history); whole = true }) }
    {
        self.lists.kept();
        let graph = self.graph.copy()?;
        let lists = self.lists.copy()?;
        let history = self.history.copy()?;
        Ok(Draft::begun(graph, lists, history, self.rows))
    }
}
