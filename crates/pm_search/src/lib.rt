//! Containment by a search with marks, over whatever says what each element is assigned to. A search
//! costs what it visits: the elements that are marked, and their assignments.
#![tactic(auto)]

ghost use Rattle.std.specs.Prelude.{◌≡◌, ℕ, Bool, ◌+◌, ◌<◌, ◌≤◌, ◌==◌, ◌^◌, length, slice_index, slice_index_or, IsTrue, true, false, Contains, List, vec_len, IfOk, Some};
ghost use Rattle.std.specs.Int.{bit_at};
ghost use Rattle.std.specs.Option.{ForSome};
ghost use Rattle.pm_model.specs.Containment.{contained, containers};
ghost use Rattle.pm_search.specs.Marks.{NoneMarked, MarksQueued, MarksAbove};
ghost use Rattle.pm_search.specs.Search.{Searching, count_set, Visited, Expanded};

use pm_model::{ElementId, Memory, Parents, Reach};
use std::alloc::Global;

/// Marks w and puts it at the queue's end, unless it is marked already. Answers the queue's new end.
#[tactic(auto, using(crate::proofs::SearchSteps::room))]
fn visit(marks: &mut [bool], queue: &mut [u32], end: usize, w: ElementId) -> usize
    requires w_in { w < length marks.old }
    requires counted { count_set marks.old ≡ end }
    requires as_long { length queue.old ≡ length marks.old }
    ensures { Visited marks.old queue.old end w marks.new queue.new result }
{
    let n = w.number();
    if marks[n as usize] {
        end
    } else {
        marks[n as usize] = true;
        queue[end] = n;
        end + 1
    }
}

/// Visits all that z is assigned to.
fn expand<P: Parents>(
    parents: &P,
    marks: &mut [bool],
    queue: &mut [u32],
    end: usize,
    z: u32,
) -> usize
    requires z_live { IsTrue (P.live parents.now z) }
    requires fits { (w : ℕ) → IsTrue (P.live parents.now w) → w < length marks.old }
    requires counted { count_set marks.old ≡ end }
    requires as_long { length queue.old ≡ length marks.old }
    ensures { Expanded (P.assigned parents.now) (P.live parents.now) z (length (containers (P.assigned parents.now) z)) marks.old queue.old end marks.new queue.new result }
{
    let mut new_end = end;
    let x = ElementId(z);
    for i in 0..parents.count(x) {
        let w = parents.parent(x, i);
        new_end = visit(marks, queue, new_end, w);
    }
    new_end
}

/// Where no mark is set: marks all that x is contained in, and nothing else. These elements are the
/// queue's first, and the answer is how many they are. The queue is as long as the marks, and the
/// numbers of live elements are below its length.
pub fn mark_all<P: Parents>(
    parents: &P,
    marks: &mut [bool],
    queue: &mut [u32],
    x: ElementId,
) -> usize
    requires x_live { IsTrue (P.live parents.now x) }
    requires fits { (w : ℕ) → IsTrue (P.live parents.now w) → w < length marks.old }
    requires as_long { length queue.old ≡ length marks.old }
    requires none { NoneMarked marks.old }
    ensures above { MarksAbove (P.assigned parents.now) x marks.new }
    ensures queued { MarksQueued marks.new queue.new result }
    ensures within { result ≤ length queue.new }
{
    let mut end = visit(marks, queue, 0, x);
    let mut head = 0;
    while head < end {
        let z = queue[head];
        end = expand(parents, marks, queue, end, z);
        head += 1;
    }
    end
}

/// Unsets all marks, where they are those of the queue's first elements, `end` of them.
pub fn unmark(marks: &mut [bool], queue: &[u32], end: usize)
    requires queued { MarksQueued marks.old queue.now end }
    requires within { end ≤ length queue.now }
    ensures { NoneMarked marks.new }
{
    let marked = &queue[..end];
    for n in marked {
        marks[*n as usize] = false;
    }
}

/// Whether number n is marked.
fn is_marked(marks: &[bool], n: usize) -> bool
    ensures { result ≡ slice_index_or marks.now n false }
{
    n < marks.len() && marks[n]
}

/// Which of the numbers from `start` on, 64 of them, are marked: bit i is the number start + i.
fn marked_word(marks: &[bool], start: usize) -> u64
    requires { start < 2 ^ 63 }
    ensures { (i : ℕ) → i < 64 → (bit_at result i == 1) ≡ slice_index_or marks.now (start + i) false }
{
    let mut word = 0;
    for i in 0..64 {
        if is_marked(marks, start + i) {
            word |= 1 << i;
        }
    }
    word
}

/// Containment by search. The marks are taken when it is made; a question takes no memory. A
/// question from another element than the last one unsets the marks of that search and makes a new
/// one, at the cost of what both visit; a question from the same element looks at one mark.
pub struct PathReach<'a, P: Parents> {
    parents: &'a P,
    marks: Vec<bool>,
    queue: Vec<u32>,
    end: usize,
    source: Option<ElementId>,
    ghost fits: { (w : ℕ) → IsTrue (P.live parents.now w) → w < vec_len marks },
    ghost as_long: { vec_len queue ≡ vec_len marks },
    ghost within: { end ≤ vec_len queue },
    ghost queued: { MarksQueued marks.items queue.items end },
    ghost above: { ForSome source (λ x. MarksAbove (P.assigned parents.now) x marks.items) },
}

impl<'a, P: Parents + Drop> Drop for PathReach<'a, P> {
    fn drop(self) {
        let PathReach {
            parents: _,
            marks: _,
            queue: _,
            end: _,
            source: _,
        } = self;
    }
}

impl<'a, P: Parents> PathReach<'a, P> {
    /// A search over these parents, whose live elements have numbers below `size`.
    pub fn new(alloc: Global, parents: &'a P, size: usize) -> Result<Self, Memory>
        requires { (w : ℕ) → IsTrue (P.live parents.now w) → w < size }
        ensures { IfOk result (λ r. r.parents.now ≡ parents.now) }
    {
        let marks = match vec![in alloc; false; size] {
            Ok(marks) => marks,
            Err(_) => return Err(Memory),
        };
        let queue = match vec![in alloc; 0; size] {
            Ok(queue) => queue,
            Err(_) => return Err(Memory),
        };
        Ok(PathReach {
            parents,
            marks,
            queue,
            end: 0,
            source: None,
        })
    }

    /// Searches from x, unless it did so last.
    fn search_from(&mut self, x: ElementId)
        requires { IsTrue (P.live self.old.parents.now x) }
        ensures source { self.new.source ≡ Some x }
        ensures same { self.new.parents.now ≡ self.old.parents.now }
    {
        if self.source == Some(x) {
            return;
        }
        unmark(self.marks.as_mut_slice(), self.queue.as_slice(), self.end);
        self.end = mark_all(
            self.parents,
            self.marks.as_mut_slice(),
            self.queue.as_mut_slice(),
            x,
        );
        self.source = Some(x);
    }
}

impl<'a, P: Parents> Reach for PathReach<'a, P> {
    ghost relation = { λ s. record { live = P.live s.parents.now; below = contained (P.assigned s.parents.now) } };

    fn contains(&mut self, x: ElementId, y: ElementId) -> bool {
        self.search_from(x);
        self.marks[y.number() as usize]
    }

    fn above(&mut self, x: ElementId, k: u32) -> u64 {
        self.search_from(x);
        marked_word(self.marks.as_slice(), k as usize * 64)
    }
}
