//! The tables, and what each change does to them. The methods for the changes stand by topic, in files of their own.
ghost use Rattle.std.specs.Prelude.{◌≡◌, true, IfOk, IsOk};
ghost use Rattle.pm_model.specs.Formed.{IsNamed};
ghost use Rattle.pm_state.specs.Changes.{Changes, Checks, IsSame};
ghost use Rattle.pm_state.specs.Repairs.{drops_review};
ghost use Rattle.pm_state.specs.Shown.{graph_of};

use crate::done::Done;
use pm_assoc::Assoc;
use pm_deny::Deny;
use pm_diagram::Diagram;
use pm_kept::KeptReviews;
use pm_model::{Change, ChangeError, ClassList, Memory};
use pm_oblig::Obligations;
use pm_procs::Procs;
use pm_rights::RightNames;

pub(crate) struct Tables {
    pub(crate) diagram: Diagram,
    pub(crate) assoc: Assoc,
    pub(crate) deny: Deny,
    pub(crate) oblig: Obligations,
    pub(crate) rights: RightNames,
    pub(crate) procs: Procs,
    pub(crate) kept: KeptReviews,
    /// The policy classes, by rising number.
    pub(crate) classes: ClassList,
}

impl Drop for Tables {
    fn drop(self) {
        let Tables {
            diagram: _,
            assoc: _,
            deny: _,
            oblig: _,
            rights: _,
            procs: _,
            kept: _,
            classes: _,
        } = self;
    }
}

impl Tables {
    /// Lets copies share the tables' pages and rows. On Memory some may be shared.
    pub(crate) fn share(&mut self) -> Result<(), Memory>
        ensures { IsSame self.old self.new }
    {
        self.diagram.share()?;
        self.assoc.share()?;
        self.deny.share()?;
        self.oblig.share()?;
        self.procs.share()?;
        self.kept.share()
    }

    /// The same tables once more. What is shared is not copied; the list of classes is.
    pub(crate) fn copy(&self) -> Result<Tables, Memory>
        ensures graph { IfOk result (λ same. graph_of same ≡ graph_of self.now) }
        ensures classes { IfOk result (λ same. same.classes ≡ self.now.classes) }
    {
        Ok(Tables {
            diagram: self.diagram.copy()?,
            assoc: self.assoc.copy()?,
            deny: self.deny.copy()?,
            oblig: self.oblig.copy()?,
            rights: self.rights.copy()?,
            procs: self.procs.copy()?,
            kept: self.kept.copy()?,
            classes: self.classes.copy()?,
        })
    }

    /// Makes one change, and counts the rows that it writes, or tells the first precondition that isn't met. To drop a review takes no memory.
    pub(crate) fn change(&mut self, change: &Change) -> Result<Done, ChangeError>
        requires { IsNamed (graph_of self.old) change.now }
        ensures changes { Changes self.old self.new change.now result }
        ensures free { drops_review change.now ≡ true → IsOk result }
    {
        match change {
            Change::Create {
                id,
                kind,
                name,
                into,
            } => self.create(*id, *kind, *name, *into),
            Change::Delete { id } => self.delete(*id),
            Change::Assign { from, to } => self.assign(*from, *to),
            Change::Deassign { from, to } => self.deassign(*from, *to),
            Change::Associate { ua, rights, at } => self.associate(*ua, *rights, *at),
            Change::Dissociate { ua, at } => self.dissociate(*ua, *at),
            Change::OpenSession { user } => self.open_session(*user),
            Change::CloseSession { session } => self.close_session(*session),
            Change::StartProcess { session } => self.start_process(*session),
            Change::EndProcess { process } => self.end_process(*process),
            Change::Prohibit { item } => self.prohibit(item),
            Change::Lift { index } => self.lift(*index),
            Change::Oblige { item } => self.oblige(item),
            Change::Withdraw { index } => self.withdraw(*index),
            Change::DefineRight { name } => self.define_right(*name),
            Change::Keep { of } => self.keep(*of),
            Change::DropReview { review } => self.drop_review(*review),
        }
    }

    /// Tells the first precondition of the change that isn't met, and changes nothing.
    pub(crate) fn check(&self, change: &Change) -> Result<(), ChangeError>
        requires { IsNamed (graph_of self.now) change.now }
        ensures { Checks self.now change.now result }
    {
        match change {
            Change::Create {
                id,
                kind,
                name,
                into,
            } => self.check_create(*id, *kind, *name, *into),
            Change::Delete { id } => self.check_delete(*id),
            Change::Assign { from, to } => self.check_assign(*from, *to),
            Change::Deassign { from, to } => self.check_deassign(*from, *to),
            Change::Associate { ua, rights, at } => self.check_associate(*ua, *rights, *at),
            Change::Dissociate { ua, at } => self.check_dissociate(*ua, *at),
            Change::OpenSession { user } => self.check_open_session(*user),
            Change::CloseSession { session } => self.check_close_session(*session),
            Change::StartProcess { session } => self.check_start_process(*session),
            Change::EndProcess { process } => self.check_end_process(*process),
            Change::Prohibit { item } => self.check_prohibit(item),
            Change::Lift { .. } => Ok(()),
            Change::Oblige { item } => self.check_oblige(item),
            Change::Withdraw { .. } => Ok(()),
            Change::DefineRight { name } => self.check_define_right(*name),
            Change::Keep { of } => self.check_keep(of),
            Change::DropReview { .. } => Ok(()),
        }
    }
}
