//! How much more work a machine has done once it has answered.
ghost use Rattle.pm_model.specs.History.{IsReplayed, Machine};
ghost use Rattle.pm_model.specs.declared.requests.Entry.{Entry};
ghost use Rattle.pm_model.specs.declared.replies.Reply.{Reply};
ghost use Rattle.pm_machine.specs.Answered.{HasAnswered};
ghost use Rattle.pm_step.specs.Counted.{HasCounted};

/// A machine that has answered, whoever asked it, has done the work that it had done before, and where the request is accepted
/// that of the changes of its entry: rights judged for kept reviews, which `State::asked` counts, and rows written, which
/// `State::written` does.
#[tactic(auto, using(crate::proofs::Counted::answer_counted))]
pub fn answer_counted()
    ensures { (old new : Machine) (entry : Entry) (told : Reply) → IsReplayed old → HasAnswered old new entry told → HasCounted old new entry.request }
{}
