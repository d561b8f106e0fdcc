//! Transcripts of seats, and all schedules of their steps, with the laws that tie them to one history: no program.
#![tactic(auto)]

ghost use Rattle.std.specs.Prelude.{ℕ, List, ◌++◌};
ghost use Rattle.pm_model.specs.Formed.{Each};
ghost use Rattle.pm_model.specs.declared.requests.Entry.{Entry};
ghost use Rattle.pm_world.specs.Transcripts.{Exchange, IsAwaited, IsTranscript};
ghost use Rattle.pm_world.specs.Worlds.{empty_world, Step, IsSchedule, after_steps, IsOrderly};
ghost use Rattle.pm_world.specs.Restored.{IsMade, restoring, IsRestored};
ghost use Rattle.pm_world.specs.Schedules.{Comes, IsTold, courses, histories, no_histories, no_schedules, transcripts, wrong_entries, wrong_replies};

/// Two transcripts of a seat, of which the second goes on where the first ends, are one.
pub fn transcripts_join()
    ensures { (s : ℕ) (F G H : List Entry) (m n o : ℕ) (es fs : List Exchange) → IsTranscript s F m es G n → IsTranscript s G n fs H o → IsTranscript s F m (es ++ fs) H o }
{}

/// Whatever a seat hears: a request that passes a version is answered from that version or a later one, or by `ahead`, which
/// comes nowhere else.
#[tactic(auto, using(crate::proofs::Awaited::all_awaited))]
pub fn what_is_passed_is_awaited()
    ensures { (s : ℕ) (F G : List Entry) (m n : ℕ) (es : List Exchange) → IsTranscript s F m es G n → Each IsAwaited es }
{}

/// For every list of steps from the empty world: the log is legal, and each front begins it; a seat's entries in it are its
/// accepted requests, each once and in order, with numbers that go on by one; and what each seat asked and was told is a
/// transcript.
#[tactic(auto, using(crate::proofs::Schedules::every_schedule))]
pub fn every_schedule()
    ensures { (steps : List Step) → IsSchedule empty_world steps → IsOrderly (after_steps empty_world steps) }
{}

/// A history that a house of so many seats can have made is restored by a schedule: each entry is accepted, and then each seat
/// looks. So what `every_schedule` says holds of a house that goes on from there.
#[tactic(auto, using(crate::proofs::Restored::restored_by))]
pub fn a_history_is_restored()
    ensures { (seats : ℕ) (history : List Entry) → IsMade seats history → IsSchedule empty_world (restoring seats history) × IsRestored seats history (after_steps empty_world (restoring seats history)) }
{}

/// What comes of schedules worked by hand, and lists of steps that are none.
#[tactic(auto, using(crate::proofs::Computed::schedules_refused))]
pub fn schedules_worked()
    ensures comes { Each Comes courses }
    ensures refused { Each (λ steps. IsSchedule empty_world steps → ⊥) no_schedules }
{}

/// What a house of two seats makes, and what none does.
#[tactic(auto, using(crate::proofs::Computed::histories_made, crate::proofs::Computed::histories_refused))]
pub fn histories_worked()
    ensures made { Each (IsMade 2) histories }
    ensures refused { Each (λ history. IsMade 2 history → ⊥) no_histories }
{}

/// What is a transcript, and what is none.
#[tactic(auto, using(crate::proofs::Computed::transcripts_told, crate::proofs::Computed::entries_refused, crate::proofs::Computed::replies_refused))]
pub fn transcripts_worked()
    ensures told { Each IsTold transcripts }
    ensures entries { Each (λ way. IsTold way → ⊥) wrong_entries }
    ensures replies { Each (λ way. IsTold way → ⊥) wrong_replies }
{}
