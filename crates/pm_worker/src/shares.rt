//! How much of a turn's share a line takes.

ghost use Rattle.std.specs.Prelude.{◌≡◌, ◌<◌, ◌≤◌};
ghost use Rattle.pm_worker.specs.Shares.{share_of, share_of_body, share_of_question};

use pm_model::{Body, Question, What};

/// What a turn may take: 64 lines, but for reviews.
pub(crate) const WHOLE: u32 = 64;

// A review of which nothing is known but that it may judge each element or each user.
const REVIEW: u32 = 16;

fn share_of_question(question: &Question) -> u32
    ensures exact { result ≡ share_of_question question.now }
    ensures within { (0 < result) × (result ≤ 64) }
{
    match question {
        Question::Survey { .. } => WHOLE,
        Question::Caps { .. } => REVIEW,
        Question::Entries { .. } => REVIEW,
        Question::Kept { .. } => REVIEW,
        Question::Changes { .. } => REVIEW,
    }
}

fn share_of_body(body: &Body) -> u32
    ensures exact { result ≡ share_of_body body.now }
    ensures within { (0 < result) × (result ≤ 64) }
{
    match body {
        Body::Version => 1,
        Body::OpenSession { .. } => 1,
        Body::CloseSession { .. } => 1,
        Body::StartProcess { .. } => 1,
        Body::EndProcess { .. } => 1,
        Body::Access { .. } => 1,
        Body::Admin { .. } => 1,
        Body::Review { question, .. } => share_of_question(question),
    }
}

/// How much a line takes that asks this.
pub(crate) fn share_of(what: &What) -> u32
    ensures exact { result ≡ share_of what.now }
    ensures within { (0 < result) × (result ≤ 64) }
{
    match what {
        What::Request(request) => share_of_body(&request.body),
        What::Bad(_) => 1,
    }
}
