//! What a request comes to without the desk.

use pm_model::Reply;

/// What a request comes to for whoever looks at a state and may not change it.
#[derive(Drop)]
pub enum Glance {
    /// The machine's reply, which leaves the state.
    Answer(Reply),
    /// Only who may change the state can answer: the request may be an entry.
    NeedsDesk,
}
