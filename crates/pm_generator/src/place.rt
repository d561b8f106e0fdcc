//! Places in a generated policy.

ghost use Rattle.std.specs.Prelude.{◌≡◌, ◌<◌, ◌≤◌, filter};
ghost use Rattle.pm_generator.specs.Generated.{numbers, is_leaf};
ghost use Rattle.pm_generator.specs.Left.{GoesOn, IsSize, IsIn, behind, left, request_at};
ghost use Rattle.pm_generator.specs.Taken.{TakesFirst};

/// Where a run through the requests stands: which request comes next, by the numbers of what it is about.
#[derive(Clone, Copy)]
pub(crate) enum Place {
    Class,
    Group(u8),
    Folder(u8),
    User(u8),
    Object(u8),
    Association(u8),
    Session(u8),
    Process(u8),
    Review(u8),
    FirstAccess { user: u8, object: u8 },
    Assignment(u8),
    SecondAccess { user: u8, object: u8 },
    Done,
}

/// How many users' reviews are kept.
const REVIEWS: u8 = 8;

/// The first group in which no group is made. There is none in those behind it, either.
#[tactic(auto, using(crate::proofs::Numbers::leaves))]
fn first_leaf(size: u8) -> u8
    requires { IsSize size }
    ensures leaves { filter (is_leaf size) (numbers 0 size) ≡ numbers result size }
    ensures is_in { result < size }
{
    size / 2
}

/// Where the first round of accesses ends: the one group of the smallest policy has none before it.
fn after_first_round(size: u8) -> Place
    requires { IsSize size }
    ensures left { left size result ≡ behind 8 size }
    ensures is_in { IsIn size result }
{
    if size > 1 {
        Place::Assignment(1)
    } else {
        Place::SecondAccess { user: 0, object: 0 }
    }
}

/// The access behind one, in the same round: the user and the object.
fn next_access(user: u8, object: u8, size: u8) -> Option<(u8, u8)>
    requires { (user < size) × (object < size) × (size ≤ 200) }
    ensures { GoesOn size user object result }
{
    if object + 1 < size {
        Some((user, object + 1))
    } else if user + 1 < size {
        Some((user + 1, 0))
    } else {
        None
    }
}

impl Place {
    /// The place behind this one.
    #[tactic(auto, using(crate::proofs::Numbers::one_each, crate::proofs::Numbers::some_each))]
    pub(crate) fn after(self, size: u8) -> Place
        requires { IsIn size self }
        ensures left { TakesFirst (left size self) (request_at self) (left size result) }
        ensures is_in { IsIn size result }
    {
        match self {
            Place::Class => Place::Group(0),
            Place::Group(i) if i + 1 < size => Place::Group(i + 1),
            Place::Group(_) => Place::Folder(0),
            Place::Folder(i) if i + 1 < size => Place::Folder(i + 1),
            Place::Folder(_) => Place::User(0),
            Place::User(i) => Place::Object(i),
            Place::Object(i) if i + 1 < size => Place::User(i + 1),
            Place::Object(_) => Place::Association(first_leaf(size)),
            Place::Association(i) if i + 1 < size => Place::Association(i + 1),
            Place::Association(_) => Place::Session(0),
            Place::Session(i) => Place::Process(i),
            Place::Process(i) if i + 1 < size => Place::Session(i + 1),
            Place::Process(_) => Place::Review(0),
            Place::Review(i) if i + 1 < size.min(REVIEWS) => Place::Review(i + 1),
            Place::Review(_) => Place::FirstAccess { user: 0, object: 0 },
            Place::FirstAccess { user, object } => match next_access(user, object, size) {
                Some((user, object)) => Place::FirstAccess { user, object },
                None => after_first_round(size),
            },
            Place::Assignment(i) if i + 1 < size => Place::Assignment(i + 1),
            Place::Assignment(_) => Place::SecondAccess { user: 0, object: 0 },
            Place::SecondAccess { user, object } => match next_access(user, object, size) {
                Some((user, object)) => Place::SecondAccess { user, object },
                None => Place::Done,
            },
            Place::Done => Place::Done,
        }
    }
}
