//! The request at a place.

ghost use Rattle.std.specs.Prelude.{◌≡◌, ◌<◌, ◌∷◌, [], IfOk, codes};
ghost use Rattle.pm_generator.specs.Generated.{plain, given, let_read, access};
ghost use Rattle.pm_generator.specs.Left.{request_at, HasGroupBefore};

use crate::names::{
    class_name, folder_container, folder_name, group_container, group_name, object_name, read,
    user_name,
};
use crate::place::Place;
use pm_model::{Body, Command, Kind, Memory, Name, NameList, Request, ReviewOf};
use std::alloc::Global;

/// A request that waits for no version.
fn plain(body: Body) -> Request
    ensures { result ≡ plain body }
{
    Request { after: None, body }
}

/// A command by process 0.
fn given(command: Command) -> Request
    ensures { result ≡ given command }
{
    plain(Body::Admin {
        process: 0,
        command,
    })
}

/// A command that makes an element.
fn create(kind: Kind, name: Name, into: Name) -> Command
    ensures { result ≡ Command.Create kind name into }
{
    Command::Create { kind, name, into }
}

/// The users in the group may read what is in the folder.
fn let_read(i: u8, alloc: Global) -> Result<Request, Memory>
    ensures { IfOk result (λ r. r ≡ let_read i) }
{
    let mut rights = NameList::new(alloc);
    rights.push(read())?;
    Ok(given(Command::Associate {
        ua: group_name(i),
        rights,
        at: folder_name(i),
    }))
}

/// The user reads the object.
fn access(user: u8, object: u8) -> Request
    ensures { result ≡ access user object }
{
    plain(Body::Access {
        process: u32::from(user) + 1,
        right: read(),
        target: object_name(object),
    })
}

/// The request at a place; None where the run is done. It takes memory for an association alone.
pub(crate) fn request_at(place: Place, alloc: Global) -> Result<Option<Request>, Memory>
    requires { HasGroupBefore place }
    ensures { IfOk result (λ r. r ≡ request_at place) }
{
    Ok(Some(match place {
        Place::Class => given(Command::CreatePc { name: class_name() }),
        Place::Group(i) => given(create(Kind::Ua, group_name(i), group_container(i))),
        Place::Folder(i) => given(create(Kind::Oa, folder_name(i), folder_container(i))),
        Place::User(i) => given(create(Kind::User, user_name(i), group_name(i))),
        Place::Object(i) => given(create(Kind::Object, object_name(i), folder_name(i))),
        Place::Association(i) => let_read(i, alloc)?,
        Place::Session(i) => plain(Body::OpenSession { user: user_name(i) }),
        Place::Process(i) => plain(Body::StartProcess {
            session: u32::from(i) + 1,
        }),
        Place::Review(i) => given(Command::Keep {
            of: ReviewOf::Caps(user_name(i)),
        }),
        Place::FirstAccess { user, object } | Place::SecondAccess { user, object } => {
            access(user, object)
        }
        Place::Assignment(i) => given(Command::Assign {
            from: group_name(i),
            to: group_name(i - 1),
        }),
        Place::Done => return Ok(None),
    }))
}
