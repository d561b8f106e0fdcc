//! Sessions, with answers worked out by hand.
use pm_model::{BadLine, ElementId, Name, NameOf, Refusal, Reply};
use pm_session::Session;
use std::process::Abort;
use std::test::Fail;

// Each element has this name.
#[derive(Drop)]
struct OneName {
    name: Name,
}

impl NameOf for OneName {
    ghost use Rattle.std.specs.Prelude.{true};

    ghost named = { λ names n. true };

    ghost name_at = { λ names n. names.name };

    fn name_of(&self, _id: ElementId) -> Name {
        self.name
    }
}

fn out_is(rt: &impl Abort, session: &Session, bytes: &[u8]) {
    assert_eq!(rt; session.out(), bytes);
}

#[test]
fn replies_are_lines_of_output(rt: HostRuntime) -> Result<(), Fail> {
    let mut session = Session::new(rt.alloc())?;
    out_is(&rt, &session, b"");
    let names = OneName {
        name: Name::new(b"files").ok_or("a name")?,
    };
    session.reply(Some(7), 3, &Reply::Refused(Refusal::NameTaken), &names)?;
    session.bad(None, 4, &BadLine::NotJson)?;
    out_is(
        &rt,
        &session,
        b"{\"id\":7,\"no\":\"name_taken\",\"v\":3}\n{\"no\":\"not_json\",\"v\":4}\n",
    );
    Ok(())
}
