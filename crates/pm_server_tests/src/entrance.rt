//! Where connections come.

use crate::sockets::connected;
use pm_server::{Entrance, Notices, Watch, dismiss};
use std::io::{ErrorKind, Read};
use std::test::Fail;

#[test]
fn it_listens_on_127_0_0_1_alone(rt: HostRuntime) -> Result<(), Fail> {
    let entrance = Entrance::open(&rt, rt.alloc(), 0)?;
    let port = entrance.port()?;
    assert!(rt; port != 0);
    assert!(rt; connected(&rt, 1, port).is_ok());
    assert_eq!(rt;
        connected(&rt, 2, port).err().map(|e| e.kind()),
        Some(ErrorKind::ConnectionRefused)
    );
    Ok(())
}

// Ends the server once a connection has found no place, and counts those.
#[derive(Drop)]
struct Ending<'a> {
    watch: &'a Watch,
    closed: u64,
}

impl<'a> Notices for Ending<'a> {
    fn no_place(&mut self, closed: u64) {
        self.closed = self.closed.wrapping_add(closed);
        dismiss(self.watch, &[]);
    }

    fn nearly_full(&mut self, _table: &str, _limit: u64) {}
}

#[test]
fn without_a_place_a_connection_is_closed_and_told_of(rt: HostRuntime) -> Result<(), Fail> {
    let mut entrance = Entrance::open(&rt, rt.alloc(), 0)?;
    let watch = entrance.watch()?;
    let mut client = connected(&rt, 1, entrance.port()?)?;
    let mut ending = Ending {
        watch: &watch,
        closed: 0,
    };
    entrance.accept_all(&rt, &watch, &mut [], &mut ending);
    assert_eq!(rt; ending.closed, 1);
    assert_eq!(rt; client.read(&mut [0u8; 4])?, 0);
    Ok(())
}
