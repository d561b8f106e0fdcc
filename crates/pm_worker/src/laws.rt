//! Laws of turns: what one that ends a connection comes to, and what turns come to together. Each function does
//! nothing, and its contract is proved.

ghost use Rattle.std.specs.Prelude.{◌≡◌, ◌≢◌, List};
ghost use Rattle.pm_model.specs.Causes.{Rose};
ghost use Rattle.pm_model.specs.Lines.{shape};
ghost use Rattle.pm_session.specs.Streams.{Streams};
ghost use Rattle.pm_io.specs.Wires.{Wire};
ghost use Rattle.pm_house.specs.Desks.{NeverFails};
ghost use Rattle.pm_house.specs.Seated.{Seated};
ghost use Rattle.pm_worker.specs.Told.{Told, Tells};
ghost use Rattle.pm_worker.specs.Turns.{Serves};
ghost use Rattle.pm_worker.specs.Talks.{Finishes, IsUnhindered, Talks};
ghost use Rattle.pm_worker.specs.declared.turns.Turn.{Turn};
ghost use Rattle.pm_worker.specs.declared.turns.Turn.TheVariants.{Ended, Memory};

use pm_model::Keep;

/// A turn that has ended a connection has answered each whole line of its input, and the link has each reply.
pub fn ended_finishes<K: Keep>()
    ensures { (s t : Seated) (a b : Streams) (v w : Wire) → Serves (NeverFails K.faults) s t a b v w Ended → Finishes (NeverFails K.faults) s t a v w }
{}

/// Where no count of the link rose, a turn has ended the connection, has had its share, or had no memory.
pub fn quiet_link_hinders_nothing<K: Keep>()
    ensures { (s t : Seated) (a b : Streams) (v w : Wire) (turn : Turn) → Serves (NeverFails K.faults) s t a b v w turn
        → ¬ Rose v.faults w.faults → ¬ Rose v.read_agains w.read_agains → ¬ Rose v.write_agains w.write_agains → IsUnhindered turn }
{}

/// A turn with memory is all that the connection was told so far.
pub fn turn_talks<K: Keep>()
    ensures { (s t : Seated) (a b : Streams) (v w : Wire) (turn : Turn) → turn ≢ Memory → Serves (NeverFails K.faults) s t a b v w turn
        → Talks (NeverFails K.faults) s t a b v w }
{}

/// Another turn after it, between which the seat has answered lines of others.
pub fn talks_join<K: Keep>()
    ensures { (r s t u : Seated) (a b c : Streams) (v w x : Wire) (others : List Told) → shape b.waiting ≡ b.waiting
        → Talks (NeverFails K.faults) r s a b v w → Tells (NeverFails K.faults) s t others → Talks (NeverFails K.faults) t u b c w x
        → Talks (NeverFails K.faults) r u a c v x }
{}
