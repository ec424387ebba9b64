ghost use Rattle.std.specs.Prelude.{◌≡◌, ◌++◌, [], ◌∷◌, List, ℕ, Bool, true, false, Option, IfOk, OnOk, OnErr, is_some};
ghost use Rattle.std.specs.Option.{option_map};
ghost use Rattle.outside_io.specs.Faults.{HasCause};
ghost use Rattle.link_doors.specs.Doors.{Comes};

use outside_io::{Failed, Link};

/// What gives links, one at a time: the next comes only once the last was given back.
///
/// A new door is closed, with no link out. Once it is open it stays open. A door may tell which
/// links still come and which were given back; whether it tells them never changes. It keeps a
/// count of faults, which never falls and stays at 2^64 - 1 once it is there.
pub trait Door {
    type Link: Link;

    /// The links that still come, first the next, where the door tells them.
    ghost coming: { Self → Option (List Self.Link) };

    /// The links that were given back, in that order, where the door tells them.
    ghost returned: { Self → Option (List Self.Link) };

    /// Whether the door was opened.
    ghost is_open: { Self → Bool };

    /// Whether a link was given and not given back yet.
    ghost is_out: { Self → Bool };

    /// How many calls failed.
    ghost door_faults: { Self → ℕ };

    /// Opens the door at a port. The links that come, those given back and whether one is out stay
    /// as they were. `Failed`: the count of faults rose, and a door that was closed is still closed,
    /// one that was open still open.
    fn open(&mut self, port: u16) -> Result<(), Failed>
        ensures opened { OnOk result (is_open self.new ≡ true) }
        ensures failed { OnErr result (is_open self.new ≡ is_open self.old) }
        ensures out { is_out self.new ≡ is_out self.old }
        ensures coming { coming self.new ≡ coming self.old }
        ensures returned { returned self.new ≡ returned self.old }
        ensures cause { HasCause (door_faults self.old) (door_faults self.new) result };

    /// Gives the next link of an open door with none out; `None`: no more links come, now and
    /// later. A link is out then exactly where one was given; the door stays open.
    /// `Failed`: the count of faults rose, and the links that come stay as they were.
    fn next(&mut self) -> Result<Option<Self::Link>, Failed>
        requires open { is_open self.old ≡ true }
        requires none_out { is_out self.old ≡ false }
        ensures given { IfOk result (λ link. Comes (coming self.old) (coming self.new) link) }
        ensures failed { OnErr result (coming self.new ≡ coming self.old) }
        ensures out { IfOk result (λ link. is_out self.new ≡ is_some link) }
        ensures none_out { OnErr result (is_out self.new ≡ false) }
        ensures open { is_open self.new ≡ true }
        ensures returned { returned self.new ≡ returned self.old }
        ensures cause { HasCause (door_faults self.old) (door_faults self.new) result };

    /// Takes back the link that is out: it is the last of those given back. It cannot be refused.
    fn give_back(&mut self, link: Self::Link)
        requires { is_out self.old ≡ true }
        ensures out { is_out self.new ≡ false }
        ensures returned { returned self.new ≡ option_map (λ links. links ++ link ∷ []) (returned self.old) }
        ensures coming { coming self.new ≡ coming self.old }
        ensures open { is_open self.new ≡ is_open self.old }
        ensures faults { door_faults self.new ≡ door_faults self.old };
}
