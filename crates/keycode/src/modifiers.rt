// Sets of modifiers: a number whose bits are the members.
ghost use Rattle.std.specs.Prelude.{◌≡◌, ◌≤◌, ◌==◌};
ghost use Rattle.keycode.specs.Members.{members};
ghost use Rattle.keycode.specs.Modifiers.{has, without, unplaced, xterm_sum};

// SHIFT, ALT, CTRL and SUPER, and seven that say on which side of the keyboard a modifier is held.
#[derive(Clone, Copy, PartialEq, Eq, Debug)]
pub struct Modifiers(pub u16);

impl Modifiers {
    pub const SHIFT: Modifiers = Modifiers(1);

    pub const ALT: Modifiers = Modifiers(2);

    pub const CTRL: Modifiers = Modifiers(4);

    pub const SUPER: Modifiers = Modifiers(8);

    pub const LEFT_ALT: Modifiers = Modifiers(16);

    pub const RIGHT_ALT: Modifiers = Modifiers(32);

    pub const LEFT_CTRL: Modifiers = Modifiers(64);

    pub const RIGHT_CTRL: Modifiers = Modifiers(128);

    pub const LEFT_SHIFT: Modifiers = Modifiers(256);

    pub const RIGHT_SHIFT: Modifiers = Modifiers(512);

    pub const ENHANCED_KEY: Modifiers = Modifiers(1024);

    // The largest set: all eleven.
    pub const ALL: u16 = 2047;

    // The eleven members, in the order of their numbers.
    pub fn members() -> [Modifiers; 11]
        ensures { result ≡ members }
    {
        [
            Modifiers::SHIFT,
            Modifiers::ALT,
            Modifiers::CTRL,
            Modifiers::SUPER,
            Modifiers::LEFT_ALT,
            Modifiers::RIGHT_ALT,
            Modifiers::LEFT_CTRL,
            Modifiers::RIGHT_CTRL,
            Modifiers::LEFT_SHIFT,
            Modifiers::RIGHT_SHIFT,
            Modifiers::ENHANCED_KEY,
        ]
    }

    pub fn is_empty(self) -> bool
        ensures { result ≡ (self.0 == 0) }
    {
        self == Modifiers(0)
    }

    // Whether all members of the other set are in this one.
    pub fn contains(self, other: Modifiers) -> bool
        ensures { result ≡ has self.0 other.0 }
    {
        self.0 & other.0 == other.0
    }

    // The set less the members of the other.
    pub fn remove(self, other: Modifiers) -> Modifiers
        ensures { result.0 ≡ without self.0 other.0 }
    {
        let shared = self.0 & other.0;
        Modifiers(self.0 - shared)
    }

    // The set less the seven that name a side: terminals do not send them.
    pub fn remove_positional_mods(self) -> Modifiers
        ensures { result.0 ≡ unplaced self.0 }
    {
        Modifiers(self.0 % 16)
    }

    // What a terminal adds to 1 for the modifiers that a sequence's parameter names.
    pub fn encode_xterm(self) -> u8
        ensures value { result ≡ xterm_sum self.0 }
        ensures most { result ≤ 7 }
    {
        let (shift, alt, ctrl) = (
            self.contains(Modifiers::SHIFT),
            self.contains(Modifiers::ALT),
            self.contains(Modifiers::CTRL),
        );
        shift as u8 + 2 * alt as u8 + 4 * ctrl as u8
    }
}
