// Recognisers of reports: what they are held to, none, and focus.
ghost use Rattle.std.specs.Prelude.{◌≡◌, ℕ, List};
ghost use Rattle.events.specs.declared.event.Seen.{Seen};
ghost use Rattle.events.specs.declared.event.Seen.TheVariants.{NoReport, Found};
ghost use Rattle.events.specs.Steady.{Steady};
ghost use Rattle.events.specs.Focus.{focus, focus_report};
ghost use Rattle.std.proofs.Common.{rules};

use crate::event::{Report, Seen};

// Looks at bytes for a report at their front. `seen` is what it answers; `Steady` what its answers keep to at bytes that
// start with ESC. A decoder asks at those alone.
pub trait Recogniser {
    ghost seen: { Self → List ℕ → Seen };

    fn look(&self, bytes: &[u8]) -> Seen
        ensures { result ≡ seen self.now bytes.now };

    ghost steady: { (x : Self) → Steady (seen x) };
}

// No bytes are a report.
#[derive(Clone, Copy)]
pub struct NoReports;

impl Recogniser for NoReports {
    ghost seen = { λ _ _. NoReport };

    ghost steady = { Prim.search rules };

    fn look(&self, _bytes: &[u8]) -> Seen {
        Seen::NoReport
    }
}

// The kind of a report of focus.
const FOCUS: u16 = 1;

// Whether the terminal has the focus: ESC [ I as it comes, ESC [ O as it goes.
#[derive(Clone, Copy)]
pub struct Focus;

// The report of a focus that came, 1, or went, 0.
fn focus_report(came: u16) -> Seen
    ensures { result ≡ Found 3 (focus_report came) }
{
    Seen::Found(
        3,
        Report {
            kind: FOCUS,
            first: came,
            second: 0,
        },
    )
}

impl Recogniser for Focus {
    ghost seen = { λ _. focus };

    ghost steady = { Prim.search rules };

    fn look(&self, bytes: &[u8]) -> Seen {
        match bytes {
            b"\x1b" => Seen::More,
            b"\x1b[" => Seen::More,
            [0x1b, b'[', b'I', ..] => focus_report(1),
            [0x1b, b'[', b'O', ..] => focus_report(0),
            _ => Seen::NoReport,
        }
    }
}
