// Document 01, Status, ALERT, THERM: ALERT, pin 6 by its role, and THERM.
ghost use Rattle.std.specs.Prelude.{◌≡◌};
ghost use Rattle.rules.specs.Lines.{alert_low, pin_line, therm2_low, therm_line};

use registers::bits::{is_masked, is_therm2};
use rules::state::State;

// ALERT, as an alert response and a board ask it: never low in the THERM2 role.
pub fn alert_low(s: State) -> bool
    ensures { result ≡ alert_low s }
{
    s.latch & !is_masked(s.config) & !is_therm2(s.config)
}

fn therm2_low(s: State) -> bool
    ensures { result ≡ therm2_low s }
{
    s.localtherm2mark | s.remotetherm2mark
}

// Pin 6, which answers report: THERM2 where configuration bit 5 is set, whatever bit 7 says; otherwise ALERT.
pub fn pin_line(s: State) -> bool
    ensures { result ≡ pin_line s }
{
    if is_therm2(s.config) {
        !therm2_low(s)
    } else {
        !alert_low(s)
    }
}

pub fn therm_line(s: State) -> bool
    ensures { result ≡ therm_line s }
{
    !(s.localthermflag | s.remotethermflag)
}
