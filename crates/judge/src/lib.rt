// Document 01, Answer codes, 6: what makes a state well formed. A register that keeps all bits needs no test.

#![tactic(auto)]

ghost use Rattle.std.specs.Prelude.{map, ◌≡◌};
ghost use Rattle.rules.specs.Channels.{all, channels};
ghost use Rattle.rules.specs.PowerOn.{is_address};
ghost use Rattle.rules.specs.Rows.{registers};
ghost use Rattle.rules.specs.WellFormed.{register_well, value_well, diode_well, well_formed};

use registers::row::{quarters, settings};
use rules::state::State;

fn is_address(a: u8) -> bool
    ensures { result ≡ is_address a }
{
    (a == 76) | (a == 77)
}

fn registers_well(s: State) -> bool
    ensures { result ≡ all (map (register_well s) registers) }
{
    (settings(s.config) == s.config)
        & (quarters(s.remoteoffsetfine) == s.remoteoffsetfine)
        & (quarters(s.remotehighfine) == s.remotehighfine)
        & (quarters(s.remotelowfine) == s.remotelowfine)
}

fn values_well(s: State) -> bool
    ensures { result ≡ all (map (value_well s) channels) }
{
    (s.localvalue <= 255) & (s.remotevalue <= 1023)
}

fn diodes_well(s: State) -> bool
    ensures { result ≡ all (map (diode_well s) channels) }
{
    !(s.localdiodefound | s.localdiodeflag)
}

#[tactic(auto, unfolding(rules::specs::WellFormed::well_formed))]
pub fn well_formed(s: State) -> bool
    ensures { result ≡ well_formed s }
{
    is_address(s.address) & (s.runs <= 4) & registers_well(s) & values_well(s) & diodes_well(s)
}
