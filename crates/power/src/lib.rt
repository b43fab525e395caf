// Document 01, Registers, Power-on; and the fresh state of an address.

#![tactic(auto)]

ghost use Rattle.std.specs.Prelude.{◌≡◌};
ghost use Rattle.rules.specs.PowerOn.{power_on, made_of};

use rules::answer::{Code, Made};
use rules::state::{Given, State};

// What is 0 at power-on is 0 in the default, the state of all zeros.
pub fn power_on(given: Given) -> State
    ensures { result ≡ power_on given }
{
    State {
        address: given.address,
        rate: 0x08,
        hysteresis: 0x0a,
        consecutive: 0x01,
        localhigh: 0x55,
        localtherm: 0x55,
        remotehigh: 0x55,
        remotetherm: 0x55,
        ..State::default()
    }
}

// A fresh state for 76 or 77; for any other number code 2, and a state of all zeros, which code 6 refuses.
pub fn make(address: i32) -> Made
    ensures { result ≡ made_of address }
{
    match address {
        76 | 77 => Made {
            code: Code::Done,
            state: power_on(Given {
                address: address as u8,
            }),
        },
        _ => Made {
            code: Code::BadField,
            state: State::default(),
        },
    }
}
