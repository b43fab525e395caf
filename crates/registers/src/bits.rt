// The configuration's four bits, each a name for its place: one function of a place would leave the places to the callers.
ghost use Rattle.std.specs.Prelude.{◌≡◌};
ghost use Rattle.rules.specs.Configuration.{masked, standby, chooses_therm2, extended};

pub fn is_masked(config: u8) -> bool
    ensures { result ≡ masked config }
{
    config / 128 % 2 == 1
}

pub fn is_standby(config: u8) -> bool
    ensures { result ≡ standby config }
{
    config / 64 % 2 == 1
}

pub fn is_therm2(config: u8) -> bool
    ensures { result ≡ chooses_therm2 config }
{
    config / 32 % 2 == 1
}

pub fn is_extended(config: u8) -> bool
    ensures { result ≡ extended config }
{
    config / 4 % 2 == 1
}
