// Of a register's row what a write needs: the bits that it keeps, and whether it compares in standby.
ghost use Rattle.std.specs.Prelude.{◌≡◌};
ghost use Rattle.rules.specs.Rows.{Bits7652, Bits76, kept_bits, row_of, trim_of};

use rules::register::Register;

// Bits 7, 6, 5 and 2.
pub fn settings(b: u8) -> u8
    ensures { result ≡ kept_bits Bits7652 b }
{
    b / 32 * 32 + b / 4 % 2 * 4
}

// Bits 7 and 6.
pub fn quarters(b: u8) -> u8
    ensures { result ≡ kept_bits Bits76 b }
{
    b / 64 * 64
}

pub fn trim(register: Register, b: u8) -> u8
    ensures { result ≡ trim_of register b }
{
    match register {
        Register::Config => settings(b),
        Register::Rate => b,
        Register::Hysteresis => b,
        Register::Consecutive => b,
        Register::LocalHigh => b,
        Register::LocalLow => b,
        Register::LocalTherm => b,
        Register::RemoteHigh => b,
        Register::RemoteHighFine => quarters(b),
        Register::RemoteLow => b,
        Register::RemoteLowFine => quarters(b),
        Register::RemoteOffset => b,
        Register::RemoteOffsetFine => quarters(b),
        Register::RemoteTherm => b,
    }
}

pub fn compares(register: Register) -> bool
    ensures { result ≡ (row_of register).compares }
{
    match register {
        Register::Config => false,
        Register::Rate => false,
        Register::Hysteresis => true,
        Register::Consecutive => false,
        Register::LocalHigh => true,
        Register::LocalLow => true,
        Register::LocalTherm => true,
        Register::RemoteHigh => true,
        Register::RemoteHighFine => true,
        Register::RemoteLow => true,
        Register::RemoteLowFine => true,
        Register::RemoteOffset => false,
        Register::RemoteOffsetFine => false,
        Register::RemoteTherm => true,
    }
}
