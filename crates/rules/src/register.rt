// Document 01, Registers: what the commands name.
#[derive(Clone, Copy)]
pub enum Channel {
    Local,
    Remote,
}

// The registers that are written and read back. The fine ones are low bytes, which hold quarters in bits 7 and 6.
#[derive(Clone, Copy)]
pub enum Register {
    Config,
    Rate,
    Hysteresis,
    Consecutive,
    LocalHigh,
    LocalLow,
    LocalTherm,
    RemoteHigh,
    RemoteHighFine,
    RemoteLow,
    RemoteLowFine,
    RemoteOffset,
    RemoteOffsetFine,
    RemoteTherm,
}

// What a command names when it is read.
#[derive(Clone, Copy)]
pub enum Source {
    Stored(Register),
    Value(Channel),
    ValueFine(Channel),
    Status,
    Maker,
    Revision,
    Hole,
}

// What a command names when it is written.
#[derive(Clone, Copy)]
pub enum Target {
    Stored(Register),
    OneShot,
    Nowhere,
}
