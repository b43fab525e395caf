// One chip's state, and the values that are taken out of it. A state holds numbers and flags only: a channel is taken out as a value,
// and put back field by field, since one that is nested is copied as a block (docs/BENCHMARK.md). The registers, the values, the address and
// the run count can hold what code 6 refuses.

// What is given when a state is made, and kept by a reset.
#[derive(Clone, Copy)]
pub struct Given {
    pub address: u8,
}

// A latched status flag beside what its latest comparison found.
#[derive(Clone, Copy)]
pub struct Mark {
    pub found: bool,
    pub flag: bool,
}

// One channel but for its registers: its value, whether it was ever converted, and what comparisons left behind, the flag of THERM and
// the mark of THERM2 among it. A channel with no diode has a clear mark of one.
#[derive(Clone, Copy)]
pub struct ChannelState {
    pub value: u16,
    pub converted: bool,
    pub high: Mark,
    pub low: Mark,
    pub diode: Mark,
    pub therm: bool,
    pub therm2: bool,
}

// What one channel is compared with, in its own codes.
#[derive(Clone, Copy)]
pub struct Limits {
    pub high: u16,
    pub low: u16,
    pub therm: u16,
    pub hysteresis: u16,
}

// The pointer stands last: beside the address the compiler would carry both as one number and take it apart at every event. The THERM2
// marks stand before it, beside each other, since every answer asks for both.
#[derive(Clone, Copy, Default)]
pub struct State {
    pub address: u8,
    pub config: u8,
    pub rate: u8,
    pub hysteresis: u8,
    pub consecutive: u8,
    pub busy: bool,
    pub runs: u8,
    pub latch: bool,
    pub localhigh: u8,
    pub locallow: u8,
    pub localtherm: u8,
    pub localvalue: u16,
    pub localconverted: bool,
    pub localhighfound: bool,
    pub localhighflag: bool,
    pub locallowfound: bool,
    pub locallowflag: bool,
    pub localdiodefound: bool,
    pub localdiodeflag: bool,
    pub localthermflag: bool,
    pub remotehigh: u8,
    pub remotehighfine: u8,
    pub remotelow: u8,
    pub remotelowfine: u8,
    pub remoteoffset: u8,
    pub remoteoffsetfine: u8,
    pub remotetherm: u8,
    pub remotevalue: u16,
    pub remoteconverted: bool,
    pub remotehighfound: bool,
    pub remotehighflag: bool,
    pub remotelowfound: bool,
    pub remotelowflag: bool,
    pub remotediodefound: bool,
    pub remotediodeflag: bool,
    pub remotethermflag: bool,
    pub localtherm2mark: bool,
    pub remotetherm2mark: bool,
    pub pointer: u8,
}
