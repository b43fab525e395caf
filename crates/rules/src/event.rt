// Document 01, Events: an event as it arrives, four signed numbers.
#[derive(Clone, Copy)]
pub struct Numbers {
    pub kind: i32,
    pub a: i32,
    pub b: i32,
    pub c: i32,
}

// What a conversion measured: a sample of each channel, and whether the remote diode was open.
#[derive(Clone, Copy)]
pub struct Samples {
    pub local: i16,
    pub remote: i16,
    pub broken: bool,
}

// An event, once checked, is one of eight forms.
#[derive(Clone, Copy)]
pub enum Event {
    Reset,
    Send { address: u8, command: u8 },
    Write { address: u8, command: u8, byte: u8 },
    Read { address: u8, command: u8 },
    Receive { address: u8 },
    Respond,
    Start,
    End { samples: Samples },
}
