// What an event asks of this chip. Without a task, by cases on the event alone, a record of one, five and mixed takes 246, 333 and 490
// instructions, over the bars of docs/BENCHMARK.md. The address is asked before any work is done, and reading, which two kinds ask for, is one task.
ghost use Rattle.std.specs.Prelude.{◌≡◌};
ghost use Rattle.chip.specs.Task.{heard_of, asked_of};

use rules::event::{Event, Samples};
use rules::state::State;

#[derive(Clone, Copy)]
pub enum Task {
    Reset,
    Point(u8),
    Write(u8, u8),
    Read(u8),
    Respond,
    Start,
    End(Samples),
    Foreign,
}

fn heard(s: State, address: u8, t: Task) -> Task
    ensures { result ≡ heard_of s address t }
{
    if address == s.address {
        t
    } else {
        Task::Foreign
    }
}

// By cases on the eight forms of an event.
pub fn asked(s: State, e: Event) -> Task
    ensures { result ≡ asked_of s e }
{
    match e {
        Event::Reset => Task::Reset,
        Event::Send { address, command } => heard(s, address, Task::Point(command)),
        Event::Write {
            address,
            command,
            byte,
        } => heard(s, address, Task::Write(command, byte)),
        Event::Read { address, command } => heard(s, address, Task::Read(command)),
        Event::Receive { address } => heard(s, address, Task::Read(s.pointer)),
        Event::Respond => Task::Respond,
        Event::Start => Task::Start,
        Event::End { samples } => Task::End(samples),
    }
}
