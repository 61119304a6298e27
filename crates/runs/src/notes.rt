// What one end has sent and the other has taken of it.
ghost use Rattle.std.specs.Prelude.{◌<◌};

use crate::numbers::{add, rem, sub};

#[derive(Clone, Copy, Default)]
pub struct Note {
    // How many were sent before it.
    pub number: u64,
    pub counter: u64,
    // How many bytes its sender had moved.
    position: u64,
    // A flag and no Option: a note that was taken stays whole, and can be taken again.
    pub taken: bool,
}

#[derive(Clone, Copy, Default)]
pub struct Notes {
    // No heap: the last 16, each in the place of the 16th before it.
    kept: [Note; 16],
    pub sent: u64,
    // The number and the position of the note that was taken last: 0 before the first.
    last: u64,
    pub heard: u64,
}

impl Notes {
    pub fn send(mut self, counter: u64, position: u64) -> Notes {
        let number = self.sent;
        self.keep(Note {
            number,
            counter,
            position,
            taken: false,
        });
        self.sent = add(number, 1);
        self
    }

    // Any note that is kept and not older than the last one taken; none where none was sent.
    pub fn pick(self, random: u64) -> Option<Note> {
        if self.sent == 0 {
            return None;
        }
        let first = self.last.max(self.sent.saturating_sub(16));
        let number = add(first, rem(random, sub(self.sent, first)));
        Some(self.kept[place(number)])
    }

    pub fn take(mut self, note: Note) -> Notes {
        self.keep(Note {
            taken: true,
            ..note
        });
        self.last = note.number;
        self.heard = note.position;
        self
    }

    fn keep(&mut self, note: Note) {
        self.kept[place(note.number)] = note;
    }
}

fn place(number: u64) -> usize
    ensures { result < 16 }
{
    (number % 16) as usize
}
