// The sink that is standard output.
ghost use Rattle.std.specs.Prelude.{◌≡◌, ◌<◌, ◌≤◌, None, length, IfOk, OnOk, OnErr};
ghost use Rattle.std.specs.Io.{WritesAtMost};
ghost use Rattle.outside_io.specs.Causes.{next_count};

use crate::{Failed, Sink};
use std::io;
use std::io::Write;
use std::marker::Model;

/// Standard output. It tells no content, and has one count of failed puts.
#[derive(Drop)]
pub struct Screen<R> {
    rt: R,
    faults: u64,
}

impl<R> Model for Screen<R> {
    ghost use Rattle.std.specs.Prelude.{ℕ};

    ghost Value = { ℕ };

    ghost view = { λ s. s.faults };
}

impl<R: Print> Screen<R> {
    /// The program's standard output, with no failed put.
    pub fn new(rt: R) -> Self
        ensures { result ≡ 0 }
    {
        Screen { rt, faults: 0 }
    }
}

fn show<R: Print>(rt: &R, piece: &[u8]) -> io::Result<usize>
    ensures bound { WritesAtMost result piece.now }
{
    let mut out = io::writer(rt);
    let count = out.write(piece)?;
    out.flush()?;
    Ok(count)
}

impl<R: Print> Sink for Screen<R> {
    ghost taken = { λ screen. None };

    ghost faults = { λ screen. screen };

    // A refused flush and a write of no byte of a piece that has some are failed puts.
    fn put(&mut self, piece: &[u8]) -> Result<usize, Failed>
        ensures bound { IfOk result (λ count. count ≤ length piece.now) }
        ensures some { IfOk result (λ count. 0 < length piece.now → 0 < count) }
        ensures later { self.old ≤ self.new }
        ensures ok { OnOk result (self.new ≡ self.old) }
        ensures err { OnErr result (self.new ≡ next_count self.old) }
    {
        match show(&self.rt, piece) {
            Ok(count) if count > 0 || piece.is_empty() => Ok(count),
            _ => {
                self.faults = self.faults.saturating_add(1);
                Err(Failed)
            }
        }
    }
}
