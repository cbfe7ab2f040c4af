// Books as files of the current folder.
ghost use Rattle.std.specs.Prelude.{◌≡◌, ◌≤◌, None, length, IfOk, OnOk, OnErr};
ghost use Rattle.std.specs.Io.{ReadsAtMost};
ghost use Rattle.outside_io.specs.Causes.{next_count};

use crate::{Failed, Library};
use std::fs::File;
use std::io;
use std::io::{Read, Seek, SeekFrom};
use std::marker::Model;
use std::rt::Files;

/// The files of the current folder: a name is a path from there. It tells no content, and has one
/// count of failed fetches for all names.
#[derive(Drop)]
pub struct Folder<R> {
    rt: R,
    faults: u64,
}

impl<R> Model for Folder<R> {
    ghost use Rattle.std.specs.Prelude.{ℕ};

    ghost Value = { ℕ };

    ghost view = { λ f. f.faults };
}

impl<R: Files> Folder<R> {
    /// The folder that the program runs in, with no failed fetch.
    pub fn new(rt: R) -> Self
        ensures { result ≡ 0 }
    {
        Folder { rt, faults: 0 }
    }
}

fn read_at<R: Files>(rt: &R, name: &str, at: u64, into: &mut [u8]) -> io::Result<usize>
    ensures bound { ReadsAtMost result into.new }
{
    let mut file = File::open(rt, name)?;
    file.seek(SeekFrom::Start(at))?;
    file.read(into)
}

impl<R: Files> Library for Folder<R> {
    ghost book = { λ folder name. None };

    ghost faults = { λ folder name. folder };

    fn fetch(&mut self, name: &str, at: u64, into: &mut [u8]) -> Result<usize, Failed>
        ensures bound { IfOk result (λ count. count ≤ length into.old) }
        ensures later { self.old ≤ self.new }
        ensures ok { OnOk result (self.new ≡ self.old) }
        ensures err { OnErr result (self.new ≡ next_count self.old) }
    {
        match read_at(&self.rt, name, at, into) {
            Ok(count) => Ok(count),
            Err(_) => {
                self.faults = self.faults.saturating_add(1);
                Err(Failed)
            }
        }
    }
}
