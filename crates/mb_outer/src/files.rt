// Texts in real files.
ghost use Rattle.std.specs.Prelude.{◌≡◌, None, false};
ghost use Rattle.std.proofs.Common.{sym, true≢false};
ghost use Rattle.mb_outer.specs.Causes.{StartHasCause, GotHasCause};
ghost use Rattle.mb_outer.specs.machine.Answers.{counted, start_of, got_of};

use crate::counts::count_fault;
use crate::{Got, Library, Start};
use std::fs::File;
use std::io;
use std::io::Read;
use std::marker::Model;
use std::rt::Files;

/// The files under their paths. It doesn't tell what they hold, and it is never sound.
#[derive(Drop)]
pub struct FileLibrary<'a, R: Files> {
    rt: &'a R,
    file: Option<R::File>,
    faults: u64,
}

impl<'a, R: Files> Model for FileLibrary<'a, R> {
    ghost use Rattle.std.specs.Prelude.{is_some};
    ghost use Rattle.mb_outer.specs.FileState.{FileState};

    ghost Value = { FileState };

    ghost view = { λ s. record { started = is_some s.file; faults = s.faults } };
}

impl<'a, R: Files> FileLibrary<'a, R> {
    pub fn new(rt: &'a R) -> FileLibrary<'a, R>
        ensures started { result.started ≡ false }
        ensures faults { result.faults ≡ 0 }
    {
        FileLibrary {
            rt,
            file: None,
            faults: 0,
        }
    }
}

impl<'a, R: Files> Library for FileLibrary<'a, R> {
    ghost use Rattle.std.specs.Prelude.{◌↔◌, IsTrue};
    ghost use Rattle.mb_outer.specs.Causes.{GotWithin};
    ghost use Rattle.mb_outer.specs.Counts.{one_more};

    ghost shelf = { λ _. None };

    ghost rest = { λ _. None };

    ghost faults = { λ s. s.faults };

    ghost sound = { λ _. false };

    ghost sound_tells = { λ s h. absurd (true≢false (sym h)) };

    fn start(&mut self, name: &str) -> Start
        ensures started { IsTrue self.new.started ↔ (result ≡ Start.Started) }
        ensures fault { result ≡ Start.Failed → self.new.faults ≡ one_more self.old.faults }
        ensures cause { StartHasCause self.old.faults self.new.faults result }
    {
        let opened = std::fs::open(self.rt, name);
        let answer = start_answer(&opened, &mut self.faults);
        self.file = opened.ok();
        answer
    }

    // One read of the file: each error is a fault, an interrupted read too.
    fn read(&mut self, into: &mut [u8]) -> Got
        ensures kept { self.new.started ≡ self.old.started }
        ensures idle { self.old.started ≡ false → result ≡ Got.Failed }
        ensures fault { result ≡ Got.Failed → self.new.faults ≡ one_more self.old.faults }
        ensures cause { GotHasCause self.old.faults self.new.faults result }
        ensures bound { GotWithin result into.new }
    {
        if let Some(file) = &mut self.file {
            return read_answer(file.read(into), &mut self.faults);
        }
        count_fault(&mut self.faults);
        Got::Failed
    }
}

// What the opening of a file becomes.
fn start_answer<F>(opened: &io::Result<F>, faults: &mut u64) -> Start
    ensures answer { result ≡ start_of opened.now }
    ensures faults { faults.new ≡ counted faults.old opened.now }
    ensures cause { StartHasCause faults.old faults.new result }
{
    if opened.is_ok() {
        return Start::Started;
    }
    count_fault(faults);
    Start::Failed
}

// What the read of a file becomes.
fn read_answer(read: io::Result<usize>, faults: &mut u64) -> Got
    ensures answer { result ≡ got_of read }
    ensures faults { faults.new ≡ counted faults.old read }
    ensures cause { GotHasCause faults.old faults.new result }
{
    match read {
        Ok(count) => Got::Bytes(count),
        Err(_) => {
            count_fault(faults);
            Got::Failed
        }
    }
}

#[cfg(test)]
mod tests {
    use super::*;
    use std::test::Fail;

    #[test]
    fn reads_a_real_file(rt: HostRuntime) -> Result<(), Fail> {
        let path = "/tmp/mb_outer_reads_a_real_file";
        std::fs::write(&rt, path, "some text")?;
        let mut library = FileLibrary::new(&rt);
        let mut front = [0; 4];
        let mut back = [0; 9];
        assert_eq!(rt; library.read(&mut front), Got::Failed);
        assert_eq!(rt; library.start(path), Start::Started);
        assert_eq!(rt; library.read(&mut front), Got::Bytes(4));
        assert_eq!(rt; library.read(&mut back), Got::Bytes(5));
        assert_eq!(rt; &front, b"some");
        assert_eq!(rt; &back, b" text\0\0\0\0");
        assert_eq!(rt; library.read(&mut back), Got::Bytes(0));
        assert_eq!(rt; library.faults, 1);
        std::fs::remove_file(&rt, path)?;
        assert_eq!(rt; library.start(path), Start::Failed);
        assert_eq!(rt; library.read(&mut back), Got::Failed);
        assert_eq!(rt; library.faults, 3);
        Ok(())
    }

    // A directory can be opened, but a read of it is an error.
    #[test]
    fn a_read_that_errs_is_a_fault(rt: HostRuntime) {
        let mut library = FileLibrary::new(&rt);
        assert_eq!(rt; library.start("/tmp"), Start::Started);
        assert_eq!(rt; library.read(&mut [0; 16]), Got::Failed);
        assert_eq!(rt; library.faults, 1);
    }
}
