//! What lies outside of the program.
ghost use Rattle.std.specs.Prelude.{◌≡◌, refl, ⊤, true, false, IfErr, IfOk};
ghost use Rattle.commands.specs.Devices.{CanCountOneMore};
ghost use Rattle.px86.specs.Worlds.{IsSeenBy, World};

use crate::kept::{Keeps, Kept};
use commands::{Failed, Metered, Source};
use std::io::{Printer, Read};
use std::os::fd::AsFd;
use std::rt::{Files, Stderr, Stdin, Stdout};
use std::time::Clock;
use std::{fs, io};
use talks::{Console, Terminal};

/// Files by their names, and the standard streams.
///
/// Which bytes a real file has, no clause can say. So a device says where it comes from: nothing but `open` gives the file
/// of a name, and nothing but `input` the standard input.
///
/// A file that is opened takes the place of a standard stream that is closed: the program would be read as the steps too. So
/// no file is opened before the streams that a command needs are known to be open.
pub trait Outside {
    /// An opened file.
    type File: Source + Keeps + Drop;
    /// The standard input.
    type Standard: Source + Keeps + Drop;
    /// The standard input and the standard output, as one terminal.
    type Console: Terminal + Drop;
    /// The standard error.
    type Errors: Eprint + Send + Sync + Drop + 'static;
    /// What tells the time.
    type Time: Clock + Send + Sync + Drop + 'static;

    /// The world that it stands for: which file a name opens, what the standard input is, and which streams are open.
    ghost world: { Self → World Self.File Self.Standard Self.Console };

    /// Whether the streams that a command needs are open. It reads the standard input, or it does not.
    fn streams_are_open(&self, reads_input: bool) -> bool
        ensures open { result ≡ true → (world self.now).HasStreams reads_input }
        ensures closed { result ≡ false → (world self.now).LacksStream reads_input };

    /// Opens the file of a name, for a command that reads the standard input, or does not. What is read is kept, where
    /// that is asked for.
    ///
    /// # Errors
    ///
    /// [`Failed`], where there is none that can be opened.
    fn open(&self, name: &str, reads_input: bool, keeps: bool) -> Result<Self::File, Failed>
        requires streams { (world self.now).HasStreams reads_input }
        ensures file { IfOk result (λ file. (world self.now).IsFile name.now file) }
        ensures fresh { IfOk result (λ file. CanCountOneMore (Self.File.device file)) }
        ensures refused { IfErr result (λ _. (world self.now).CannotOpen name.now) };

    /// The standard input. What is read is kept, where that is asked for.
    fn input(&self, keeps: bool) -> Self::Standard
        ensures input { (world self.now).IsStandard result }
        ensures fresh { CanCountOneMore (Self.Standard.device result) };

    /// The standard input and the standard output, as one terminal, before anything goes on at it.
    fn console(&self) -> Self::Console
        ensures console { (world self.now).IsConsole result }
        ensures ready { Self.Console.is_ready result };

    /// The standard error.
    fn errors(&self) -> Self::Errors;

    /// What tells the time.
    fn clock(&self) -> Self::Time;

    /// Why the file of a name cannot be opened, or not be read, where it cannot now, for a command that reads the standard
    /// input, or does not. It is asked after a fault. Of a pipe or a device nothing is asked: a read could wait, or take what
    /// another is to read.
    fn trouble(&self, name: &str, reads_input: bool) -> Option<io::Error>
        requires streams { (world self.now).HasStreams reads_input };

    /// The world sees a file and the standard input as these sources are seen, and the console as this terminal is.
    ghost seen: { (it : Self) → IsSeenBy (world it) Self.File.device Self.Standard.device Self.Console.went };
}

/// The files and the standard streams of the machine on which the program runs.
#[derive(Drop)]
pub struct Host<'a, R> {
    /// The runtime.
    pub rt: &'a R,
    /// The standard input.
    pub input: Stdin,
    /// The standard output.
    pub output: Stdout,
    /// The standard error.
    pub errors: Stderr,
}

/// Why a file gives no byte, where that is not its end.
fn read_trouble<F: Read + Drop>(mut file: F) -> Option<io::Error> {
    let mut byte = [0];
    file.read(&mut byte).err()
}

/// Whether a descriptor is open: one that is closed has no second descriptor.
fn is_open<F: AsFd>(stream: &F) -> bool {
    stream.as_fd().try_clone_to_owned().is_ok()
}

/// Why a file or a folder cannot be opened, or not be read.
fn trouble_of<R: Files>(rt: &R, name: &str) -> Option<io::Error> {
    match fs::open(rt, name) {
        Ok(file) => read_trouble(file),
        Err(error) => Some(error),
    }
}

impl<'a, R: Files + Input + Print + AllocGlobal + Clock + Copy + Send + Sync + 'static> Outside
    for Host<'a, R> {
    type File = Kept<Metered<R::File>>;

    type Standard = Kept<Metered<R::Reader>>;

    type Console = Console<Metered<R::Reader>, Metered<Printer<'a, R>>>;

    type Errors = Stderr;

    type Time = R;

    ghost world = { λ _. record {
      file = ⟦<Kept<Metered<R::File>> as Source>⟧.device;
      standard = ⟦<Kept<Metered<R::Reader>> as Source>⟧.device;
      went = ⟦<Console<Metered<R::Reader>, Metered<Printer<'a, R>>> as Terminal>⟧.went;
      IsFile = λ _ _. ⊤;
      CannotOpen = λ _. ⊤;
      IsStandard = λ _. ⊤;
      IsConsole = λ _. ⊤;
      HasStreams = λ _. ⊤;
      LacksStream = λ _. ⊤;
    } };

    ghost seen = { λ _. (refl, refl, λ a b talk went. went) };

    fn streams_are_open(&self, reads_input: bool) -> bool {
        is_open(&self.output) && (!reads_input || is_open(&self.input))
    }

    fn open(
        &self,
        name: &str,
        _reads_input: bool,
        keeps: bool,
    ) -> Result<Kept<Metered<R::File>>, Failed> {
        match fs::open(self.rt, name) {
            Ok(file) => Ok(Kept::new(self.rt.alloc(), Metered::new(file), keeps)),
            Err(_) => Err(Failed),
        }
    }

    fn input(&self, keeps: bool) -> Kept<Metered<R::Reader>> {
        Kept::new(self.rt.alloc(), Metered::new(self.rt.reader()), keeps)
    }

    fn console(&self) -> Console<Metered<R::Reader>, Metered<Printer<'a, R>>> {
        Console {
            source: Metered::new(self.rt.reader()),
            sink: Metered::new(io::writer(self.rt)),
        }
    }

    fn errors(&self) -> Stderr {
        self.errors
    }

    fn clock(&self) -> R {
        *self.rt
    }

    fn trouble(&self, name: &str, _reads_input: bool) -> Option<io::Error> {
        match fs::metadata(self.rt, name) {
            Ok(found) if found.is_file() || found.is_dir() => trouble_of(self.rt, name),
            Ok(_) => None,
            Err(error) => Some(error),
        }
    }
}
