//! Implements `mwinit`: makes a tenant's file with words that are 0, or with those of a dump, and syncs it.
//!
//! Used by: `main`. docs/OPERATING tells its form, its notes and its statuses; scripts/check-stories,
//! scripts/check-refusals and others expect the notes: change them together.
ghost use Rattle.std.specs.Prelude.{◌≤◌, IfOk, IfSome};
ghost use Rattle.mw_words.specs.declared.limits.TheConstants.{MAX_WORDS};
ghost use Rattle.mw_record.specs.declared.layout.TheConstants.{FIRST_PLACES};
ghost use Rattle.mwinit.specs.Dump.{IsFileOf};

use crate::dump::DumpFault;
use crate::dumped_file::{file_of_dump, file_of_zeros};
use clap::ArgMatches;
use clap::builder::ValueParser;
use clap::error::ErrorKind;
use mw_main::{Argument, CommandLine, PLACE, TEXT};
use mw_record::{FIRST_PLACES, size};
use mw_words::MAX_WORDS;
use std::alloc::{AllocError, Global};
use std::fs::{File, OpenOptions};
use std::io::{self, Read, Write};
use std::os::unix::fs::OpenOptionsExt;
use std::path::Path;
use std::rt::Files;
use thiserror::Error;

/// The file mode of a new file: only its owner may read and write it.
const OWN_ONLY: u32 = 0o600;

/// How many bytes of a dump are read. None has so many: 4,096 words and 1,024 entries have lines of less than 32 bytes.
const MAX_DUMP: u64 = 262_144;

/// What the help ends with.
const AFTER_HELP: &str = "Example: mwinit t.mw 1000 4
Documents: docs/OPERATING.md beside README.md, or below /usr/share/doc/mondlexi";

// The help has these numbers.
const _: () = prove!(MAX_WORDS == 4096);

const _: () = prove!(FIRST_PLACES == 32);

/// The command line of `mwinit`.
fn command_line() -> CommandLine {
    CommandLine {
        name: "mwinit",
        about: "Makes a file of words, all 0 or those of a dump.",
        arguments: &ARGUMENTS,
        after_help: AFTER_HELP,
    }
}

static ARGUMENTS: [Argument; 4] = [
    Argument {
        name: "from",
        value: &["DUMP"],
        help: "what mwshow --words printed of the file whose words it gets",
        ..TEXT
    },
    Argument {
        name: "PATH",
        help: "the file to make",
        ..PLACE
    },
    Argument {
        name: "WORDS",
        parser: ValueParser::Signed(1, MAX_WORDS as i64),
        help: "how many words it has, 1 to 4096",
        ..PLACE
    },
    Argument {
        name: "PLACES",
        parser: ValueParser::Signed(1, FIRST_PLACES as i64),
        help: "how many changes it can hold at a time, 1 to 32",
        ..PLACE
    },
];

/// What is told before the system's error if the dump doesn't exist, may not be read, or a call of the system on it
/// failed.
const NO_DUMP: &str = "cannot read the dump\nmwinit: ";

/// The same if the file exists already, or a call of the system on it failed.
const NO_FILE: &str = "cannot make\nmwinit: the file: ";

/// The same if a call of the system on the file's folder failed. The file was removed.
const NO_FOLDER: &str = "cannot make\nmwinit: its folder: ";

/// The same if the output takes no more.
const NO_OUTPUT: &str = "cannot make\nmwinit: standard output: ";

/// Tells why no file was made.
#[derive(Debug, Drop, Error)]
enum InitFault {
    /// The system failed so, and this is told before it.
    #[error("mwinit: {0}{1}")]
    System(&'static str, io::Error),
    /// No file is made of this dump.
    #[error("{0}")]
    Dump(DumpFault),
    /// Memory was refused.
    #[error("mwinit: cannot make\nmwinit: memory")]
    Memory,
}

/// The path and the size of a new file, and the path of the dump whose words it gets.
#[derive(Drop)]
struct NewFile<'a> {
    path: &'a str,
    dump: Option<&'a str>,
    words: u16,
    places: u16,
    ghost some_word: { 1 ≤ words },
    ghost words_fit: { words ≤ MAX_WORDS },
    ghost some_place: { 1 ≤ places },
    ghost places_fit: { places ≤ FIRST_PLACES },
}

/// Makes the file that the command line `args` asks for. Its first argument is the program's own name.
///
/// The form is `mwinit [--from DUMP] PATH WORDS PLACES`, with 1 to [`MAX_WORDS`] words, all 0, and 1 to
/// [`FIRST_PLACES`] record places. With a dump the first words are those of the dump, by [`file_of_dump`].
/// Before it writes the bytes, it checks that they are read as such a file. It syncs the file and its folder, and then
/// writes `made SIZE` to `out`. The file is locked until it returns.
///
/// Gives the exit status: 0 if the file was made; 1 if it couldn't be made, because it exists, a call
/// failed, memory was refused, or the dump is refused; 2 if the command line is wrong. It writes what went
/// wrong to `err`. If the dump is refused, nothing was touched.
pub fn init<R: Files<File = File> + AllocGlobal, O: Write, E: Write>(
    rt: &R,
    args: &[String],
    out: &mut O,
    err: &mut E,
) -> u8 {
    match read_args(rt.alloc(), args) {
        Ok(file) => match make(rt, &file, out) {
            Ok(()) => 0,
            Err(fault) => tell(&fault, err),
        },
        Err(fault) => refuse(&fault, out, err),
    }
}

/// Writes why a command line asks for no file, or the help or the version, if it asks for one. Gives the exit status.
fn refuse<O: Write, E: Write>(fault: &clap::Error, out: &mut O, err: &mut E) -> u8 {
    if let ErrorKind::OutOfMemory = fault.kind() {
        return tell(&InitFault::Memory, err);
    }
    let status = command_line().tell(fault, out, err);
    if let ErrorKind::ValueValidation = fault.kind() {
        let _ = writeln!(
            err,
            "mwinit: WORDS is 1 to {MAX_WORDS}, PLACES 1 to {FIRST_PLACES}"
        );
    }
    status
}

/// Writes why no file was made. Gives the exit status.
fn tell<E: Write>(fault: &InitFault, err: &mut E) -> u8 {
    let _ = writeln!(err, "{fault}");
    1
}

/// Makes the file, and writes `made SIZE` to `out`.
fn make<R: Files<File = File> + AllocGlobal, O: Write>(
    rt: &R,
    file: &NewFile<'_>,
    out: &mut O,
) -> Result<(), InitFault> {
    let bytes = contents(rt, file)?;
    // The lock is held until `_made` is closed at the end of this function.
    let _made = match write_file(rt, file, &bytes) {
        Ok(made) => made,
        Err(fault) => return Err(InitFault::System(NO_FILE, fault)),
    };
    finish(rt, file, out)
}

/// Syncs the folder of a file that was made, and tells its size.
fn finish<R: Files<File = File>, O: Write>(
    rt: &R,
    file: &NewFile<'_>,
    out: &mut O,
) -> Result<(), InitFault> {
    if let Err(fault) = sync_folder(rt, file.path) {
        // A crash may lose the file's name, so nobody may serve it.
        let _ = rt.remove_file(file.path);
        return Err(InitFault::System(NO_FOLDER, fault));
    }
    match writeln!(out, "made {}", size(file.words, file.places)) {
        Ok(()) => Ok(()),
        Err(fault) => Err(InitFault::System(NO_OUTPUT, fault)),
    }
}

impl From<AllocError> for InitFault {
    fn from(_: AllocError) -> Self {
        InitFault::Memory
    }
}

impl From<DumpFault> for InitFault {
    fn from(fault: DumpFault) -> Self {
        InitFault::Dump(fault)
    }
}

fn read_args<'a>(alloc: Global, args: &'a [String]) -> Result<NewFile<'a>, clap::Error> {
    let matches = command_line().matches(alloc, args)?;
    match new_file_of(&matches) {
        Some(file) => Ok(file),
        None => Err(clap::Error::from(AllocError)),
    }
}

/// Gives the file that the arguments ask for.
fn new_file_of<'a>(matches: &ArgMatches<'a>) -> Option<NewFile<'a>> {
    let path = matches.get_str("PATH")?;
    let dump = matches.get_str("from");
    let words = number_of(matches, "WORDS", MAX_WORDS)?;
    let places = number_of(matches, "PLACES", FIRST_PLACES)?;
    Some(NewFile {
        path,
        dump,
        words,
        places,
    })
}

/// Gives the number of an argument, 1 to `most`. The argument's parser checks the range too.
fn number_of(matches: &ArgMatches<'_>, name: &str, most: u16) -> Option<u16>
    ensures { IfSome result (λ number. (1 ≤ number) × (number ≤ most)) }
{
    matches
        .get_one::<u16>(name)
        .filter(|number| (1..=most).contains(number))
}

/// Gives the bytes of the new file: with the words of the dump, if there is one, or zeros. It only reads.
fn contents<R: Files<File = File> + AllocGlobal>(
    rt: &R,
    file: &NewFile<'_>,
) -> Result<Vec<u8>, InitFault>
    ensures is_file { IfOk result (λ bytes. IsFileOf file.now.dump file.now.words file.now.places bytes.items) }
{
    match file.dump {
        Some(path) => {
            let text = read_text(rt, path)?;
            Ok(file_of_dump(rt.alloc(), &text, file.words, file.places)?)
        }
        None => Ok(file_of_zeros(rt.alloc(), file.words, file.places)?),
    }
}

/// Reads the text of a dump. Of a longer text than any dump has it reads the front.
fn read_text<R: Files<File = File> + AllocGlobal>(
    rt: &R,
    path: &str,
) -> Result<Vec<u8>, InitFault> {
    let file = match File::open(rt, path) {
        Ok(file) => file,
        Err(fault) => return Err(InitFault::System(NO_DUMP, fault)),
    };
    let mut text = Vec::new(rt.alloc());
    match file.take(MAX_DUMP).read_to_end(&mut text) {
        Ok(_) => Ok(text),
        Err(fault) if fault.kind() == io::ErrorKind::OutOfMemory => Err(InitFault::Memory),
        Err(fault) => Err(InitFault::System(NO_DUMP, fault)),
    }
}

/// Makes a new file that only its owner may read and write, locks it, writes these bytes and syncs it. After a
/// fault it removes the file that it made, but never one that existed before.
fn write_file<R: Files<File = File>>(rt: &R, file: &NewFile<'_>, bytes: &[u8]) -> io::Result<File>
    requires is_file { IsFileOf file.now.dump file.now.words file.now.places bytes.now }
{
    let mut options = OpenOptions::new();
    options.write(true).create_new(true).mode(OWN_ONLY);
    let mut made = options.open(rt, file.path)?;
    match write_contents(&mut made, bytes) {
        Ok(()) => Ok(made),
        Err(fault) => {
            let _ = rt.remove_file(file.path);
            Err(fault)
        }
    }
}

fn write_contents(made: &mut File, bytes: &[u8]) -> io::Result<()> {
    made.try_lock()?;
    made.write_all(bytes)?;
    made.sync_all()
}

/// Syncs the folder of a new file, so that a crash doesn't lose the file's name.
fn sync_folder<R: Files<File = File>>(rt: &R, path: &str) -> io::Result<()> {
    let folder = match Path::new(path).parent() {
        Some(folder) if !folder.as_str().is_empty() => folder,
        _ => Path::new("."),
    };
    File::open(rt, folder)?.sync_all()
}
