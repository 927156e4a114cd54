// Files by their names; a dash is standard input.
ghost use Rattle.std.specs.Prelude.{◌≤◌, length};
ghost use Rattle.std.specs.Io.{ReadsAtMost};

use std::env::{Env, FillError};
use std::fs::File;
use std::io::{Cursor, Error, ErrorKind, Read, Write};
use telling::printing;
use words::options::value_start;

// What is read: a file that is open, or standard input.
#[derive(Drop)]
pub enum Source {
    Input,
    File(File),
}

// The last line of a call whose file can't be opened or read.
pub fn no_file(rt: &HostRuntime) {
    printing::message(rt, b"no file\n");
}

// How many bytes of a text are the system's words for an error: behind them stands its number, in brackets. An error of std's own has none.
fn worded(text: &[u8; 256], numbered: bool) -> usize
    ensures { result ≤ 256 }
{
    let mut words = 0;
    let mut i = 0;
    while i < 256 && text[i] != 0 {
        if numbered && text[i] == 40 && 0 < i {
            words = i - 1;
        }
        i += 1;
    }
    if words == 0 { i } else { words }
}

// A line on standard error: what failed, and why in the system's words.
fn fail(rt: &HostRuntime, what: &[u8], why: Error) {
    let mut to = Cursor::new([0u8; 256]);
    let _ = write!(to, "{why}");
    let text = to.into_inner();
    let n = worded(&text, why.raw_os_error().is_some());
    printing::message(rt, what);
    printing::message(rt, b": ");
    printing::message(rt, &text[..n]);
    printing::message(rt, b"\n");
}

// A name that is no text opens no file.
fn opened(rt: &HostRuntime, path: &[u8]) -> std::io::Result<File> {
    match std::str::from_utf8(path) {
        Ok(name) => File::open(rt, name),
        Err(_) => Err(Error::from(ErrorKind::InvalidFilename)),
    }
}

fn open_path(rt: &HostRuntime, path: &[u8]) -> Option<Source> {
    if check::same(path, b"-") {
        return Some(Source::Input);
    }
    match opened(rt, path) {
        Ok(file) => Some(Source::File(file)),
        Err(why) => {
            printing::message(rt, b"loftsplice: ");
            fail(rt, path, why);
            no_file(rt);
            None
        }
    }
}

fn open_word(rt: &HostRuntime, word: &[u8], option: bool) -> Option<Source> {
    if option {
        let from = value_start(word);
        return open_path(rt, &word[from..]);
    }
    open_path(rt, word)
}

// The system's numbers for a name that is too long, and for an argument that is not there.
const ENAMETOOLONG: i32 = 36;

const EINVAL: i32 = 22;

// The file that argument i names, which may be an option with its value, open for reading; or none after the last line.
pub fn open(rt: &HostRuntime, i: usize, option: bool) -> Option<Source> {
    let mut word = io::buffer();
    let why = match rt.arg(i, &mut word) {
        Ok(n) => return open_word(rt, &word[..n], option),
        Err(FillError::TooLong) => ENAMETOOLONG,
        Err(FillError::NotPresent) => EINVAL,
    };
    fail(
        rt,
        b"loftsplice: the file's name",
        Error::from_raw_os_error(why),
    );
    no_file(rt);
    None
}

// One read of the system's.
fn once(rt: &HostRuntime, source: &mut Source, chunk: &mut [u8]) -> std::io::Result<usize>
    ensures { ReadsAtMost result chunk.new }
{
    match source {
        Source::Input => rt.stdin().read(chunk),
        Source::File(file) => file.read(chunk),
    }
}

// One read of a chunk. Answers how many bytes there were, 0 at the end; or none where it failed, after the last line.
pub fn read_some(rt: &HostRuntime, source: &mut Source, chunk: &mut [u8]) -> Option<usize> {
    match once(rt, source, chunk) {
        Ok(n) => Some(n),
        Err(why) => {
            fail(rt, b"loftsplice: reading the file", why);
            no_file(rt);
            None
        }
    }
}

// Reads until the buffer is full, the file ends or a read fails. Answers how many bytes it put at the start of the buffer.
pub fn read_full(rt: &HostRuntime, source: &mut Source, buf: &mut [u8]) -> usize
    ensures { result ≤ length buf.new }
{
    let mut done = 0;
    while done < buf.len() {
        let Ok(n) = once(rt, source, &mut buf[done..]) else {
            break;
        };
        if n == 0 {
            break;
        }
        done += n;
    }
    done
}
