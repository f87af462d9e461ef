// Prints for each recording of a drawer, a file on standard input or one that the argument names, its number, its offset and its text; or the
// refusal of the whole drawer.
#![tactic(auto)]

ghost use Rattle.std.specs.Prelude.{◌+◌, ◌≤◌, ◌<◌, ◌≡◌, IfOk, IfErr};
ghost use Rattle.replay_drawer.specs.Sized.{size_by};
ghost use Rattle.replay_drawer.specs.Pass.{Goes, Prints, Turns};
ghost use Rattle.replay_drawer.specs.declared.Stop.TheVariants.{Unwritten};

use arrays::sized;
use drawer::size_of_piece;
use filling::read_full;
use lines::{LONGEST_TEXT, lay_refusal};
use printing::{MOST_TAKEN_IN, print_in_drawer};
use refusals::Refusal;
use std::env::{Env, FillError};
use std::fs::{File, Metadata};
use std::io::{Seek, SeekFrom};
use std::os::unix::fs::FileTypeExt;
use std::{fs, str};

const MIB: usize = 1048576;

// Why a drawer has no size to go by: it has more bytes than a drawer may have, or they cannot be told.
enum NoSize {
    Long,
    Unknown,
}

// Why a drawer is not printed to its end: it is no file, a cut at an offset fails, or the file is not read or the text not written.
#[derive(Clone, Copy)]
enum Stop {
    NoFile,
    Fails(u32),
    Unread,
    Unwritten,
}

impl Stop {
    // Of a cut that fails, once every cut was tried before.
    fn say(self, rt: &HostRuntime) {
        let text: &[u8] = match self {
            Stop::NoFile => b"drawer: standard input is not a file\n",
            Stop::Fails(_) => b"drawer: the file changes while it is read\n",
            Stop::Unread => b"drawer: the file cannot be read\n",
            Stop::Unwritten => b"drawer: the text cannot be written\n",
        };
        let _ = rt.stderr().write_all(text);
    }
}

fn send(rt: &HostRuntime, text: &[u8]) -> Result<(), Stop>
    ensures { IfErr result (λ stop. stop ≡ Unwritten) }
{
    rt.write_all(text).map_err(|_| Stop::Unwritten)
}

// Texts that wait to be written, in fixed memory (no heap): how many bytes they have, and where the next one is made. That they are few is no
// invariant: between `put` and `make_room` they are not.
#[derive(Drop)]
struct Waiting<'a> {
    rt: &'a HostRuntime,
    bytes: [u8; 131072],
    waits: usize,
    text: [u8; LONGEST_TEXT],
}

impl<'a> Waiting<'a> {
    // The heading and the text of a recording, put after what waits.
    fn put(&mut self, rec: &[u8], number: u32, place: u32)
        requires { self.old.waits ≤ 47024 }
        ensures { self.new.waits ≤ 131072 }
    {
        sized(&self.bytes);
        self.waits = print_in_drawer(
            rec,
            number,
            place,
            &mut self.text,
            &mut self.bytes,
            self.waits,
        );
    }

    // What waits, written; then nothing waits.
    fn write(&mut self) -> Result<(), Stop>
        requires { self.old.waits ≤ 131072 }
        ensures waits { self.new.waits ≡ 0 }
        ensures stops { IfErr result (λ stop. stop ≡ Unwritten) }
    {
        sized(&self.bytes);
        let n = self.waits;
        self.waits = 0;
        send(self.rt, &self.bytes[..n])
    }

    // What waits, written where a heading and a text, 84,048 bytes at most, may find no room after it.
    fn make_room(&mut self) -> Result<(), Stop>
        requires { self.old.waits ≤ 131072 }
        ensures waits { self.new.waits ≤ 47024 }
        ensures stops { IfErr result (λ stop. stop ≡ Unwritten) }
    {
        if self.waits <= 47024 {
            return Ok(());
        }
        self.write()
    }
}

// The part of the drawer that the window holds: from which byte on, and how many.
#[derive(Clone, Copy)]
struct Held {
    from: usize,
    size: usize,
}

// A pass over a drawer of so many bytes, by a window: at which cut it is, after how many recordings, and whether it prints their texts, by which the
// two passes differ in one call.
#[derive(Drop)]
struct Pass<'a> {
    file: &'a mut File,
    window: [u8; 131072],
    held: Held,
    size: usize,
    prints: bool,
    at: usize,
    number: u32,
}

impl<'a> Pass<'a> {
    // Where in the window so many bytes from the cut on begin; it is read anew from there where it has fewer. As a call it
    // was a sixth of the instructions that a recording of six bytes takes beside the clearing of its report.
    #[inline(always)]
    fn hold(&mut self, wanted: usize) -> Result<usize, Stop>
        requires { Goes self.old × (wanted ≤ 65537) }
        ensures goes { Goes self.new × (self.new.at ≡ self.old.at) × (self.new.number ≡ self.old.number) × (self.new.size ≡ self.old.size) }
        ensures within { IfOk result (λ start. start + wanted ≤ 131072) }
    {
        let at = self.at;
        if self.held.from + self.held.size < at + wanted {
            self.file
                .seek(SeekFrom::Start(at as u64))
                .map_err(|_| Stop::Unread)?;
            sized(&self.window);
            let size = read_full(self.file, &mut self.window);
            self.held = Held { from: at, size };
        }
        let start = at - self.held.from;
        if self.held.size < start + wanted {
            return Err(Stop::Unread);
        }
        Ok(start)
    }

    // The text of the piece at the cut.
    fn print(&mut self, waiting: &mut Waiting, piece: usize) -> Result<(), Stop>
        requires goes { Goes self.old × (0 < piece) × (self.old.at + piece ≤ self.old.size) }
        requires room { waiting.old.waits ≤ 47024 }
        ensures room { waiting.new.waits ≤ 47024 }
        ensures next { Prints self.old self.new result }
    {
        let wanted = piece.min(MOST_TAKEN_IN);
        let start = self.hold(wanted)?;
        self.number += 1;
        sized(&self.window);
        let rec = &self.window[start..start + wanted];
        waiting.put(rec, self.number, self.at as u32);
        tell(waiting.rt, self.at, self.at + piece, self.size);
        waiting.make_room()
    }

    // The cut at which the pass is, and, where texts are to be printed, that of its piece.
    fn cut(&mut self, waiting: &mut Waiting) -> Result<(), Stop>
        requires goes { Goes self.old × (self.old.at < self.old.size) }
        requires room { waiting.old.waits ≤ 47024 }
        ensures room { waiting.new.waits ≤ 47024 }
        ensures next { Turns self.old self.new result }
    {
        let fails = Stop::Fails(self.at as u32);
        let left = self.size - self.at;
        if left < 5 {
            return Err(fails);
        }
        let start = self.hold(5)?;
        sized(&self.window);
        let piece = size_of_piece(&self.window[start..start + 5], left).ok_or(fails)?;
        if self.prints {
            self.print(waiting, piece)?;
        }
        self.at += piece;
        Ok(())
    }

    fn go(&mut self, waiting: &mut Waiting) -> Result<(), Stop>
        requires { Goes self.old × (waiting.old.waits ≤ 47024) }
        ensures { waiting.new.waits ≤ 47024 }
    {
        // each piece tells its own size, so no range has the cuts
        while self.at < self.size {
            self.cut(waiting)?;
        }
        Ok(())
    }
}

// A line for each whole 1,048,576 bytes between two places of a drawer that has more than these.
fn tell(rt: &HostRuntime, from: usize, to: usize, size: usize)
    requires { (to ≤ size) × (size ≤ 16777216) }
{
    if MIB < size {
        let whole = size.div_ceil(MIB);
        for k in from / MIB..to / MIB {
            let _ = eprintln!(rt; "drawer: {} of {whole} MiB", k + 1);
        }
    }
}

// A pass over a drawer, and what waits at its end written. Here the file, its size and where to print become a `Pass` and a `Waiting`.
fn go_over(rt: &HostRuntime, file: &mut File, size: usize, prints: bool) -> Result<(), Stop>
    requires { size ≤ 16777216 }
{
    let mut waiting = Waiting {
        rt,
        bytes: [0; 131072],
        waits: 0,
        text: [0; LONGEST_TEXT],
    };
    let mut pass = Pass {
        file,
        window: [0; 131072],
        held: Held { from: 0, size: 0 },
        size,
        prints,
        at: 0,
        number: 0,
    };
    let went = pass.go(&mut waiting);
    waiting.write()?;
    went
}

// Inlined, its text would take room on the stack through both passes.
#[inline(never)]
fn refuse(rt: &HostRuntime, refusal: Refusal, place: u32) -> Result<(), Stop> {
    let mut text = [0u8; LONGEST_TEXT];
    let n = lay_refusal(&mut text, refusal.number(), place);
    send(rt, &text[..n])
}

// Every cut to the end first; then every text.
fn print_all(rt: &HostRuntime, file: &mut File, size: usize) -> Result<(), Stop>
    requires { size ≤ 16777216 }
{
    match go_over(rt, file, size, false) {
        Ok(()) => go_over(rt, file, size, true),
        Err(Stop::Fails(place)) => refuse(rt, Refusal::NoCut, place),
        stopped => stopped,
    }
}

// The drawer's size, by where a seek finds its end; below 0 is no place.
fn size_of(end: i64) -> Result<usize, NoSize>
    ensures { result ≡ size_by end }
{
    if end < 0 {
        return Err(NoSize::Unknown);
    }
    if 16777216 < end {
        return Err(NoSize::Long);
    }
    Ok(end as usize)
}

// The drawer in a file that is open; what stops it where its size cannot be told.
fn print_drawer(rt: &HostRuntime, file: &mut File, unknown: Stop) -> Result<(), Stop> {
    let end = file.seek(SeekFrom::End(0)).map_err(|_| unknown)?;
    match size_of(end.cast_signed()) {
        Ok(size) => print_all(rt, file, size),
        Err(NoSize::Long) => refuse(rt, Refusal::DrawerTooLong, 0),
        Err(NoSize::Unknown) => Err(unknown),
    }
}

// A pipe that nobody writes any more is not opened: that would wait for ever.
fn has_places(of: &Metadata) -> bool {
    let kind = of.file_type();
    !kind.is_fifo() && !kind.is_socket()
}

// The drawer in a file by its path.
fn print_file(rt: &HostRuntime, path: &str, unknown: Stop) -> Result<(), Stop> {
    let of = fs::metadata(rt, path).map_err(|_| unknown)?;
    if !has_places(&of) {
        return Err(unknown);
    }
    let mut file = File::open(rt, path).map_err(|_| Stop::Unread)?;
    print_drawer(rt, &mut file, unknown)
}

fn print(rt: &HostRuntime) -> Result<(), Stop> {
    let mut path = [0u8; 4096];
    match rt.arg(1, &mut path) {
        Ok(n) => {
            let path = str::from_utf8(&path[..n]).map_err(|_| Stop::Unread)?;
            print_file(rt, path, Stop::Unread)
        }
        Err(FillError::TooLong) => Err(Stop::Unread),
        // standard input cannot seek, but the system opens its file anew by this name
        Err(FillError::NotPresent) => print_file(rt, "/proc/self/fd/0", Stop::NoFile),
    }
}

fn main(rt: HostRuntime) {
    if let Err(stop) = print(&rt) {
        stop.say(&rt);
    }
}
