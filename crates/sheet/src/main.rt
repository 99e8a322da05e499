// One sheet over all logs that are named, or over all sheets, behind a word that says what is done: with `print` and `raw` they are logs, with
// `join` and `join-raw` sheets; `raw` and `join-raw` write the sheet as bytes, the others as text. The name - is standard input.
#![tactic(auto)]

mod handed;

ghost use Rattle.std.specs.Prelude.{None, true, false, ◌≡◌, ◌-◌, ◌≤◌, length};
ghost use Rattle.sheet.specs.Program.{joins, raws, LogTaken, SheetTaken, Taken, added_status, behind, NameTaken, Gathered, no_sheet, status_behind, PrintedOf, PrintedAs};

use arguments::{SheetWanted, sheet_of};
use caller::Output;
use gathering::{LeftOut, status_of, with_log, with_sheet, worse};
use handed::{Printed, write_bytes, write_nothing, write_text};
use sheetfile::SIZE;
use sheets::Month;
use std::fs::File;
use std::io::{Read, Write};
use std::process::ExitCode;
use std::str;
use stream::Status;

// The link of descriptor 5: behind each name a byte goes there, for a caller that counts them.
const DONE: &str = "/proc/self/fd/5";

// The status behind something that is no sheet.
const NO_SHEET: Status = Status::Misused;

// The month of the names that are done, and the status of what is left out.
#[derive(Clone, Copy)]
struct Gathering {
    month: Month,
    status: Status,
}

// ---- what is asked for
// Whether what is named are sheets.
fn joins_sheets(wanted: SheetWanted) -> bool
    ensures { result ≡ joins wanted }
{
    matches!(wanted, SheetWanted::Join | SheetWanted::JoinRaw)
}

// Whether the sheet is written as bytes.
fn writes_bytes(wanted: SheetWanted) -> bool
    ensures { result ≡ raws wanted }
{
    matches!(wanted, SheetWanted::Raw | SheetWanted::JoinRaw)
}

// ---- a name
// 4,096 zeros, which hold any name that opens a file, and any sheet.
fn buffer() -> [u8; 4096]
    ensures { 4096 ≡ length result }
{
    [0; 4096]
}

// A month with the log that a reader gives.
fn take_log<R: Read>(input: &mut R, month: Month) -> Result<Month, LeftOut>
    ensures { LogTaken month result }
{
    let ended = stream::pump_sheet(input);
    with_log(month, ended)
}

// Reads until some bytes are full, the input ends or a read fails: how many bytes came to the front.
fn read_full<R: Read>(input: &mut R, bytes: &mut [u8]) -> usize
    ensures { result ≤ length bytes.new }
{
    let mut done = 0;
    // no `for`: a step is as long as what a read gives
    while done < bytes.len() {
        let n = input.read(&mut bytes[done..]).unwrap_or(0);
        if n == 0 {
            return done;
        }
        done += n;
    }
    done
}

// A month with the sheet that a reader gives.
fn take_sheet<R: Read>(input: &mut R, month: Month) -> Result<Month, LeftOut>
    ensures { SheetTaken month result }
{
    let mut bytes = buffer();
    let mut more = buffer();
    let n = read_full(&mut *input, &mut bytes);
    // where the input has ended, it has ended for a second read too; else the first failed
    if n < bytes.len() {
        match input.read(&mut more) {
            Ok(0) => {}
            _ => return Err(LeftOut::NotRead),
        }
    }
    with_sheet(month, &bytes[..n])
}

fn take<R: Read>(input: &mut R, join: bool, month: Month) -> Result<Month, LeftOut>
    ensures { Taken join month result }
{
    if join {
        take_sheet(input, month)
    } else {
        take_log(input, month)
    }
}

// What stands in a file.
fn take_file(rt: &HostRuntime, path: &str, join: bool, month: Month) -> Result<Month, LeftOut>
    ensures { Taken join month result }
{
    match File::open(rt, path) {
        Ok(mut file) => take(&mut file, join, month),
        Err(_) => Err(LeftOut::NotRead),
    }
}

// What has a name: - is standard input, which stays open. A name that is no UTF-8 opens nothing.
fn take_named(rt: &HostRuntime, name: &[u8], join: bool, month: Month) -> Result<Month, LeftOut>
    ensures { Taken join month result }
{
    if check::same(name, b"-") {
        return take(&mut rt.stdin(), join, month);
    }
    match str::from_utf8(name) {
        Ok(path) => take_file(rt, path, join, month),
        Err(_) => Err(LeftOut::NotRead),
    }
}

// Some bytes of a line on standard error.
fn say(rt: &HostRuntime, bytes: &[u8]) {
    let _ = rt.stderr().write_all(bytes);
}

fn tell_of(rt: &HostRuntime, name: &[u8], what: &[u8]) {
    say(rt, b"sheet: ");
    say(rt, name);
    say(rt, what);
    say(rt, b"\n");
}

fn tell_left_out(rt: &HostRuntime, name: &[u8], why: LeftOut) {
    let why: &[u8] = match why {
        LeftOut::TooLarge => b" is refused 15: a total would not fit; it is left out",
        LeftOut::NotRead => b" cannot be read",
        LeftOut::NoSheet => b" is no sheet",
    };
    tell_of(rt, name, why);
}

fn added_status(added: Result<Month, LeftOut>) -> Status
    ensures { result ≡ added_status added }
{
    match added {
        Ok(_) => Status::Done,
        Err(LeftOut::TooLarge) => Status::Refused,
        Err(LeftOut::NotRead) => Status::Failed,
        Err(LeftOut::NoSheet) => NO_SHEET,
    }
}

// What is left out leaves the month as it was.
fn after(before: Gathering, added: Result<Month, LeftOut>) -> Gathering
    ensures { result ≡ behind before added }
{
    Gathering {
        month: added.unwrap_or(before.month),
        status: worse(before.status, added_status(added)),
    }
}

// The word with this number is a name.
fn take_word(rt: &HostRuntime, i: usize, join: bool, before: Gathering) -> Gathering
    ensures { NameTaken join before result }
{
    let mut name = buffer();
    let n = caller::word_at(rt, i, &mut name);
    let added = take_named(rt, &name[..n], join, before.month);
    if let Err(why) = added {
        tell_left_out(rt, &name[..n], why);
    }
    caller::put_byte(rt, DONE, b'.');
    after(before, added)
}

// All names, which stand behind two words.
fn gather(rt: &HostRuntime, count: usize, join: bool) -> Gathering
    ensures { Gathered join (count - 2) result }
{
    let mut gathering = Gathering {
        month: Month::empty(),
        status: Status::Done,
    };
    for i in 2..count {
        gathering = take_word(rt, i, join, gathering);
    }
    gathering
}

// ---- the sheet
fn print_text<W: Write>(output: &mut W, gathering: Gathering) -> Printed
    requires { ¬ (gathering.status ≡ no_sheet) }
    ensures { PrintedOf false gathering result }
{
    let mut text = buffer();
    let to = sheetlines::put_month(&mut text, 0, gathering.month);
    write_text(output, gathering, &text[..to])
}

fn print_bytes<W: Write>(output: &mut W, gathering: Gathering) -> Printed
    requires { ¬ (gathering.status ≡ no_sheet) }
    ensures { PrintedOf true gathering result }
{
    let mut bytes = buffer();
    let _ = sheetfile::write_month(&mut bytes, 0, gathering.month);
    write_bytes(output, gathering, &bytes[..SIZE])
}

// Nothing is printed where something is no sheet.
fn print<W: Write>(output: &mut W, raw: bool, gathering: Gathering) -> Printed
    ensures { PrintedOf raw gathering result }
{
    if gathering.status == NO_SHEET {
        return write_nothing(raw, gathering);
    }
    if raw {
        print_bytes(output, gathering)
    } else {
        print_text(output, gathering)
    }
}

// A line where it could not be written.
fn tell_written(rt: &HostRuntime, status: Status) {
    if status != Status::Done {
        tell_of(rt, b"the output", b" cannot be written");
    }
}

// The status of all, told last.
fn tell_status(rt: &HostRuntime, printed: Printed, status: Status)
    requires { status ≡ status_behind printed }
{
    ending::tell_status(rt, status);
}

// How the sheet that was asked for came to its end.
fn tell_printed(rt: &HostRuntime, count: usize, wanted: SheetWanted, printed: Printed)
    requires { PrintedAs (count - 2) wanted printed }
{
    let gathering = printed.gathering();
    let written = printed.status();
    tell_written(rt, written);
    let status = worse(gathering.status, status_of(gathering.month));
    tell_status(rt, printed, worse(status, written));
}

// The sheet over all names.
fn sheet(rt: &HostRuntime, count: usize, wanted: SheetWanted) -> ExitCode {
    let gathering = gather(rt, count, joins_sheets(wanted));
    let mut output = Output::new(rt.stdout());
    let printed = print(&mut output, writes_bytes(wanted), gathering);
    if !output.is_closed() {
        tell_printed(rt, count, wanted, printed);
    }
    output.status()
}

// Where nothing was asked for in so many words.
fn tell_misused(rt: &HostRuntime, wanted: Option<SheetWanted>)
    requires { wanted ≡ None }
{
    ending::tell_use(
        rt,
        &mut rt.stderr(),
        b"sheet",
        b"it takes one of the words print, raw, join and join-raw, and names behind it",
    );
}

fn main(rt: HostRuntime) -> ExitCode {
    let mut first = buffer();
    let n = caller::word_at(&rt, 1, &mut first);
    let count = caller::word_count(&rt);
    // of a word that does not fit into its buffer the count is 0, and an empty word asks for nothing
    let wanted = sheet_of(count, &first[..n]);
    match wanted {
        None => {
            tell_misused(&rt, wanted);
            ExitCode::SUCCESS
        }
        Some(asked) => sheet(&rt, count, asked),
    }
}
