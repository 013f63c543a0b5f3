// Lists a log: reads it on standard input, and writes a line for each record to standard output.
#![tactic(auto)]

ghost use Rattle.std.specs.Prelude.{◌≡◌, ◌≤◌, ◌<◌, ◌+◌, true, false, ◌++◌, IfOk, OnOk, IfErr, OnErr, length, take, drop};
ghost use Rattle.std.specs.Io.KnownBytes.{Consumes, Keeps, Appends, IsAtEnd};
ghost use Rattle.std.specs.Process.{exit_status};
ghost use Rattle.felica_put.specs.Output.{held as put_in};
ghost use Rattle.felica_totals.specs.Count.{no_totals};
ghost use Rattle.felica_log.specs.Listing.{max_records};
ghost use Rattle.felica_log.specs.Step.{line_room, end_text};
ghost use Rattle.felica_log.specs.Rules.{Sound, NoneLeft};
ghost use Rattle.list_log.specs.Held.{HasLineRoom, AllListed, RestKept, ReadAndListed, WhereUnread, bytes_in, AllRead, TakesListing, EndPut, over};

mod input;
mod usage;

use felica_log::end::put_end;
use felica_log::step::list_records;
use felica_log::{LINE_ROOM, MAX_RECORDS};
use felica_put::Output;
use felica_stream::arguments::join_arguments;
use felica_stream::failure::{Failure, status_of};
use felica_stream::{keep_rest, make_room, read_more};
use felica_totals::Totals;
use input::Input;
use std::io::{self, Read, Write};
use std::process::ExitCode;
use usage::answer_words;

// A listing as far as it has come: the lines that wait, and the totals of the records before the next.
#[derive(Drop)]
struct Listing<'a> {
    out: Output<'a, u8>,
    totals: Totals,
    ghost room: { HasLineRoom out },
    ghost sound: { Sound totals },
}

// Lists the whole records of what is held, and answers how many bytes they are.
fn list_held<W: Write>(writer: &mut W, held: &[u8], listing: &mut Listing) -> io::Result<usize>
    ensures listed { IfOk result (λ used. (used ≤ length held.now) × AllListed (W.contents writer.old) listing.old.totals (put_in listing.old.out) held.now (W.contents writer.new) listing.new.totals (put_in listing.new.out) used) }
    ensures short { IfOk result (λ used. listing.new.totals.records < max_records → length held.now < used + 256) }
{
    // `used` is what is answered; how far each turn comes is known only behind it.
    let mut used = 0;
    loop {
        make_room(writer, &mut listing.out, LINE_ROOM)?;
        let progress = list_records(&held[used..], &mut listing.out, &mut listing.totals);
        used += progress.used;
        if !progress.stop.lacks_room() {
            return Ok(used);
        }
    }
}

// Lists what is held, and moves the rest of it to the front. Here and below writer, input and listing are lent one by one, as in felica: a method of one struct could not
// lend what is held of its input and change the rest of it at once.
fn list_input<W: Write>(writer: &mut W, input: &mut Input, listing: &mut Listing) -> io::Result<()>
    ensures listed { OnOk result (RestKept (W.contents writer.old) listing.old.totals (put_in listing.old.out) (bytes_in input.old) (W.contents writer.new) listing.new.totals (put_in listing.new.out) (bytes_in input.new)) }
    ensures short { OnOk result (listing.new.totals.records < max_records → input.new.held < 256) }
{
    let held = input.held;
    let room = &mut *input.room;
    let used = list_held(writer, &room[..held], listing)?;
    keep_rest(room, used, held);
    input.held = held - used;
    Ok(())
}

// Whether nothing more is to be read: the input has ended, or a byte follows the last record that may be read.
fn is_over(ended: bool, totals: Totals, held: usize) -> bool
    ensures { result ≡ over ended totals held }
{
    ended || (MAX_RECORDS <= totals.records && 0 < held)
}

// Reads once behind what is held, and answers whether the log has ended: there is room to read into, so that a read which brings nothing is its end.
fn read_piece<R: Read>(reader: &mut R, input: &mut Input) -> io::Result<bool>
    requires { input.old.held < length input.old.room.now }
    ensures bytes { OnOk result (Consumes (R.remaining reader.old) (R.remaining reader.new) (drop input.old.held (bytes_in input.new))) }
    ensures end { IfOk result (λ ended. ended ≡ true → IsAtEnd (R.remaining reader.new)) }
    ensures more { IfOk result (λ ended. ended ≡ false → input.old.held < input.new.held) }
    ensures kept { OnOk result ((input.old.held ≤ input.new.held) × (take input.old.held input.new.room.now ≡ bytes_in input.old)) }
    ensures err { OnErr result (Keeps (R.remaining reader.old) (R.remaining reader.new) × (bytes_in input.new ≡ bytes_in input.old)) }
{
    let held = input.held;
    let more = read_more(reader, &mut *input.room, held)?;
    input.held = more;
    Ok(more == held)
}

// Reads the log and lists its records, until what is held is the bytes behind them. What waits is written before each read: it may be what the other side waits for before it
// writes on. A proved loop has to end, and nothing says that the input does: the turns are counted.
fn feed<R: Read, W: Write>(
    reader: &mut R,
    writer: &mut W,
    input: &mut Input,
    listing: &mut Listing,
) -> Result<(), Failure>
    requires started { (input.old.held ≡ 0) × (listing.old.out.len ≡ 0) × (listing.old.totals ≡ no_totals) }
    ensures all { OnOk result (AllRead (R.remaining reader.old) (R.remaining reader.new) (W.contents writer.old) (W.contents writer.new) listing.new.totals (put_in listing.new.out) (bytes_in input.new)) }
    ensures none_left { OnOk result (NoneLeft listing.new.totals (bytes_in input.new)) }
    ensures unread { IfErr result (λ why. WhereUnread why (ReadAndListed (R.remaining reader.old) (R.remaining reader.new) (W.contents writer.old) (W.contents writer.new) listing.new.totals (put_in listing.new.out) (bytes_in input.new))) }
{
    for _ in 0..u64::MAX {
        let all = listing.out.room.len();
        make_room(writer, &mut listing.out, all).map_err(|_| Failure::Write)?;
        let ended = read_piece(reader, input).map_err(|_| Failure::Read)?;
        list_input(writer, input, listing).map_err(|_| Failure::Write)?;
        if is_over(ended, listing.totals, input.held) {
            return Ok(());
        }
    }
    Ok(())
}

// Writes what waits and the lines that end the listing.
fn finish<W: Write>(writer: &mut W, rest: &[u8], listing: &mut Listing) -> io::Result<()>
    ensures end { OnOk result (EndPut (put_in listing.old.out) (end_text listing.old.totals rest.now) listing.new.out.room.now) }
    ensures bytes { OnOk result (Appends (W.contents writer.old) (W.contents writer.new) (take listing.old.out.len listing.old.out.room.now ++ end_text listing.old.totals rest.now)) }
{
    make_room(writer, &mut listing.out, LINE_ROOM)?;
    put_end(&mut listing.out, rest, listing.totals);
    writer.write_all(listing.out.filled())
}

// Lists the log from its first record to TOTAL.
fn list<R: Read, W: Write>(
    reader: &mut R,
    writer: &mut W,
    input: &mut Input,
    listing: &mut Listing,
) -> Result<(), Failure>
    requires { (input.old.held ≡ 0) × (listing.old.out.len ≡ 0) × (listing.old.totals ≡ no_totals) }
    ensures { OnOk result (TakesListing (R.remaining reader.old) (W.contents writer.old) (W.contents writer.new)) }
{
    feed(reader, writer, input, listing)?;
    finish(writer, &input.room[..input.held], listing).map_err(|_| Failure::Write)
}

// Lists the log; one without TOTAL is not complete, and then the status is not 0. The arrays are lent by `main`, since there is no heap.
fn run<R: Read, W: Write, E: Write>(
    reader: &mut R,
    writer: &mut W,
    errors: &mut E,
    input: &mut [u8],
    out: &mut [u8],
) -> ExitCode
    requires { (256 ≤ length input.old) × (line_room ≤ length out.old) }
    ensures { exit_status result ≡ 0 → TakesListing (R.remaining reader.old) (W.contents writer.old) (W.contents writer.new) }
{
    let mut input = Input {
        room: input,
        held: 0,
    };
    let mut listing = Listing {
        out: Output::new(out),
        totals: Totals::new(),
    };
    let listed = list(reader, writer, &mut input, &mut listing);
    status_of(
        listed,
        errors,
        b"list_log: the log cannot be read\n",
        b"list_log: the listing cannot be written\n",
    )
}

fn main(rt: HostRuntime) -> ExitCode {
    let mut input = [0u8; 65536];
    let mut out = [0u8; 65536];
    // Words that find no room are none that the program knows.
    let words = join_arguments(&rt, &mut input).unwrap_or(Some(0));
    match words {
        None => run(
            &mut rt.stdin(),
            &mut rt.stdout(),
            &mut rt.stderr(),
            &mut input,
            &mut out,
        ),
        Some(end) => answer_words(&mut rt.stdout(), &mut rt.stderr(), &input[..end]),
    }
}
