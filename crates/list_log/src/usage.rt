// What the program does with words behind its name.
use felica_stream::arguments::NOT_KNOWN;
use std::io::Write;
use std::process::ExitCode;

const USAGE: &[u8] = b"\
usage: list_log < LOG     lists the log on its input, a line for each record and the totals behind them
       list_log --help    says this

A log is records, each a byte that says how many follow it, and a frame of so many bytes. The last line of a
listing is TOTAL, with its line feed: one without it is not complete, and the status is 1.

       list_log < frames.log
       printf '\\006\\006\\000\\377\\377\\000\\001' | list_log
";

// Says how the program is used: on the error output where the words are other than `--help`. The log is not read.
pub(crate) fn answer_words<W: Write, E: Write>(
    writer: &mut W,
    errors: &mut E,
    words: &[u8],
) -> ExitCode {
    if words != b"--help".as_slice() {
        let _ = errors.write_all(USAGE);
        return ExitCode::from(NOT_KNOWN);
    }
    if writer.write_all(USAGE).is_ok() {
        return ExitCode::SUCCESS;
    }
    let _ = errors.write_all(b"list_log: the usage cannot be written\n");
    ExitCode::FAILURE
}
