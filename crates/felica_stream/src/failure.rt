// What fails in a program, and what it says of that.
ghost use Rattle.std.specs.Prelude.{◌≡◌, MatchResult};
ghost use Rattle.std.specs.Process.{exit_status};
ghost use Rattle.std.specs.Io.KnownBytes.{Keeps};

use std::io::Write;
use std::process::ExitCode;

// What keeps a program from answering all that it is asked.
#[derive(Clone, Copy, Debug, PartialEq, Eq)]
pub enum Failure {
    Read,
    Write,
}

// Says what failed, by one of the two texts, and answers the status to end with; nothing is said where all is done. Whether a failure can be said is left open: there is no other
// place to say it.
pub fn status_of<E: Write>(
    done: Result<(), Failure>,
    errors: &mut E,
    unread: &[u8],
    unwritten: &[u8],
) -> ExitCode
    ensures { MatchResult done (λ _. (exit_status result ≡ 0) × Keeps (E.contents errors.old) (E.contents errors.new)) (λ _. exit_status result ≡ 1) }
{
    let said = match done {
        Ok(()) => return ExitCode::SUCCESS,
        Err(Failure::Read) => unread,
        Err(Failure::Write) => unwritten,
    };
    let _ = errors.write_all(said);
    ExitCode::FAILURE
}
