// A program's arguments as one line.
ghost use Rattle.std.specs.Prelude.{◌≤◌, IfOk, IfSome, length};

use std::env::{Env, FillError};

// The status of a program whose arguments are none that it knows.
pub const NOT_KNOWN: u8 = 2;

// Puts the words behind the program's name into `line`, a space between two, and answers how many bytes they are; none where there is no word. What the words are is the
// system's. Where `line` has no room for all of them, that is an error.
pub fn join_arguments<E: Env>(env: &E, line: &mut [u8]) -> Result<Option<usize>, FillError>
    ensures { IfOk result (λ words. IfSome words (λ end. end ≤ length line.new)) }
{
    let mut end = None;
    for i in 1..usize::MAX {
        let start = match end {
            None => 0,
            Some(end) => end + 1,
        };
        let Some(room) = line.get_mut(start..) else {
            return Err(FillError::TooLong);
        };
        match env.arg(i, room) {
            Ok(count) => {
                if let Some(end) = end {
                    line[end] = b' ';
                }
                end = Some(start + count);
            }
            Err(FillError::NotPresent) => return Ok(end),
            Err(FillError::TooLong) => return Err(FillError::TooLong),
        }
    }
    Err(FillError::TooLong)
}
