// The text of the verdict on a scenario file by a list, and a program's way from standard input to that text.
#![tactic(auto)]

ghost use Rattle.std.specs.Prelude.{List, ℕ, ◌<◌, ◌≤◌, ◌≡◌, length, take, IfOk};
ghost use Rattle.std.specs.Io.KnownBytes.{Consumes, IsAtEnd};
ghost use Rattle.semantics.specs.Verdict.{searched_in};
ghost use Rattle.search_runs.specs.Runs.{list_as};
ghost use Rattle.text.specs.Text.{verdict_text};
ghost use Rattle.report.specs.Prints.{Prints};

use answers::Trace;
use frame::File;
use search_runs::Listing;
use std::io::{self, Read};
use text::Text;

// What Search answers to a scenario file by a list, as text.
pub fn verdict_text(file: &[u8], list: Listing) -> Text
    ensures { (buffer : List ℕ) → 128 ≤ length buffer → result ≡ verdict_text (searched_in (list_as list) file.now buffer) }
{
    let mut trace = [0; Trace::MOST_BYTES];
    let answer = search::search_in(file, &mut trace, list);
    text::answer_text(answer, &trace)
}

// Reads until the buffer is full or the input ends. Answers how many bytes it put at the buffer's front: those are what it took, in order, and where there is room left the input has no more.
fn read_full<R: Read>(reader: &mut R, buffer: &mut [u8]) -> io::Result<usize>
    ensures within { IfOk result (λ n. n ≤ length buffer.new) }
    ensures bytes { IfOk result (λ n. Consumes (R.remaining reader.old) (R.remaining reader.new) (take n buffer.new)) }
    ensures end { IfOk result (λ n. n < length buffer.new → IsAtEnd (R.remaining reader.new)) }
{
    let mut done = 0;
    // stays: a read may give fewer bytes than there is room for, so there is no range to go over
    while done < buffer.len() {
        let n = reader.read(&mut buffer[done..])?;
        if n == 0 {
            break;
        }
        done += n;
    }
    Ok(done)
}

// Reads a scenario file on standard input and prints the verdict on it. It answers what it prints: the text of the verdict on some file. That this file is what was read, and that the
// text is what is written, no contract can say. Of a read that failed nothing is printed: the error is answered, and also that of a write that failed.
pub fn print_verdict<R: Input + Print>(rt: &R, list: Listing) -> io::Result<Text>
    ensures { IfOk result (Prints (list_as list)) }
{
    // one byte more than a file may have, so that a longer one is refused and not cut
    let mut file = [0; File::MOST_BYTES + 1];
    let mut reader = rt.reader();
    let n = read_full(&mut reader, &mut file)?;
    let text = verdict_text(&file[..n], list);
    rt.write_all(text.as_bytes())?;
    Ok(text)
}
