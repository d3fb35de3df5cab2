//! The program `bars run` over any reader and two writers. It plays commands, one on a line, on a board in memory.
//!
//! - `arguments`: the request of the arguments.
//! - `cases`: worked cases of the definitions.
//! - `commands`: the command of a line.
//! - `input`: the input, whose failures differ from want of memory.
//! - `laws`: laws of the definitions.
//! - `player`: the board, and the effect of a command on it.
//! - `words`: the words of a command line.
//! - `fault`: why a run ends before everything is printed.
#![tactic(auto)]

mod arguments;
pub mod cases;
mod commands;
pub mod fault;
mod input;
pub mod laws;
mod player;
pub mod words;

ghost use Rattle.std.specs.Prelude.{◌≡◌, ◌≢◌, ◌⊎◌, ℕ, [], map, Some, None, Err, IfErr, IfOk, IfSome, OnOk, string_bytes};
ghost use Rattle.std.specs.Io.Buffered.{reader_remaining};
ghost use Rattle.std.specs.Io.KnownBytes.{Appends};
ghost use Rattle.bars_run.specs.declared.arguments.Asked.{Asked as AskedFor};
ghost use Rattle.bars_run.specs.declared.fault.Fault.{Fault as Ending};
ghost use Rattle.bars_run.specs.Arguments.{HasCells, asked_by};
ghost use Rattle.bars_run.specs.Commands.{command_of, input_lines, spelled, Spelled};
ghost use Rattle.bars_run.specs.Fault.{status_of};
ghost use Rattle.bars_run.specs.Inside.Players.{HasPlayed, LineEnds, Obeys, Stands};
ghost use Rattle.bars_run.specs.Printing.{EndsBy, EndsOn, Prints, printed, up_to_last as trimmed};

use crate::arguments::Asked;
use crate::commands::Command;
use crate::fault::Fault;
use crate::input::Input;
use crate::player::Player;
use indicatif_term::laws::a_new_terminal_is_an_opening;
use indicatif_text::columns::Refusal;
use std::alloc::Global;
use std::io;
use std::io::{BufRead, BufReader, ErrorKind, Read, Write};

/// Runs the program with the words after its name, except for the demo. `run ROWS COLS`, or `run ROWS COLS bottom`, plays the commands that
/// it reads, one a line, on a board without bars, whose terminal has this size and is empty. It then prints the rows that stand there,
/// including those that scrolled away: each without the blanks at its end, up to the last one that isn't empty, each ended by a newline.
///
/// The commands are `add TEXT` (a bar with this message), `msg I TEXT`, `tick I`, `finish I`, `abandon I`, `hide I` (finished and hidden),
/// `drop I`, `remove I`, `log TEXT`, `warn TEXT` (logged as a warning), `clear` and `size ROWS COLS` (another size of the terminal, with
/// numbers as in the arguments). Bars are numbered from 1 as they are added. `TEXT` is the rest of the line, after one space; it may be
/// empty, with or without the space. A line ends at a newline, which the last one may lack.
///
/// It returns the program's exit status: 0 if everything was printed. Otherwise a message for the `Fault` is written to `err`, with the
/// fault's status, and the following commands aren't played. With status 0 nothing is written to `err`, with status 1 nothing to `out`.
///
/// For any status other than 0, contracts name a fault with that status, and say where it comes from (`EndsBy`): words that request
/// nothing, a size of 0, the first line that isn't a command, a line that is one, or all lines played. They don't say whether a read or a
/// write failed or memory was refused, nor what `err` gets.
///
/// If the bytes of the input can be read in contracts, as those of a slice, these say more for status 0 (`Prints`): the terminal has rows
/// and columns, at first and after each size, each line is a command, a board that plays them one after another refuses none, and, if their
/// texts consist of characters with a width and colour sequences, exactly the texts of the rows that stand at the end were printed.
///
/// ```
/// let mut out = Vec::new(alloc);
/// let mut err = Vec::new(alloc);
/// let input = b"add x\ntick 1\nlog a.txt\n".as_slice();
/// let status = run_bars(alloc, &words, input, &mut out, &mut err); // words: run 4 10
/// // status: 0, out: "a.txt\nx\n", err: ""
/// ```
pub fn run_bars<R: Read + Drop, O: Write, E: Write>(
    alloc: Global,
    args: &[String],
    input: R,
    out: &mut O,
    err: &mut E,
) -> u8
    ensures status { (result ≡ 0) ⊎ (result ≡ 1) ⊎ (result ≡ 2) }
    ensures fine { result ≡ 0 → err.new ≡ err.old }
    ensures refused { result ≡ 1 → out.new ≡ out.old }
    ensures usage { asked_by (map (λ word. string_bytes word) args.now) ≡ None → (result ≡ 2) × (out.new ≡ out.old) }
    ensures fault { result ≢ 0 → (fault : Ending) × (result ≡ status_of fault) × ((fault ≡ Fault.Output) ⊎ (out.new ≡ out.old))
        × EndsBy (map (λ word. string_bytes word) args.now) (R.remaining input) fault }
    ensures printed { result ≡ 0 → IfSome (R.remaining input) (λ bytes. Prints (map (λ word. string_bytes word) args.now) bytes (O.contents out.old) (O.contents out.new)) }
{
    match print_picture(alloc, args, input, out) {
        Ok(()) => 0,
        Err(fault) => {
            let _ = writeln!(err, "{fault}");
            fault.status()
        }
    }
}

/// Plays the request, and prints the picture once it is complete.
fn print_picture<R: Read + Drop, O: Write>(
    alloc: Global,
    args: &[String],
    input: R,
    out: &mut O,
) -> Result<(), Fault>
    ensures unprinted { IfErr result (λ fault. (fault ≡ Fault.Output) ⊎ (out.new ≡ out.old)) }
    ensures usage { asked_by (map (λ word. string_bytes word) args.now) ≡ None → (result ≡ Err Fault.Usage) × (out.new ≡ out.old) }
    ensures fault { IfErr result (λ fault. EndsBy (map (λ word. string_bytes word) args.now) (R.remaining input) fault) }
    ensures printed { OnOk result (IfSome (R.remaining input) (λ bytes. Prints (map (λ word. string_bytes word) args.now) bytes (O.contents out.old) (O.contents out.new))) }
{
    let Some(asked) = Asked::by(args) else {
        return Err(Fault::Usage);
    };
    let picture = picture_of(alloc, asked, input)?;
    match print(&picture, out) {
        Ok(()) => Ok(()),
        Err(_) => Err(Fault::Output),
    }
}

/// The rows that stand after all commands.
fn picture_of<R: Read + Drop>(alloc: Global, asked: Asked, input: R) -> Result<Vec<String>, Fault>
    ensures stands { IfOk result (λ rows. IfSome (R.remaining input) (λ bytes. Stands asked bytes (map (λ row. string_bytes row) rows.items))) }
    ensures cells { OnOk result (HasCells asked.size) }
    ensures fault { IfErr result (λ fault. EndsOn asked (R.remaining input) fault) }
{
    let mut player = Player::new(alloc, asked)?;
    let input = buffered(alloc, input)?;
    play(alloc, &mut player, input)?;
    a_new_terminal_is_an_opening();
    let rows = player.picture()?;
    Ok(rows)
}

/// The input with a buffer.
fn buffered<R: Read + Drop>(alloc: Global, input: R) -> Result<BufReader<Input<R>>, Fault>
    ensures remaining { IfOk result (λ reader. reader_remaining (λ given. R.remaining given.0) reader ≡ R.remaining input) }
    ensures fault { IfErr result (λ fault. fault ≡ Fault.Refused Refusal.Memory) }
{
    match BufReader::new(alloc, Input(input)) {
        Ok(reader) => Ok(reader),
        Err(_) => Err(Fault::Refused(Refusal::Memory)),
    }
}

/// Plays each line.
fn play<R: BufRead + Drop>(alloc: Global, player: &mut Player, input: R) -> Result<(), Fault>
    ensures played { (asked : AskedFor) → HasPlayed asked [] player.old.board →
        OnOk result (IfSome (R.remaining input) (λ bytes. HasPlayed asked (input_lines bytes) player.new.board)) }
    ensures fault { (asked : AskedFor) → HasPlayed asked [] player.old.board → IfErr result (λ fault. EndsOn asked (R.remaining input) fault) }
{
    let mut number: u64 = 0;
    for line in input.split(alloc, b'\n') {
        number = number.saturating_add(1);
        let line = match line {
            Ok(line) => line,
            Err(e) => return Err(unread(number, &e)),
        };
        play_line(player, number, line.as_slice())?;
    }
    Ok(())
}

/// Plays the line with this number.
fn play_line(player: &mut Player, number: u64, line: &[u8]) -> Result<(), Fault>
    ensures played { OnOk result ((command : Spelled) × (spelled line.now ≡ Some command) × Obeys command player.old.board player.new.board) }
    ensures fault { IfErr result (λ fault. LineEnds number line.now fault) }
{
    let Some(command) = Command::spelt(line) else {
        return Err(Fault::BadCommand(number));
    };
    match player.obey(command) {
        Ok(()) => Ok(()),
        Err(refusal) => Err(Fault::Line(number, refusal)),
    }
}

/// Why the line with this number couldn't be read: there was no memory for it, or the input failed.
fn unread(number: u64, e: &io::Error) -> Fault
    ensures { (result ≡ Fault.Line number Refusal.Memory) ⊎ (result ≡ Fault.Input) }
{
    match e.kind() {
        ErrorKind::OutOfMemory => Fault::Line(number, Refusal::Memory),
        _ => Fault::Input,
    }
}

/// Prints rows up to the last one that isn't empty, each ended by a newline.
fn print<O: Write>(rows: &[String], out: &mut O) -> io::Result<()>
    ensures { OnOk result (Appends (O.contents out.old) (O.contents out.new) (printed (map (λ row. string_bytes row) rows.now))) }
{
    let shown = up_to_last(rows);
    for row in shown {
        writeln!(out, "{row}")?;
    }
    out.flush()
}

/// Rows up to the last one that isn't empty.
fn up_to_last(rows: &[String]) -> &[String]
    ensures { map (λ row. string_bytes row) result.now ≡ trimmed (map (λ row. string_bytes row) rows.now) }
{
    let mut shown = rows;
    while let Some((last, front)) = shown.split_last() {
        if !last.is_empty() {
            break;
        }
        shown = front;
    }
    shown
}
