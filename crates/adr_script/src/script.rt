//! Scripts: lines as they come, each answered in its turn.
ghost use Rattle.std.specs.Prelude.{◌≡◌, ◌≢◌, ◌+◌, ◌≤◌, ◌<◌, ◌⊎◌, ℕ, List, [], ◌∷◌, ◌++◌, length, IfOk, IfErr, OnOk, OnErr, IfSome, Err};
ghost use Rattle.adr_script.specs.declared.fault.ScriptFault.TheVariants.{Read, Write, LineTooLong, ScriptTooLong};
ghost use Rattle.adr_script.specs.Lines.{lines_of, HasLongLine, HasManyLines, most_bytes, most_lines, most_reads};
ghost use Rattle.adr_script.specs.Scripts.{RunsScript, StopsScript, StopsAtLongLine, StopsAtManyLines};
ghost use Rattle.adr_wire.specs.Calls.{NoneFails, LastFails, RunsOut};
ghost use Rattle.adr_script.specs.Readings.{HasRead, HasStopped};

use crate::fault::ScriptFault;
use crate::progress::Progress;
use crate::turn::answer_line;
use adr_machine::Desk;
use adr_routes::Routes;
use adr_text::{Sink, Source};
use adr_wire::write_all;
use std::alloc::Global;

/// The most bytes of a line, without its LF.
pub const MOST_BYTES: usize = 1_048_576;

/// The most lines of a script, empty ones too.
pub const MOST_LINES: u64 = 1_000_000;

/// The most reads of one run, 2^41.
pub const MOST_READS: u64 = 2_199_023_255_552;

/// Answers the line so far, and gives how many are printed then; an empty one is passed over.
fn end_line<D: Desk, W: Sink>(
    alloc: Global,
    routes: &Routes,
    desk: &mut D,
    sink: &mut W,
    progress: &Progress,
) -> Result<u64, ScriptFault>
    ensures ok { IfOk result (λ n. D.is_sound desk.new → RunsScript D.may_refuse (D.settings desk.old) (D.state desk.old) (progress.now.line.items ∷ []) (D.state desk.new) (W.written sink.old) (W.written sink.new) progress.now.printed n) }
    ensures few { IfOk result (λ n. n ≤ progress.now.printed + 1) }
    ensures err { OnErr result ((0 < length progress.now.line.items) × (D.is_sound desk.new → (others : List (List ℕ)) → StopsScript D.may_refuse (D.settings desk.old) (D.state desk.old) (progress.now.line.items ∷ others) (D.state desk.new) (W.written sink.old) (W.written sink.new))) }
    ensures no_write_fault { result ≢ Err Write → NoneFails (W.calls sink.old) (W.calls sink.new) }
    ensures write_fault { result ≡ Err Write → LastFails (W.calls sink.old) (W.calls sink.new) }
    ensures no_read_fault { result ≢ Err Read }
    ensures no_long_line { result ≢ Err LineTooLong }
    ensures no_long_script { result ≢ Err ScriptTooLong }
    ensures was_sound { D.is_sound desk.new → D.is_sound desk.old }
    ensures stays_sound { D.is_sound desk.old → D.stands desk.new → D.is_sound desk.new }
    ensures stood { D.stands desk.new → D.stands desk.old }
    ensures same_settings { D.settings desk.new ≡ D.settings desk.old }
{
    let line = progress.line.as_slice();
    if line.is_empty() {
        return Ok(progress.printed);
    }
    let out = answer_line(alloc, routes, desk, line)?;
    match write_all(sink, out.as_str().as_bytes()) {
        Ok(()) => Ok(progress.printed + 1),
        Err(_) => Err(ScriptFault::Write),
    }
}

/// Takes the LF of a line.
fn take_end<D: Desk, W: Sink>(
    alloc: Global,
    routes: &Routes,
    desk: &mut D,
    sink: &mut W,
    progress: &mut Progress,
) -> Result<(), ScriptFault>
    requires { progress.old.seen < most_lines }
    ensures ok { OnOk result (HasRead (D.is_sound desk.new) D.may_refuse (D.settings desk.old) (D.state desk.old) (D.state desk.new) (W.written sink.old) (W.written sink.new) progress.old progress.new (10 ∷ [])) }
    ensures err { IfErr result (λ fault. (rest : List ℕ) → HasStopped (D.is_sound desk.new) D.may_refuse (D.settings desk.old) (D.state desk.old) (D.state desk.new) (W.written sink.old) (W.written sink.new) progress.old (10 ∷ rest) fault) }
    ensures no_write_fault { result ≢ Err Write → NoneFails (W.calls sink.old) (W.calls sink.new) }
    ensures write_fault { result ≡ Err Write → LastFails (W.calls sink.old) (W.calls sink.new) }
    ensures no_read_fault { result ≢ Err Read }
    ensures was_sound { D.is_sound desk.new → D.is_sound desk.old }
    ensures stays_sound { D.is_sound desk.old → D.stands desk.new → D.is_sound desk.new }
    ensures stood { D.stands desk.new → D.stands desk.old }
    ensures same_settings { D.settings desk.new ≡ D.settings desk.old }
{
    progress.printed = end_line(alloc, routes, desk, sink, progress)?;
    progress.line.clear();
    progress.seen += 1;
    Ok(())
}

/// Takes one byte more.
fn take_byte<D: Desk, W: Sink>(
    alloc: Global,
    routes: &Routes,
    desk: &mut D,
    sink: &mut W,
    progress: &mut Progress,
    byte: u8,
) -> Result<(), ScriptFault>
    ensures ok { OnOk result (HasRead (D.is_sound desk.new) D.may_refuse (D.settings desk.old) (D.state desk.old) (D.state desk.new) (W.written sink.old) (W.written sink.new) progress.old progress.new (byte ∷ [])) }
    ensures err { IfErr result (λ fault. (rest : List ℕ) → HasStopped (D.is_sound desk.new) D.may_refuse (D.settings desk.old) (D.state desk.old) (D.state desk.new) (W.written sink.old) (W.written sink.new) progress.old (byte ∷ rest) fault) }
    ensures long_script_is_told { progress.old.seen ≡ most_lines → result ≡ Err ScriptTooLong }
    ensures long_line_is_told { progress.old.seen < most_lines → byte ≢ 10 → length progress.old.line.items ≡ most_bytes → result ≡ Err LineTooLong }
    ensures no_write_fault { result ≢ Err Write → NoneFails (W.calls sink.old) (W.calls sink.new) }
    ensures write_fault { result ≡ Err Write → LastFails (W.calls sink.old) (W.calls sink.new) }
    ensures no_read_fault { result ≢ Err Read }
    ensures was_sound { D.is_sound desk.new → D.is_sound desk.old }
    ensures stays_sound { D.is_sound desk.old → D.stands desk.new → D.is_sound desk.new }
    ensures stood { D.stands desk.new → D.stands desk.old }
    ensures same_settings { D.settings desk.new ≡ D.settings desk.old }
{
    if progress.seen == MOST_LINES {
        return Err(ScriptFault::ScriptTooLong);
    }
    if byte == b'\n' {
        return take_end(alloc, routes, desk, sink, progress);
    }
    let so_far = progress.line.as_slice().len();
    if so_far == MOST_BYTES {
        return Err(ScriptFault::LineTooLong);
    }
    progress.line.push(byte)?;
    Ok(())
}

/// Takes a piece more.
fn take_piece<D: Desk, W: Sink>(
    alloc: Global,
    routes: &Routes,
    desk: &mut D,
    sink: &mut W,
    progress: &mut Progress,
    piece: &[u8],
) -> Result<(), ScriptFault>
    ensures ok { OnOk result (HasRead (D.is_sound desk.new) D.may_refuse (D.settings desk.old) (D.state desk.old) (D.state desk.new) (W.written sink.old) (W.written sink.new) progress.old progress.new piece.now) }
    ensures err { IfErr result (λ fault. (rest : List ℕ) → HasStopped (D.is_sound desk.new) D.may_refuse (D.settings desk.old) (D.state desk.old) (D.state desk.new) (W.written sink.old) (W.written sink.new) progress.old (piece.now ++ rest) fault) }
    ensures no_write_fault { result ≢ Err Write → NoneFails (W.calls sink.old) (W.calls sink.new) }
    ensures write_fault { result ≡ Err Write → LastFails (W.calls sink.old) (W.calls sink.new) }
    ensures no_read_fault { result ≢ Err Read }
    ensures was_sound { D.is_sound desk.new → D.is_sound desk.old }
    ensures stays_sound { D.is_sound desk.old → D.stands desk.new → D.is_sound desk.new }
    ensures stood { D.stands desk.new → D.stands desk.old }
    ensures same_settings { D.settings desk.new ≡ D.settings desk.old }
{
    for byte in piece {
        take_byte(alloc, routes, desk, sink, progress, *byte)?;
    }
    Ok(())
}

/// Runs the lines of a script as they come, over routes that stand.
fn run_lines<D: Desk, S: Source, W: Sink>(
    alloc: Global,
    routes: &Routes,
    desk: &mut D,
    source: &mut S,
    sink: &mut W,
) -> Result<u64, ScriptFault>
    ensures all { IfOk result (λ n. IfSome (S.left source.old) (λ text. D.is_sound desk.new → RunsScript D.may_refuse (D.settings desk.old) (D.state desk.old) (lines_of text) (D.state desk.new) (W.written sink.old) (W.written sink.new) 0 n)) }
    ensures some { OnErr result (IfSome (S.left source.old) (λ text. D.is_sound desk.new → StopsScript D.may_refuse (D.settings desk.old) (D.state desk.old) (lines_of text) (D.state desk.new) (W.written sink.old) (W.written sink.new))) }
    ensures read_fault { result ≡ Err Read → LastFails (S.calls source.old) (S.calls source.new) ⊎ RunsOut most_reads (S.calls source.old) (S.calls source.new) }
    ensures no_read_fault { result ≢ Err Read → NoneFails (S.calls source.old) (S.calls source.new) }
    ensures write_fault { result ≡ Err Write → LastFails (W.calls sink.old) (W.calls sink.new) }
    ensures no_write_fault { result ≢ Err Write → NoneFails (W.calls sink.old) (W.calls sink.new) }
    ensures reads { (S.calls source.new).made ≤ (S.calls source.old).made + most_reads }
    ensures long_line { result ≡ Err LineTooLong → IfSome (S.left source.old) (λ text. StopsAtLongLine (D.is_sound desk.new) D.may_refuse (D.settings desk.old) (D.state desk.old) (lines_of text) (D.state desk.new) (W.written sink.old) (W.written sink.new) 0 0) }
    ensures long_script { result ≡ Err ScriptTooLong → IfSome (S.left source.old) (λ text. StopsAtManyLines (D.is_sound desk.new) D.may_refuse (D.settings desk.old) (D.state desk.old) (lines_of text) (D.state desk.new) (W.written sink.old) (W.written sink.new) 0 0) }
    ensures short_lines { OnOk result (IfSome (S.left source.old) (λ text. ¬ HasLongLine text)) }
    ensures few_lines { OnOk result (IfSome (S.left source.old) (λ text. ¬ HasManyLines text)) }
    ensures was_sound { D.is_sound desk.new → D.is_sound desk.old }
    ensures stays_sound { D.is_sound desk.old → D.stands desk.new → D.is_sound desk.new }
    ensures stood { D.stands desk.new → D.stands desk.old }
    ensures same_settings { D.settings desk.new ≡ D.settings desk.old }
{
    let mut progress = Progress {
        line: Vec::new(alloc),
        seen: 0,
        printed: 0,
    };
    let mut buffer = [0u8; 8192];
    for _ in 0..MOST_READS {
        let n = match source.pull(&mut buffer) {
            Ok(n) => n,
            Err(_) => return Err(ScriptFault::Read),
        };
        if n == 0 {
            return end_line(alloc, routes, desk, sink, &progress);
        }
        take_piece(alloc, routes, desk, sink, &mut progress, &buffer[..n])?;
    }
    Err(ScriptFault::Read)
}

/// Runs the lines of a script as they come, each in its turn, and answers how many were printed.
///
/// A line has at most 1,048,576 bytes without its LF, and there are at most 1,000,000 lines; an empty
/// one counts there and is passed over. Where a limit is passed, all lines before it are answered and
/// printed; after any other fault the first lines are, and of what the last of them prints maybe a part.
pub fn run_script<D: Desk, S: Source, W: Sink>(
    alloc: Global,
    desk: &mut D,
    source: &mut S,
    sink: &mut W,
) -> Result<u64, ScriptFault>
    ensures all { IfOk result (λ n. IfSome (S.left source.old) (λ text. D.is_sound desk.new → RunsScript D.may_refuse (D.settings desk.old) (D.state desk.old) (lines_of text) (D.state desk.new) (W.written sink.old) (W.written sink.new) 0 n)) }
    ensures some { OnErr result (IfSome (S.left source.old) (λ text. D.is_sound desk.new → StopsScript D.may_refuse (D.settings desk.old) (D.state desk.old) (lines_of text) (D.state desk.new) (W.written sink.old) (W.written sink.new))) }
    ensures read_fault { result ≡ Err Read → LastFails (S.calls source.old) (S.calls source.new) ⊎ RunsOut most_reads (S.calls source.old) (S.calls source.new) }
    ensures no_read_fault { result ≢ Err Read → NoneFails (S.calls source.old) (S.calls source.new) }
    ensures write_fault { result ≡ Err Write → LastFails (W.calls sink.old) (W.calls sink.new) }
    ensures no_write_fault { result ≢ Err Write → NoneFails (W.calls sink.old) (W.calls sink.new) }
    ensures reads { (S.calls source.new).made ≤ (S.calls source.old).made + most_reads }
    ensures long_line { result ≡ Err LineTooLong → IfSome (S.left source.old) (λ text. StopsAtLongLine (D.is_sound desk.new) D.may_refuse (D.settings desk.old) (D.state desk.old) (lines_of text) (D.state desk.new) (W.written sink.old) (W.written sink.new) 0 0) }
    ensures long_script { result ≡ Err ScriptTooLong → IfSome (S.left source.old) (λ text. StopsAtManyLines (D.is_sound desk.new) D.may_refuse (D.settings desk.old) (D.state desk.old) (lines_of text) (D.state desk.new) (W.written sink.old) (W.written sink.new) 0 0) }
    ensures short_lines { OnOk result (IfSome (S.left source.old) (λ text. ¬ HasLongLine text)) }
    ensures few_lines { OnOk result (IfSome (S.left source.old) (λ text. ¬ HasManyLines text)) }
    ensures was_sound { D.is_sound desk.new → D.is_sound desk.old }
    ensures stays_sound { D.is_sound desk.old → D.stands desk.new → D.is_sound desk.new }
    ensures stood { D.stands desk.new → D.stands desk.old }
    ensures same_settings { D.settings desk.new ≡ D.settings desk.old }
{
    let routes = Routes::new(alloc)?;
    run_lines(alloc, &routes, desk, source, sink)
}
