//! A script over standard input and output.
ghost use Rattle.std.specs.Prelude.{◌≡◌, ◌≢◌, ◌+◌, ◌<◌, ◌≤◌, ◌⊎◌, IfOk, IfErr, OnOk, OnErr, IfSome, Err};
ghost use Rattle.adr_state.specs.States.{empty};
ghost use Rattle.adr_script.specs.declared.fault.ScriptFault.TheVariants as fault;
ghost use Rattle.adr_script.specs.Lines.{HasLongLine, HasManyLines, most_reads};
ghost use Rattle.adr_wire.specs.Calls.{NoneFails, LastFails, RunsOut};
ghost use Rattle.adr_node.specs.declared.ending.NodeFault.TheVariants.{Script, Store};
ghost use Rattle.adr_node.specs.Endings.{IsOfOpening};
ghost use Rattle.adr_node.specs.Script.{settings_of, RunsFromEmpty, StopsFromEmpty, EndsAtLongLine, EndsAtManyLines};

use crate::ending::NodeFault;
use adr_desk::MemoryDesk;
use adr_desk::laws::memory_stands;
use adr_http::{ScriptFault, run_script};
use adr_machine::Desk;
use adr_state::{Limits, Settings};
use adr_text::{Name, Reader, Sink, Source, Writer};
use std::alloc::Global;
use std::io;
use std::io::{Read, Write};
use std::marker::Brand;
use std::sync::ledger::{Blank, Ledger};

/// The name under which the node reports.
const CLIENT: &str = "aggregator";

/// A desk over tables in memory, in the empty state and under these limits.
fn open(alloc: Global, limits: Limits) -> Result<MemoryDesk, NodeFault>
    ensures state { IfOk result (λ desk. ⟦<MemoryDesk as Desk>⟧.state desk ≡ empty) }
    ensures settings { IfOk result (λ desk. ⟦<MemoryDesk as Desk>⟧.settings desk ≡ settings_of limits) }
    ensures sound { IfOk result (λ desk. ⟦<MemoryDesk as Desk>⟧.is_sound desk) }
    ensures refused { IfErr result IsOfOpening }
{
    let Ok(client) = Name::new(alloc, CLIENT) else {
        return Err(NodeFault::Script(ScriptFault::OutOfMemory));
    };
    Ok(MemoryDesk::open_memory(alloc, Settings { client, limits })?)
}

/// Runs a script from the empty state, under these limits, and gives how many lines were printed. After
/// a fault the first lines were taken, and the front of what they print is written; none where the store
/// refused to be opened.
fn run_from_empty<S: Source, W: Sink>(
    alloc: Global,
    limits: Limits,
    source: &mut S,
    sink: &mut W,
) -> Result<u64, NodeFault>
    ensures all { IfOk result (λ n. IfSome (S.left source.old) (λ text. RunsFromEmpty limits text (W.written sink.old) (W.written sink.new) n)) }
    ensures some { OnErr result (IfSome (S.left source.old) (λ text. StopsFromEmpty limits text (W.written sink.old) (W.written sink.new))) }
    ensures read_fault { result ≡ Err (Script fault.Read) → LastFails (S.calls source.old) (S.calls source.new) ⊎ RunsOut most_reads (S.calls source.old) (S.calls source.new) }
    ensures no_read_fault { result ≢ Err (Script fault.Read) → NoneFails (S.calls source.old) (S.calls source.new) }
    ensures write_fault { result ≡ Err (Script fault.Write) → LastFails (W.calls sink.old) (W.calls sink.new) }
    ensures no_write_fault { result ≢ Err (Script fault.Write) → NoneFails (W.calls sink.old) (W.calls sink.new) }
    ensures store_fault { result ≡ Err Store → (source.new ≡ source.old) × (sink.new ≡ sink.old) }
    ensures reads { (S.calls source.new).made ≤ (S.calls source.old).made + most_reads }
    ensures long_line { result ≡ Err (Script fault.LineTooLong) → IfSome (S.left source.old) (λ text. EndsAtLongLine limits text (W.written sink.old) (W.written sink.new)) }
    ensures long_script { result ≡ Err (Script fault.ScriptTooLong) → IfSome (S.left source.old) (λ text. EndsAtManyLines limits text (W.written sink.old) (W.written sink.new)) }
    ensures short_lines { OnOk result (IfSome (S.left source.old) (λ text. ¬ HasLongLine text)) }
    ensures few_lines { OnOk result (IfSome (S.left source.old) (λ text. ¬ HasManyLines text)) }
{
    let mut desk = open(alloc, limits)?;
    memory_stands();
    Ok(run_script(alloc, &mut desk, source, sink)?)
}

/// The same over a reader and a writer.
fn run_over<R: Read + Drop, W: Write + Drop, K: Ledger, L: Ledger>(
    alloc: Global,
    limits: Limits,
    reader: R,
    writer: W,
    reads: Blank,
    writes: Blank,
) -> Result<u64, NodeFault>
    requires read_name { reads.name ≡ K.name }
    requires read_parts { reads.parts ≡ K.parts }
    requires read_two { 1 < reads.parts }
    requires write_name { writes.name ≡ L.name }
    requires write_parts { writes.parts ≡ L.parts }
    requires write_two { 1 < writes.parts }
{
    let mut source = Reader::<R, K>::new(reader, reads);
    let mut sink = Writer::<W, L>::new(writer, writes);
    run_from_empty(alloc, limits, &mut source, &mut sink)
}

fn run_branded<R: Read + Drop, W: Write + Drop>(
    alloc: Global,
    limits: Limits,
    reader: R,
    writer: W,
) -> Result<u64, NodeFault> {
    run_over::<R, W, Brand, Brand>(alloc, limits, reader, writer, Blank::new(2), Blank::new(2))
}

/// Runs the script on standard input from the empty state, under these limits, and gives how many lines
/// were printed. Each line is handed to standard output as it is printed, and none is kept back.
pub fn run<R: Input + Print + AllocGlobal>(rt: &R, limits: Limits) -> Result<u64, NodeFault> {
    run_branded(rt.alloc(), limits, rt.reader(), io::writer(rt))
}
