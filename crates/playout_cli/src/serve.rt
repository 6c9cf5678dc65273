//! The word `serve`: connections on a port, over a database in a file.
ghost use Rattle.std.specs.Prelude.{◌≡◌, ◌≢◌, ◌∷◌, [], true, false, IfOk, IfErr, OnOk, OnErr, Err};
ghost use Rattle.std.specs.Io.KnownBytes.{Appends};
ghost use Rattle.sqlite.specs.State.{HasCleanDisk};
ghost use Rattle.sqlite.specs.Held.{state};
ghost use Rattle.channel_plan.specs.declared.refusal.Refusal.{Refusal};
ghost use Rattle.playout_lists.specs.Telling.{has_told};
ghost use Rattle.playout_peers.specs.Wire.{unknown};
ghost use Rattle.playout_peers.specs.Peers.{ServesPeers};
ghost use Rattle.station_tables_statements.specs.Rows.{StandsFor};
ghost use Rattle.station_tables_writing.specs.Tables.{MayLeave};
ghost use Rattle.station_tables_opening.specs.Left.{LeavesFound};
ghost use Rattle.playout_cli.specs.Kept.{BeginsWith};
ghost use Rattle.station_tables_opening.specs.Opens.{RefusesToOpen};
ghost use Rattle.playout_cli.specs.Serving.{PortHas, PortOverHas, SaysPort, ServesOver, most_of};
ghost use Rattle.playout_cli.specs.Serving.{text_of_serving, line_of_serving};
ghost use Rattle.report_texts.specs.Output.{AppendsPart};

use crate::machine::Ports;
use crate::vaults::with_vaults;
use channel_view_model::RowStore;
use playout_lists::{Fault, FaultLines, FaultWriter, StreamFault};
use playout_peers::{Door, InTurn, Limits, serve_peers};
use report_texts::{LineBuffer, WriteFault, print_line, push, push_decimal};
use rows_at_hand::RecentDays;
use sqlite::{Alter, Connection};
use station_tables::SqlRows;
use std::alloc::Global;
use std::io::Write;

// Where connections are served.
fn text_of_serving(port: u16) -> LineBuffer
    ensures { result.items ≡ text_of_serving port }
{
    let mut line = LineBuffer::new();
    push(&mut line, b"serving 127.0.0.1:");
    push_decimal(&mut line, port);
    line
}

// Says where connections are served, in one line.
fn announce<W: Write>(port: u16, output: &mut W) -> Result<(), WriteFault>
    ensures ok { OnOk result (Appends (W.contents output.old) (W.contents output.new) (line_of_serving port)) }
    ensures err { OnErr result (AppendsPart (W.contents output.old) (W.contents output.new) (line_of_serving port)) }
{
    print_line(output, text_of_serving(port).as_slice())
}

/// What is asked of the word: the port, how many connections are open at once and are served in all, and how many
/// seconds a peer is waited for.
#[derive(Clone, Copy)]
pub struct ServeAsked {
    pub port: u16,
    pub peers: u16,
    pub turns: Option<u32>,
    pub idle: u16,
}

// How many connections are served in all.
fn most_of(turns: Option<u32>) -> u64
    ensures { result ≡ most_of turns }
{
    match turns {
        Some(turns) => u64::from(turns),
        None => u64::MAX,
    }
}

// Says where connections are served, and serves those of this door.
fn serve_door<S: RowStore, D: Door, W: Write, E: FaultWriter>(
    alloc: Global,
    store: &mut S,
    door: &mut D,
    port: u16,
    limits: Limits,
    output: &mut W,
    faults: &mut FaultLines<E>,
) -> Result<bool, Fault>
    ensures did { IfOk result (ServesPeers S.is_clean S.stands_for S.may_leave S.leaves_sets
        store.old store.new (D.wire door.old) (D.wire door.new) limits.turns
        (has_told E.contents faults.old) (has_told E.contents faults.new)) }
    ensures quiet { IfOk result (λ quiet. quiet ≡ true →
        has_told E.contents faults.new ≡ has_told E.contents faults.old) }
    ensures none { OnErr result (store.new ≡ store.old) }
    ensures untold { OnErr result (has_told E.contents faults.new ≡ has_told E.contents faults.old) }
    ensures said { OnOk result (Appends (W.contents output.old) (W.contents output.new) (line_of_serving port)) }
    ensures part { OnErr result (AppendsPart (W.contents output.old) (W.contents output.new) (line_of_serving port)) }
    ensures err { IfErr result (λ fault. fault ≡ Fault.Stream StreamFault.Write) }
{
    announce(port, output)?;
    Ok(serve_peers(alloc, store, door, limits, faults))
}

fn limits_of(asked: ServeAsked) -> Limits
    ensures { result.turns ≡ most_of asked.turns }
{
    Limits {
        peers: asked.peers,
        turns: most_of(asked.turns),
        idle: asked.idle,
    }
}

// Listens on this port of 127.0.0.1, says so, and serves connections, one after another.
fn serve_in_turn<S: RowStore, P: Ports, W: Write, E: FaultWriter>(
    alloc: Global,
    ports: &P,
    store: &mut S,
    asked: ServeAsked,
    output: &mut W,
    faults: &mut FaultLines<E>,
) -> Result<bool, Fault>
    ensures did { IfOk result (ServesPeers S.is_clean S.stands_for S.may_leave S.leaves_sets
        store.old store.new (λ n. unknown) (λ n. unknown) (most_of asked.turns)
        (has_told E.contents faults.old) (has_told E.contents faults.new)) }
    ensures quiet { IfOk result (λ quiet. quiet ≡ true →
        has_told E.contents faults.new ≡ has_told E.contents faults.old) }
    ensures none { OnErr result (store.new ≡ store.old) }
    ensures untold { OnErr result (has_told E.contents faults.new ≡ has_told E.contents faults.old) }
    ensures says { SaysPort asked.port (W.contents output.old) (W.contents output.new) result }
    ensures err { IfErr result PortHas }
{
    let found = ports.listen(asked.port)?;
    let mut door = InTurn::new(&found.0, asked.idle);
    serve_door(
        alloc,
        store,
        &mut door,
        found.1,
        limits_of(asked),
        output,
        faults,
    )
}

// The same, where several are open at once.
fn serve_at_once<S: RowStore, P: Ports, W: Write, E: FaultWriter>(
    alloc: Global,
    ports: &P,
    store: &mut S,
    asked: ServeAsked,
    output: &mut W,
    faults: &mut FaultLines<E>,
) -> Result<bool, Fault>
    ensures did { IfOk result (ServesPeers S.is_clean S.stands_for S.may_leave S.leaves_sets
        store.old store.new (λ n. unknown) (λ n. unknown) (most_of asked.turns)
        (has_told E.contents faults.old) (has_told E.contents faults.new)) }
    ensures quiet { IfOk result (λ quiet. quiet ≡ true →
        has_told E.contents faults.new ≡ has_told E.contents faults.old) }
    ensures none { OnErr result (store.new ≡ store.old) }
    ensures untold { OnErr result (has_told E.contents faults.new ≡ has_told E.contents faults.old) }
    ensures says { SaysPort asked.port (W.contents output.old) (W.contents output.new) result }
    ensures err { IfErr result PortHas }
{
    let mut found = ports.listen_at_once(alloc, asked.port, usize::from(asked.peers))?;
    let port = found.1;
    serve_door(
        alloc,
        store,
        &mut found.0,
        port,
        limits_of(asked),
        output,
        faults,
    )
}

// Serves connections on this port. Whether none had a fault.
fn serve_port<S: RowStore, P: Ports, W: Write, E: FaultWriter>(
    alloc: Global,
    ports: &P,
    store: &mut S,
    asked: ServeAsked,
    output: &mut W,
    faults: &mut FaultLines<E>,
) -> Result<bool, Fault>
    ensures did { IfOk result (ServesPeers S.is_clean S.stands_for S.may_leave S.leaves_sets
        store.old store.new (λ n. unknown) (λ n. unknown) (most_of asked.turns)
        (has_told E.contents faults.old) (has_told E.contents faults.new)) }
    ensures quiet { IfOk result (λ quiet. quiet ≡ true →
        has_told E.contents faults.new ≡ has_told E.contents faults.old) }
    ensures none { OnErr result (store.new ≡ store.old) }
    ensures untold { OnErr result (has_told E.contents faults.new ≡ has_told E.contents faults.old) }
    ensures says { SaysPort asked.port (W.contents output.old) (W.contents output.new) result }
    ensures err { IfErr result PortHas }
{
    if asked.peers == 1 {
        serve_in_turn(alloc, ports, store, asked, output, faults)
    } else {
        serve_at_once(alloc, ports, store, asked, output, faults)
    }
}

/// Opens the tables of a centre, listens on this port of 127.0.0.1, or on a free one where it is 0, writes a line that
/// says which, and serves connections over them, as many in all and at once as is asked. The connection comes back.
/// Whether none had a fault.
///
/// A fault of a connection goes to `faults` as one line. One of the tables or the port comes before any connection.
pub fn serve_tables<S: Alter, P: Ports, W: Write, E: FaultWriter>(
    alloc: Global,
    ports: &P,
    conn: Connection<S>,
    asked: ServeAsked,
    output: &mut W,
    faults: &mut FaultLines<E>,
) -> (Connection<S>, Result<bool, Fault>)
    requires idle { conn.in_transaction ≡ false }
    ensures idle { result.0.in_transaction ≡ false }
    // Over the rows that the tables held. The tables stand for the rows that are left, and a stop leaves these, or
    // whole messages.
    ensures ok { IfOk result.1 (ServesOver
        (λ rows. HasCleanDisk (state S.Store result.0) × BeginsWith [] (state S.Store conn) rows)
        (StandsFor (state S.Store result.0)) (MayLeave (state S.Store result.0)) (most_of asked.turns)
        (has_told E.contents faults.old) (has_told E.contents faults.new)) }
    ensures err { IfErr result.1 (PortOverHas (RefusesToOpen (state S.Store conn) (state S.Store result.0))
        (λ rows. HasCleanDisk (state S.Store result.0) × BeginsWith [] (state S.Store conn) rows)
        (StandsFor (state S.Store result.0)) (MayLeave (state S.Store result.0))) }
    ensures quiet { IfOk result.1 (λ quiet. quiet ≡ true →
        has_told E.contents faults.new ≡ has_told E.contents faults.old) }
    ensures untold { OnErr result.1 (has_told E.contents faults.new ≡ has_told E.contents faults.old) }
    ensures says { SaysPort asked.port (W.contents output.old) (W.contents output.new) result.1 }
    // Where the tables are refused, what is committed is what was, or what was found, whatever the database holds.
    ensures refused { (refusal : Refusal) → result.1 ≡ Err (Fault.Refused refusal) →
        HasCleanDisk (state S.Store result.0) → LeavesFound (state S.Store conn) (state S.Store result.0) }
{
    match SqlRows::open_tables(alloc, conn) {
        Ok(opened) => {
            let mut store = RecentDays::over(alloc, with_vaults(alloc, opened));
            let served = serve_port(alloc, ports, &mut store, asked, output, faults);
            let tables = store.into_store().into_store().into_store();
            (tables.into_connection(), served)
        }
        Err((conn, refusal)) => (conn, Err(Fault::Refused(refusal))),
    }
}
