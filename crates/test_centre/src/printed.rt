//! Tables of a channel as text, over both stores, to writers that take all of it and that fail.

use crate::asserts::same_in;
use crate::centres::{are_answered, tables_of};
use channel_plan::PlanRow;
use channel_view::MemRows;
use channel_view_model::{RowStore, Table, TableFault};
use std::alloc::Global;
use std::io::{self, Error, ErrorKind, Write};
use std::process::Abort;

// Two tapes of channel 1, of which one is pulled, a clip that is lent to channel 2, and two days; and a tape, a clip and
// a day of this.
const MESSAGES: &str = r#"
> POST /ch/1/tapes {"barcode":"T1","slot":5}
< 200 {"tape":1}
> POST /ch/2/tapes {"barcode":"T1","slot":1}
< 200 {"tape":1}
> POST /ch/1/tapes {"barcode":"T2","slot":6}
< 200 {"tape":2}
> POST /ch/1/tapes/2/pull
< 200 {"tape":2}
> POST /ch/1/clips {"frames":125,"in":"00:00:00:00","tape":1,"title":"NEWS",
+ "umid":"060a2b340101010501010d201300000000112233445566778899aabbccddeeff"}
< 200 {"clip":"C0000001"}
> POST /ch/2/clips {"frames":2,"in":"00:01:00;02","tape":1,"title":"~ 2",
+ "umid":"060a2b340101010501010d201300000000112233445566778899aabbccddeeff"}
< 200 {"clip":"C0000001"}
> POST /ch/1/offers {"clip":"C0000001","to":2}
< 200 {"offer":1}
> POST /ch/1/days {"day":2000}
< 200 {"day":2000}
> POST /ch/2/days {"day":3}
< 200 {"day":3}
> POST /ch/1/days {"day":3}
< 200 {"day":3}
> POST /ch/1/days/3/items {"at":"06:00:00:00","frames":1000,"in":"00:00:00:00","mix":0,"source":"BL"}
< 200 {"item":1}
> POST /ch/1/days/3/items {"at":"07:00:00:00","frames":125,"in":"00:00:00:00","mix":0,"source":"C0000001"}
< 200 {"item":2}
"#;

const VAULT: &[u8] = b"   1 T1          5\n   2 T2        out\nTAPES 2 SHELVED 1 SLOTS 40\n";

const CLIPS: &[u8] = b"C0000001 active  00:00:00:00     125    1 \
    060a2b340101010501010d201300000000112233445566778899aabbccddeeff NEWS\nCLIPS 1\n";

const DROP_FRAME_CLIPS: &[u8] = b"C0000001 active  00:01:00;02       2    1 \
    060a2b340101010501010d201300000000112233445566778899aabbccddeeff ~ 2\nCLIPS 1\n";

const OFFERS: &[u8] = b"0001 C0000001 002 open\nOFFERS 1\n";

const LENT: &[u8] = b"L0010001 open      25 00:00:00:00     125 \
    060a2b340101010501010d201300000200112233445566778899aabbccddeeff NEWS\nLENT 1\n";

const DAYS: &[u8] = b"    3 OPEN      2    1125  0\n 2000 OPEN      0       0  0\nDAYS 2\n";

// A writer that takes so many bytes, and then fails.
#[derive(Drop)]
struct Taking {
    room: usize,
    taken: Vec<u8>,
}

impl Write for Taking {
    fn write(&mut self, buf: &[u8]) -> io::Result<usize> {
        let count = self.room.min(buf.len());
        if count == 0 {
            return Err(Error::from(ErrorKind::Other));
        }
        match self.taken.extend_from_slice(&buf[..count]) {
            Ok(()) => {
                self.room -= count;
                Ok(count)
            }
            Err(_) => Err(Error::from(ErrorKind::OutOfMemory)),
        }
    }

    fn flush(&mut self) -> io::Result<()> {
        Ok(())
    }
}

// A table of a channel, written to a writer that takes so many bytes: they are a beginning of this text, all of it
// where there is room.
fn is_written<S: RowStore>(
    rt: &impl Abort,
    alloc: Global,
    store: &mut S,
    room: usize,
    asked: (u16, Table, &[u8]),
) {
    let (channel, table, text) = asked;
    let mut output = Taking {
        room,
        taken: Vec::new(alloc),
    };
    let done = store.write_table(channel, table, &mut output);
    if room < text.len() {
        let beginning = &text[..room];
        same_in(
            rt,
            room,
            (done, output.taken.as_slice()),
            (Err(TableFault::Write), beginning),
        );
    } else {
        same_in(rt, room, (done, output.taken.as_slice()), (Ok(true), text));
    }
}

// The tables of both channels, where there is room for little, all but a byte, and all of each.
fn each_is_written<S: RowStore>(rt: &impl Abort, alloc: Global, store: &mut S) {
    for (channel, table, text) in [
        (1, Table::Clips, CLIPS),
        (2, Table::Clips, DROP_FRAME_CLIPS),
        (1, Table::Offers, OFFERS),
        (1, Table::Lent, b"LENT 0\n".as_slice()),
        (2, Table::Offers, b"OFFERS 0\n".as_slice()),
        (2, Table::Lent, LENT),
        (1, Table::Days, DAYS),
        (
            2,
            Table::Days,
            b"    3 OPEN      0       0  0\nDAYS 1\n".as_slice(),
        ),
        (
            2,
            Table::Vault,
            b"   1 T1          1\nTAPES 1 SHELVED 1 SLOTS 1\n".as_slice(),
        ),
    ] {
        for room in [0, 1, 41, text.len() - 1, text.len()] {
            is_written(rt, alloc, store, room, (channel, table, text));
        }
    }
}

// A channel that isn't in the plan has no table.
fn none_is_written<S: RowStore>(rt: &impl Abort, alloc: Global, store: &mut S) {
    let mut output = Taking {
        room: 1,
        taken: Vec::new(alloc),
    };
    let done = store.write_table(3, Table::Vault, &mut output);
    same_in(
        rt,
        "no channel",
        (done, output.taken.as_slice()),
        (Ok(false), b"".as_slice()),
    );
}

fn are_written<S: RowStore>(rt: &impl Abort, alloc: Global, store: &mut S) {
    are_answered(rt, alloc, store, MESSAGES);
    for room in 0..=65 {
        is_written(rt, alloc, store, room, (1, Table::Vault, VAULT));
    }
    each_is_written(rt, alloc, store);
    none_is_written(rt, alloc, store);
}

fn are_written_from_lists(rt: &impl Abort, alloc: Global, plan: &[PlanRow]) {
    let mut lists = MemRows::new(alloc, plan).expect(rt, "a plan");
    are_written(rt, alloc, &mut lists);
}

fn are_written_from_tables(rt: &impl Abort, alloc: Global, plan: &[PlanRow]) {
    let mut tables = tables_of(rt, alloc, plan);
    are_written(rt, alloc, &mut tables);
    let _ = tables.into_connection();
}

#[test]
fn tables_are_written_as_far_as_the_writer_takes_them(rt: HostRuntime) {
    let alloc = rt.alloc();
    let mut plan = Vec::new(alloc);
    for row in ["2,df,00:00:00;00,1", "1,25,06:00:00:00,40"] {
        let row = PlanRow::read(row.as_bytes()).expect(&rt, "a plan row");
        plan.push(row).expect(&rt, "memory");
    }
    are_written_from_lists(&rt, alloc, &plan);
    are_written_from_tables(&rt, alloc, &plan);
}
