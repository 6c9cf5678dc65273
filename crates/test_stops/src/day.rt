//! A broadcast day of three channels, as messages, and the tables that each of them leaves.
use crate::stops::{Reached, Stop, held};
use channel_plan::PlanRow;
use channel_view::MemRows;
use channel_view_model::RowStore;
use http_office::Answer;
use http_office::messages::answer;
use std::alloc::Global;
use std::ops::Range;
use std::process::Abort;
use timecode::Rate;

/// Three channels, whose days begin at 06:00:00:00.
pub const PLAN: [PlanRow; 3] = [
    PlanRow {
        ch: 1,
        rate: Rate::F25,
        start: 540_000,
        slots: 40,
    },
    PlanRow {
        ch: 2,
        rate: Rate::F25,
        start: 540_000,
        slots: 40,
    },
    PlanRow {
        ch: 3,
        rate: Rate::F25,
        start: 540_000,
        slots: 40,
    },
];

// What a channel may ask for.
const TABLES: [&str; 7] = [
    "tapes",
    "clips",
    "offers",
    "lent",
    "days/7",
    "days/7/list",
    "days/7/match",
];

// A message: the channel that it is of, another one that sees what it does, the end of its path, its body, and the body
// of its answer.
type Message = (u16, Option<u16>, &'static str, &'static str, &'static str);

/// How many messages come before the first offer with a window. By then channel 2 has borrowed a clip.
pub const WITHOUT_WINDOWS: usize = 11;

// Channel 3 lends to channel 2, and channel 2 to channel 1 for a window. Channel 2 plans a day with what it is lent,
// channel 1 one that is sealed and aired. Then channel 3 lends to a channel that isn't planned, and withdraws its first
// offer.
const MESSAGES: [Message; 21] = [
    (
        3,
        None,
        "tapes",
        r#"{"barcode":"T1","slot":1}"#,
        r#"{"tape":1}"#,
    ),
    (3, None, "clips", NEWS, r#"{"clip":"C0000001"}"#),
    (
        3,
        Some(2),
        "offers",
        r#"{"clip":"C0000001","to":2}"#,
        r#"{"offer":1}"#,
    ),
    (
        2,
        None,
        "tapes",
        r#"{"barcode":"T1","slot":1}"#,
        r#"{"tape":1}"#,
    ),
    (2, None, "tapes/1/pull", "", r#"{"tape":1}"#),
    (2, None, "tapes/1/shelve", r#"{"slot":2}"#, r#"{"tape":1}"#),
    (2, None, "clips", SPORT, r#"{"clip":"C0000001"}"#),
    (2, None, "clips", NEWS, r#"{"clip":"C0000002"}"#),
    (2, None, "days", r#"{"day":7}"#, r#"{"day":7}"#),
    (2, None, "days/7/items", LENT_ITEM, r#"{"item":1}"#),
    (2, None, "days/7/items", OWN_ITEM, r#"{"item":2}"#),
    (2, Some(1), "offers", WINDOW, r#"{"offer":1}"#),
    (2, None, "days/7/items/2/remove", "", r#"{"item":2}"#),
    (2, None, "clips/2/retire", "", r#"{"clip":"C0000002"}"#),
    (1, None, "days", r#"{"day":7}"#, r#"{"day":7}"#),
    (
        1,
        None,
        "days/7/import/strict",
        LIST,
        r#"{"items":1,"skipped":0}"#,
    ),
    (1, None, "days/7/items", BLACK_ITEM, r#"{"item":2}"#),
    (1, None, "days/7/seal", "", r#"{"day":7}"#),
    (
        1,
        None,
        "days/7/asrun/1",
        AIRED,
        r#"{"batch":1,"frames":250}"#,
    ),
    (
        3,
        None,
        "offers",
        r#"{"clip":"C0000001","to":999}"#,
        r#"{"offer":2}"#,
    ),
    (3, Some(2), "offers/1/withdraw", "", r#"{"offer":1}"#),
];

const NEWS: &str = "{\"frames\":125,\"in\":\"00:00:00:00\",\"tape\":1,\"title\":\"NEWS\",\
    \"umid\":\"060a2b340101010501010d201300000000112233445566778899aabbccddeeff\"}";

const SPORT: &str = "{\"frames\":250,\"in\":\"10:00:00:00\",\"tape\":1,\"title\":\"SPORT\",\
    \"umid\":\"060a2b340101010501010d2013000000ffeeddccbbaa99887766554433221100\"}";

const LENT_ITEM: &str =
    r#"{"at":"06:00:00:00","frames":125,"in":"00:00:00:00","mix":0,"source":"L0030001"}"#;

const OWN_ITEM: &str =
    r#"{"at":"06:00:05:00","frames":125,"in":"00:00:00:00","mix":0,"source":"C0000002"}"#;

const WINDOW: &str = r#"{"clip":"C0000001","first":7,"last":9,"to":1}"#;

const LIST: &str = "001  L0020001 V     C        10:00:00:00 10:00:10:00 06:00:00:00 06:00:10:00\n";

// Black up to the end of the day.
const BLACK_ITEM: &str =
    r#"{"at":"06:00:10:00","frames":2159750,"in":"00:00:00:00","mix":0,"source":"BL"}"#;

const AIRED: &str = "06:00:00:00,250,L0020001,10:00:00:00\n";

// Channels 1 and 2 have one barcode and one UMID. Channel 3 lends its clip to channel 2, which plans it and a clip of its
// own, retires this, and lends another to channel 1. Channel 3 lends to a channel that isn't planned; a lent clip isn't
// offered on, and a day with one that was withdrawn isn't sealed.
const LOANS: [Message; 17] = [
    (
        1,
        None,
        "tapes",
        r#"{"barcode":"T1","slot":1}"#,
        r#"{"tape":1}"#,
    ),
    (
        2,
        None,
        "tapes",
        r#"{"barcode":"T1","slot":1}"#,
        r#"{"tape":1}"#,
    ),
    (1, None, "clips", NEWS, r#"{"clip":"C0000001"}"#),
    (2, None, "clips", NEWS, r#"{"clip":"C0000001"}"#),
    (
        3,
        None,
        "tapes",
        r#"{"barcode":"T1","slot":1}"#,
        r#"{"tape":1}"#,
    ),
    (3, None, "clips", NEWS, r#"{"clip":"C0000001"}"#),
    (2, None, "clips", SPORT, r#"{"clip":"C0000002"}"#),
    (
        3,
        Some(2),
        "offers",
        r#"{"clip":"C0000001","to":2}"#,
        r#"{"offer":1}"#,
    ),
    (2, None, "days", r#"{"day":7}"#, r#"{"day":7}"#),
    (2, None, "days/7/items", LENT_ITEM, r#"{"item":1}"#),
    (2, None, "days/7/items", FIRST_OWN_ITEM, r#"{"item":2}"#),
    (2, None, "clips/1/retire", "", r#"{"clip":"C0000001"}"#),
    (
        2,
        Some(1),
        "offers",
        r#"{"clip":"C0000002","to":1}"#,
        r#"{"offer":1}"#,
    ),
    (
        3,
        None,
        "offers",
        r#"{"clip":"C0000001","to":999}"#,
        r#"{"offer":2}"#,
    ),
    (
        2,
        None,
        "offers",
        r#"{"clip":"L0030001","to":1}"#,
        r#"{"code":61,"refused":"LentClip"}"#,
    ),
    (3, Some(2), "offers/1/withdraw", "", r#"{"offer":1}"#),
    (
        2,
        None,
        "days/7/seal",
        "",
        r#"{"at":"1","code":81,"refused":"Recalled"}"#,
    ),
];

// A day of black and a clip is sealed and aired but for ten frames. Its batch comes again, then with another row, and
// then a row of it as the next batch.
const AN_AIRING: [Message; 10] = [
    (
        1,
        None,
        "tapes",
        r#"{"barcode":"T1","slot":1}"#,
        r#"{"tape":1}"#,
    ),
    (1, None, "clips", LONG_NEWS, r#"{"clip":"C0000001"}"#),
    (1, None, "days", r#"{"day":7}"#, r#"{"day":7}"#),
    (1, None, "days/7/items", FIRST_BLACK_ITEM, r#"{"item":1}"#),
    (1, None, "days/7/items", LONG_ITEM, r#"{"item":2}"#),
    (1, None, "days/7/seal", "", r#"{"day":7}"#),
    (
        1,
        None,
        "days/7/asrun/1",
        LONG_AIRED,
        r#"{"batch":1,"frames":2159990}"#,
    ),
    (
        1,
        None,
        "days/7/asrun/1",
        LONG_AIRED,
        r#"{"batch":1,"frames":2159990}"#,
    ),
    (
        1,
        None,
        "days/7/asrun/1",
        OTHER_AIRED,
        r#"{"code":93,"refused":"BatchDiffers"}"#,
    ),
    (
        1,
        None,
        "days/7/asrun/2",
        "06:00:40:00,2158990,C0000001,00:00:00:00\n",
        r#"{"at":"06:00:40:00","code":92,"refused":"AiredTwice"}"#,
    ),
];

const FIRST_OWN_ITEM: &str =
    r#"{"at":"06:00:05:00","frames":125,"in":"00:00:00:00","mix":0,"source":"C0000001"}"#;

const LONG_NEWS: &str = "{\"frames\":2159000,\"in\":\"00:00:00:00\",\"tape\":1,\"title\":\"NEWS\",\
    \"umid\":\"060a2b340101010501010d201300000000112233445566778899aabbccddeeff\"}";

const FIRST_BLACK_ITEM: &str =
    r#"{"at":"06:00:00:00","frames":1000,"in":"00:00:00:00","mix":0,"source":"BL"}"#;

const LONG_ITEM: &str =
    r#"{"at":"06:00:40:00","frames":2159000,"in":"00:00:00:00","mix":0,"source":"C0000001"}"#;

const LONG_AIRED: &str =
    "06:00:00:00,1000,BL,00:00:00:00\n06:00:40:00,2158990,C0000001,00:00:00:00\n";

const OTHER_AIRED: &str =
    "06:00:00:00,1000,BL,00:00:00:00\n06:00:40:00,2158989,C0000001,00:00:00:00\n";

fn asked(
    rt: &impl Abort,
    alloc: Global,
    method: &str,
    channel: u16,
    path: &str,
    body: &str,
) -> String {
    let len = body.len();
    format!(in alloc;
        "{method} /ch/{channel}/{path} HTTP/1.1\r\nContent-Length: {len}\r\n\r\n{body}"
    ).expect(rt, "memory")
}

// The body of an answer that refuses.
fn is_refusal(body: &str) -> bool {
    body.contains("\"refused\":")
}

fn answered(rt: &impl Abort, alloc: Global, body: &str) -> String {
    let len = body.len();
    let status = if is_refusal(body) {
        "409 Conflict"
    } else {
        "200 OK"
    };
    format!(in alloc;
        "HTTP/1.1 {status}\r\nContent-Length: {len}\r\nContent-Type: application/json\r\n\r\n{body}"
    ).expect(rt, "memory")
}

// What each channel may read, by its number.
type Tables = Vec<(u16, Vec<u8>)>;

fn table_of<S: RowStore>(rt: &impl Abort, alloc: Global, store: &mut S, channel: u16) -> Vec<u8> {
    let mut bytes = Vec::new(alloc);
    for table in TABLES {
        let asked = asked(rt, alloc, "GET", channel, table, "");
        let given = answer(alloc, store, asked.as_bytes());
        bytes.extend_from_slice(given.bytes()).expect(rt, "memory");
    }
    bytes
}

fn tables<S: RowStore>(rt: &impl Abort, alloc: Global, store: &mut S) -> Tables {
    let mut tables = Vec::new(alloc);
    for row in PLAN {
        let table = table_of(rt, alloc, store, row.ch);
        tables.push((row.ch, table)).expect(rt, "memory");
    }
    tables
}

// The tables of a channel whose message it isn't, and who doesn't see what it does, are the same before and after it.
fn leaves_others(rt: &impl Abort, message: &Message, before: &Tables, after: &Tables) {
    for table in after {
        let is_seen = table.0 == message.0 || Some(table.0) == message.1;
        held(rt, is_seen || before.contains(table), message);
    }
}

/// The messages with their answers, and what the tables hold before the first and after each.
#[derive(Drop)]
pub struct Day {
    messages: Vec<(String, String)>,
    held: Vec<Tables>,
}

impl Day {
    /// As it goes over lists, where nothing stops.
    pub fn told(rt: &impl Abort, alloc: Global) -> Day {
        Day::of(rt, alloc, &MESSAGES)
    }

    /// What three channels have and lend, and may not do with it.
    pub fn of_loans(rt: &impl Abort, alloc: Global) -> Day {
        Day::of(rt, alloc, &LOANS)
    }

    /// What was aired of a day, told more than once.
    pub fn of_an_airing(rt: &impl Abort, alloc: Global) -> Day {
        Day::of(rt, alloc, &AN_AIRING)
    }

    fn of(rt: &impl Abort, alloc: Global, messages: &[Message]) -> Day {
        let mut store = MemRows::new(alloc, &PLAN).expect(rt, "a plan");
        Day::told_of(rt, alloc, &mut store, messages)
    }

    // The messages as this store answers them, which has the plan alone.
    fn told_of<S: RowStore>(
        rt: &impl Abort,
        alloc: Global,
        store: &mut S,
        messages: &[Message],
    ) -> Day {
        let mut day = Day {
            messages: Vec::new(alloc),
            held: Vec::new(alloc),
        };
        let first = tables(rt, alloc, store);
        day.held.push(first).expect(rt, "memory");
        for message in messages {
            day.add(rt, alloc, store, message);
        }
        day
    }

    // A message, and what it leaves in the store.
    fn add<S: RowStore>(
        &mut self,
        rt: &impl Abort,
        alloc: Global,
        store: &mut S,
        message: &Message,
    ) {
        let (channel, _, path, body, answer_body) = *message;
        let asked = asked(rt, alloc, "POST", channel, path, body);
        let answered = answered(rt, alloc, answer_body);
        let given = answer(alloc, store, asked.as_bytes());
        held(rt, given.bytes() == answered.as_bytes(), asked.as_str());
        let after = tables(rt, alloc, store);
        self.may_leave(rt, message, asked.as_str(), &after);
        self.held.push(after).expect(rt, "memory");
        self.messages.push((asked, answered)).expect(rt, "memory");
    }

    // A message changed what it may of the tables that the last one left.
    fn may_leave(&self, rt: &impl Abort, message: &Message, asked: &str, after: &Tables) {
        let before = self.held.last().expect(rt, "tables");
        // What was refused, and what comes again, changes nothing.
        let changes = !is_refusal(message.4) && !self.was_asked(asked);
        held(rt, changes == (before != after), asked);
        leaves_others(rt, message, before, after);
    }

    fn was_asked(&self, message: &str) -> bool {
        self.messages.iter().any(|told| told.0.as_str() == message)
    }

    /// How many messages there are.
    pub fn len(&self) -> usize {
        self.messages.len()
    }

    /// Asks these messages, up to one that is answered 503. Each other one has its answer.
    pub fn ask<S: RowStore>(
        &self,
        rt: &impl Abort,
        alloc: Global,
        store: &mut S,
        places: Range<usize>,
        stop: Stop,
    ) -> Reached {
        let end = places.end;
        for place in places {
            let Some((asked, answered)) = self.messages.get(place) else {
                return Reached::at(place, stop);
            };
            match answer(alloc, store, asked.as_bytes()) {
                Answer::Given(bytes) => {
                    held(rt, bytes.as_slice() == answered.as_bytes(), stop);
                }
                Answer::Unavailable => {
                    return Reached {
                        stop,
                        acknowledged: place,
                        begun: place + 1,
                    };
                }
            }
        }
        Reached::at(end, stop)
    }

    // Whether the store holds what all messages left that had begun. If not, it holds what the acknowledged ones did.
    fn holds<S: RowStore>(
        &self,
        rt: &impl Abort,
        alloc: Global,
        store: &mut S,
        reached: Reached,
    ) -> bool {
        let found = tables(rt, alloc, store);
        let is_done = self.held.get(reached.begun) == Some(&found);
        let is_undone = self.held.get(reached.acknowledged) == Some(&found);
        held(rt, is_done || is_undone, reached);
        is_done
    }

    /// The store holds what one of these counts of messages left, and gives which; and the messages from there on leave
    /// what a run without a stop leaves.
    pub fn goes_on<S: RowStore>(
        &self,
        rt: &impl Abort,
        alloc: Global,
        store: &mut S,
        reached: Reached,
    ) -> usize {
        let from = if self.holds(rt, alloc, store, reached) {
            reached.begun
        } else {
            reached.acknowledged
        };
        let rest = self.ask(rt, alloc, store, from..self.len(), reached.stop);
        held(rt, rest.acknowledged == self.len(), reached);
        self.holds(rt, alloc, store, rest);
        from
    }
}
